//! What a server or a script needs of a core: a trait, and the definitions of what an event does to
//! a history that is the one legal list for its events.
//!
//! The crates of the server and of scripts are generic over the trait, so that they are proved
//! without the core.
#![tactic(auto)]

mod applied;
mod legal_history;

pub use applied::{Applied, Reply};
pub use legal_history::LegalHistory;
