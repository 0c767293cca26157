//! What the objects that a call names are doing, as rows of a trace: who holds each, and which
//! calls wait there, in the order of their turns.
//!
//! Contracts say that a row is read off the history of a core. The clients are given as the names
//! under which they joined, each with its number. `law_turns` says that the calls that wait at an
//! object are all listed, in the order of their turns.
//!
//! Only tests show that ENOMEM follows a refused growth.
#![tactic(auto)]

mod clients;
mod laws;
mod mutexes;
mod rwlocks;
mod states;
mod turns;
mod waiting;

pub use laws::law_turns;
pub use states::put_states;
