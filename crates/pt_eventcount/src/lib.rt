//! The numbers of sessions, the event counts that they sleep at, whose calls wait, and whose
//! connections are closed. No contract says who wakes.
#![tactic(auto)]

mod event_count;
mod peers;
mod session_id;
mod waiter_queue;

pub use event_count::{EventCount, event_counts};
pub use peers::Peers;
pub use session_id::SessionId;
pub use waiter_queue::WaiterQueue;
