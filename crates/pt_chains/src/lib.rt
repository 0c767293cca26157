//! The queues of a core: a `WaitList` whose queues are chains of nodes.
//!
//! Contracts see only the queues, as those of the trait do, and no clause mentions nodes or chains.
//! Only tests show that room is found when it is asked for.
#![tactic(auto)]

mod boxed;
mod chains;
mod link;
mod marked;
mod node_table;
mod nodes;
mod queues;
mod rows;
mod sides;
mod spares;

pub use chains::Chains;
