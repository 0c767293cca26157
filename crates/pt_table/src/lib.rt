//! The tables of clients and of objects. Rows are found by number, and those of objects by name
//! too. The tables are built on `slab` and `indexmap`.
//!
//! Contracts see a table as the list of its rows in the order in which they were added, and as a
//! finite map with a limit, from numbers and for objects also from names. They fix the result and
//! the rows after each call. Only tests show that `Memory` is returned only if a growth was
//! refused, that an empty table allocates nothing, and which texts `Display` writes.
#![tactic(auto)]

mod chains;
mod clients;
mod fault;
mod link;
mod names;
mod object_slots;
mod objects;
mod rows;
mod slot_hints;
mod sorting;
mod stored_link;

pub use clients::{ClientRow, Clients};
pub use fault::TableFault;
pub use link::Link;
pub use objects::{ObjectRow, Objects};
pub use stored_link::StoredLink;
