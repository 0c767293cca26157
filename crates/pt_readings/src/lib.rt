//! The plain slow program: what is read off a history, by scanning its entries.
//!
//! Each function's contract says that its result is the model's definition of the same name,
//! applied to the history of the entries. A function `x_by` is one step: it returns what the
//! reading `x` becomes by one entry after these. Nothing allocates memory. Instead, the answers of
//! a Trip and the moves by a signal scan the earlier entries again. `specs/` relates the records of
//! this crate to those of the model.
//!
//! Parameters are named as in the model: `c` a client, `m` a mutex, `r` a read-write lock, `b` a
//! barrier, `o` any object, `n` a name, `i` and `j` places, `v` and `w` waiting calls.
//!
//! | Module | Contents |
//! |---|---|
//! | `clients` | which clients live, their priorities, and the clocks |
//! | `objects` | which object a name means, and what an object was made as |
//! | `waiting` | the calls that came without a reply |
//! | `answers` | what each entry answers, and which calls are open |
//! | `moves` | when a wait was moved, where calls wait, and in which order |
//! | `mutexes` | locks, owners and conditions |
//! | `rwlocks` | read locks and write locks |
//!
//! Only tests show how long it takes. They are in the crate that plays scripts by it.
#![tactic(auto)]

pub mod answers;
pub mod clients;
pub mod moves;
pub mod mutexes;
pub mod objects;
pub mod rwlocks;
pub mod waiting;
