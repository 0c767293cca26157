//! What an entry touches: the one object at which it can let a waiting call go on.
//!
//! `specs/` says which object an entry touches and which call is served at an object; the laws say
//! that the next call to serve is the one at the object touched last. So a program looks at one
//! object for each entry, and at the first call that waits there. Each law is the contract of a
//! function with an empty body; `proofs/` proves them.
#![tactic(auto)]

mod laws;

pub use laws::{
    law_are_touched, law_begins_untouched, law_candidates, law_has_just_come, law_rests_untouched,
    law_serves_touched, law_touched,
};
