//! Which line of a verdict table applies to a call, and why an entry is added.
//!
//! Each verdict table of `pt_types` has an enum here, with a variant for each of its lines in the
//! order of docs/RULES.md. Contracts say which line is the first that applies, and the laws say
//! that the table's verdict is what that line says.
#![tactic(auto)]

mod call;
mod cond;
mod event;
mod forced;
mod laws;
mod mutex;
mod object;
mod pages;
mod reasons;
mod rwlock;

pub use call::{CallRule, call_rule};
pub use cond::{WaitRule, WakeRule, wait_rule, wake_rule};
pub use event::{event_reason, refusal_reason};
pub use forced::{ExpireRule, GrantRule, expire_rule, forced_reason, grant_rule};
pub use laws::{
    law_call_rules, law_consistent_rules, law_destroy_rules, law_init_rules, law_lock_rules,
    law_read_rules, law_rwunlock_rules, law_unlock_rules, law_wait_rules, law_write_rules,
};
pub use mutex::{ConsistentRule, LockRule, UnlockRule, consistent_rule, lock_rule, unlock_rule};
pub use object::{DestroyRule, InitRule, destroy_rule, init_rule};
pub use pages::page_of;
pub use reasons::{Reason, rule_reason};
pub use rwlock::{ReadRule, RwunlockRule, WriteRule, read_rule, rwunlock_rule, write_rule};
