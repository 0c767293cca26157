//! The laws of the rules. Each function has an empty body: its contract is the law.

ghost use Rattle.pt_rules.specs.CallRules.{CallRules};
ghost use Rattle.pt_rules.specs.CondRules.{WaitRules};
ghost use Rattle.pt_rules.specs.MutexRules.{ConsistentRules, LockRules, UnlockRules};
ghost use Rattle.pt_rules.specs.ObjectRules.{DestroyRules, InitRules};
ghost use Rattle.pt_rules.specs.RwlockRules.{ReadRules, RwunlockRules, WriteRules};

/// The verdict of a call for a mutex is what the first line that applies says.
#[tactic(auto, using(crate::proofs::Lines::lock_rules))]
pub fn law_lock_rules()
    ensures { LockRules }
{}

/// The verdict of `unlock` is what the first line that applies says.
#[tactic(auto, using(crate::proofs::Lines::unlock_rules))]
pub fn law_unlock_rules()
    ensures { UnlockRules }
{}

/// The verdict of `consistent` is what the first line that applies says.
#[tactic(auto, using(crate::proofs::Lines::consistent_rules))]
pub fn law_consistent_rules()
    ensures { ConsistentRules }
{}

/// The verdict of a call for a read lock is what the first line that applies says.
#[tactic(auto, using(crate::proofs::Lines::read_rules))]
pub fn law_read_rules()
    ensures { ReadRules }
{}

/// The verdict of a call for a write lock is what the first line that applies says.
#[tactic(auto, using(crate::proofs::Lines::write_rules))]
pub fn law_write_rules()
    ensures { WriteRules }
{}

/// The verdict of `rwunlock` is what the first line that applies says.
#[tactic(auto, using(crate::proofs::Lines::rwunlock_rules))]
pub fn law_rwunlock_rules()
    ensures { RwunlockRules }
{}

/// The verdict of a wait at a condition is what the first line that applies says.
#[tactic(auto, using(crate::proofs::Lines::wait_rules))]
pub fn law_wait_rules()
    ensures { WaitRules }
{}

/// The verdict of making an object is what the first line that applies says.
#[tactic(auto, using(crate::proofs::Lines::init_rules))]
pub fn law_init_rules()
    ensures { InitRules }
{}

/// The verdict of destroying an object is what the first line that applies says.
#[tactic(auto, using(crate::proofs::Lines::destroy_rules))]
pub fn law_destroy_rules()
    ensures { DestroyRules }
{}

/// The verdict of a client's call is what its rule says.
#[tactic(auto, using(crate::proofs::CallLines::call_rules))]
pub fn law_call_rules()
    ensures { CallRules }
{}
