ghost use Rattle.std.specs.Prelude.{◌≡◌};
ghost use Rattle.pt_types.specs.OperationViews.{operation_view};
ghost use Rattle.pt_legal.specs.Cores.{history_of, core_state};
ghost use Rattle.pt_rules.specs.CallRules.{acquire_rule, call_rule};
ghost use Rattle.pt_rules.specs.CallRules.{await_rule, missing_rule};
ghost use Rattle.pt_rules.specs.CallRules.{operation_rule};
ghost use Rattle.pt_rules.specs.CallRules.{wake_rule_on};
ghost use Rattle.pt_types.specs.Operations.{BarrierWaits, CondWaits, Ends, Inits, Restores};
ghost use Rattle.pt_types.specs.Operations.{Rwunlocks};
ghost use Rattle.pt_types.specs.Operations.{Unlocks};

use crate::cond::{WaitRule, WakeRule, wait_rule, wake_rule};
use crate::mutex::{ConsistentRule, LockRule, UnlockRule, consistent_rule, lock_rule, unlock_rule};
use crate::object::{DestroyRule, InitRule, destroy_rule, init_rule};
use crate::rwlock::{ReadRule, RwunlockRule, WriteRule, read_rule, rwunlock_rule, write_rule};
use pt_readable::ReadableHistory;
use pt_types::operations::{LockKind, ObjectClass, Operation, operation_of};
use pt_types::{Call, ClientId, Deadline, How, Name, ObjectId, ObjectKind};

/// The line of all verdict tables that applies to a call: why it is answered, or waits.
/// [XSH, the call's page]
#[derive(Clone, Copy, PartialEq, Eq)]
pub enum CallRule {
    /// No object has the name.
    NoObject,
    /// The object that has the name is of another class.
    OtherClass,
    Init(InitRule),
    Destroy(DestroyRule),
    Lock(LockRule),
    Unlock(UnlockRule),
    Consistent(ConsistentRule),
    Read(ReadRule),
    Write(WriteRule),
    Rwunlock(RwunlockRule),
    Wait(WaitRule),
    Wake(WakeRule),
    /// A call waits at a barrier.
    BarrierWaits,
}

// Returns the rule for a name that means no object of the class that the call needs.
fn missing<C: ReadableHistory>(core: &C, n: &Name) -> CallRule
    ensures { result ≡ missing_rule (history_of (core_state (C.seen core.now))) n.now }
{
    if core.is_named(n) {
        CallRule::OtherClass
    } else {
        CallRule::NoObject
    }
}

fn read_rule_on<C: ReadableHistory>(core: &C, c: ClientId, n: &Name, how: &How) -> CallRule
    ensures { result
        ≡ acquire_rule (history_of (core_state
        (C.seen core.now))) c n.now LockKind.ReadLock how.now }
{
    let Some(blocked) = core.is_blocked(n, c) else {
        return missing(core, n);
    };
    match core.rwlock(n, c) {
        Some(r) => CallRule::Read(read_rule(&r, blocked, how)),
        None => missing(core, n),
    }
}

fn acquire_rule<C: ReadableHistory>(
    core: &C,
    c: ClientId,
    n: &Name,
    lock_kind: LockKind,
    how: &How,
) -> CallRule
    ensures { result ≡ acquire_rule (history_of (core_state
        (C.seen core.now))) c n.now lock_kind how.now }
{
    match lock_kind {
        LockKind::MutexLock => match core.mutex(n) {
            Some(m) => CallRule::Lock(lock_rule(&m, c, how)),
            None => missing(core, n),
        },
        LockKind::ReadLock => read_rule_on(core, c, n, how),
        LockKind::WriteLock => match core.rwlock(n, c) {
            Some(r) => CallRule::Write(write_rule(&r, how)),
            None => missing(core, n),
        },
    }
}

// Returns the rule for a wait with a mutex, at a condition that is bound as this.
fn await_rule<C: ReadableHistory>(
    core: &C,
    c: ClientId,
    k: &Name,
    due: Option<Deadline>,
    bound: Option<ObjectId>,
) -> CallRule
    ensures { result ≡ await_rule (history_of (core_state (C.seen core.now))) c k.now due bound }
{
    let Some(number) = core.find(k, ObjectClass::Mutex) else {
        return missing(core, k);
    };
    match core.mutex(k) {
        Some(m) => CallRule::Wait(wait_rule(bound, number, &m, c, due)),
        None => missing(core, k),
    }
}

fn unlock_rule_on<C: ReadableHistory>(core: &C, c: ClientId, n: &Name) -> CallRule
    ensures { result ≡ operation_rule (history_of (core_state (C.seen core.now))) c
        (Unlocks n.now) }
{
    match core.mutex(n) {
        Some(m) => CallRule::Unlock(unlock_rule(&m, c)),
        None => missing(core, n),
    }
}

fn consistent_rule_on<C: ReadableHistory>(core: &C, c: ClientId, n: &Name) -> CallRule
    ensures { result ≡ operation_rule (history_of (core_state (C.seen core.now))) c
        (Restores n.now) }
{
    match core.mutex(n) {
        Some(m) => CallRule::Consistent(consistent_rule(&m, c)),
        None => missing(core, n),
    }
}

fn rwunlock_rule_on<C: ReadableHistory>(core: &C, c: ClientId, n: &Name) -> CallRule
    ensures { result ≡ operation_rule (history_of (core_state (C.seen core.now))) c
        (Rwunlocks n.now) }
{
    match core.rwlock(n, c) {
        Some(r) => CallRule::Rwunlock(rwunlock_rule(&r)),
        None => missing(core, n),
    }
}

// Returns the rule for a `broadcast`, or for a `signal` if `all` is false.
fn wake_rule_on<C: ReadableHistory>(core: &C, n: &Name, all: bool) -> CallRule
    ensures { result ≡ wake_rule_on (history_of (core_state (C.seen core.now))) n.now all }
{
    match core.bound(n) {
        Some(bound) => CallRule::Wake(wake_rule(bound, all)),
        None => missing(core, n),
    }
}

fn destroy_rule_on<C: ReadableHistory>(
    core: &C,
    c: ClientId,
    n: &Name,
    class: ObjectClass,
) -> CallRule
    ensures { result ≡ operation_rule (history_of (core_state (C.seen core.now))) c
        (Ends n.now class) }
{
    match core.is_busy(n, class) {
        Some(busy) => CallRule::Destroy(destroy_rule(busy)),
        None => missing(core, n),
    }
}

fn init_rule_on<C: ReadableHistory>(core: &C, c: ClientId, n: &Name, kind: ObjectKind) -> CallRule
    ensures { result ≡ operation_rule (history_of (core_state (C.seen core.now))) c
        (Inits n.now kind) }
{
    CallRule::Init(init_rule(&kind, core.is_named(n), core.objects()))
}

fn wait_rule_on<C: ReadableHistory>(
    core: &C,
    c: ClientId,
    n: &Name,
    k: &Name,
    due: Option<Deadline>,
) -> CallRule
    ensures { result ≡ operation_rule (history_of (core_state (C.seen core.now))) c
        (CondWaits n.now k.now due) }
{
    match core.bound(n) {
        Some(bound) => await_rule(core, c, k, due, bound),
        None => missing(core, n),
    }
}

fn arrive_rule_on<C: ReadableHistory>(core: &C, c: ClientId, n: &Name) -> CallRule
    ensures { result ≡ operation_rule (history_of (core_state (C.seen core.now))) c
        (BarrierWaits n.now) }
{
    match core.find(n, ObjectClass::Barrier) {
        Some(_) => CallRule::BarrierWaits,
        None => missing(core, n),
    }
}

fn operation_rule<C: ReadableHistory>(core: &C, c: ClientId, operation: &Operation<'_>) -> CallRule
    ensures { result ≡ operation_rule (history_of (core_state (C.seen core.now))) c
        (operation_view operation.now) }
{
    match operation {
        Operation::Inits(n, kind) => init_rule_on(core, c, n, *kind),
        Operation::Ends(n, class) => destroy_rule_on(core, c, n, *class),
        Operation::Acquires(n, lock_kind, how) => acquire_rule(core, c, n, *lock_kind, how),
        Operation::Unlocks(n) => unlock_rule_on(core, c, n),
        Operation::Restores(n) => consistent_rule_on(core, c, n),
        Operation::Rwunlocks(n) => rwunlock_rule_on(core, c, n),
        Operation::CondWaits(n, k, due) => wait_rule_on(core, c, n, k, *due),
        Operation::Signals(n) => wake_rule_on(core, n, false),
        Operation::Broadcasts(n) => wake_rule_on(core, n, true),
        Operation::BarrierWaits(n) => arrive_rule_on(core, c, n),
    }
}

/// Returns the line of the verdict tables that applies to a client's call, before it is made.
/// [XSH, the call's page]
pub fn call_rule<C: ReadableHistory>(core: &C, c: ClientId, call: &Call) -> CallRule
    ensures { result ≡ call_rule (history_of (core_state (C.seen core.now))) c call.now }
{
    operation_rule(core, c, &operation_of(call))
}
