//! What a call asks for: the objects that its names refer to, each looked up once.

ghost use Rattle.std.specs.Prelude.{MatchOption, None, unwrap_or, ◌≡◌};
ghost use Rattle.pt_types.specs.OperationViews.{operation_view};
ghost use Rattle.pt_model.specs.Histories.{History};
ghost use Rattle.pt_model.specs.Objects.{find_object};
ghost use Rattle.pt_state.specs.Adds.{history_of};
ghost use Rattle.pt_state.specs.Requests.{IsRequest, mutex_meant, object_meant};
ghost use Rattle.pt_state.specs.Reads.{AreTables};

use crate::state::State;
use pt_types::operations::{ObjectClass, Operation, class_needed};
use pt_types::{Name, ObjectId};
use std::alloc::Allocator;

/// The objects that the names of a call refer to when the call is made.  [XSH, the call's page]
#[derive(Clone, Copy)]
pub struct Request {
    /// The object that the first name refers to. None if it refers to no object of the class that
    /// the call needs, and for a call that makes an object.
    pub object: Option<ObjectId>,
    /// The mutex that the second name of a wait refers to. None if it refers to no mutex, and for
    /// other calls.
    pub mutex: Option<ObjectId>,
}

/// Returns the number of the object, or 0 if there is none.
pub(crate) fn or_zero(object: Option<ObjectId>) -> ObjectId
    ensures { result ≡ unwrap_or object 0 }
{
    match object {
        Some(o) => o,
        None => ObjectId(0),
    }
}

// Returns the first name of an operation, with the class that its object must have. Returns None
// for an operation that makes an object.
#[inline(always)]
fn named_first<'c>(operation: &Operation<'c>) -> Option<(&'c Name, ObjectClass)>
    ensures { (h : History) → MatchOption result
        (object_meant h (operation_view operation.now) ≡ None)
        (λ named. object_meant h (operation_view operation.now)
        ≡ find_object h named.0.now named.1) }
{
    match operation {
        Operation::Inits(..) => None,
        Operation::Ends(n, class) => Some((n, *class)),
        Operation::Acquires(n, lock_kind, _) => Some((n, class_needed(*lock_kind))),
        Operation::Unlocks(n) => Some((n, ObjectClass::Mutex)),
        Operation::Restores(n) => Some((n, ObjectClass::Mutex)),
        Operation::Rwunlocks(n) => Some((n, ObjectClass::Rwlock)),
        Operation::CondWaits(n, _, _) => Some((n, ObjectClass::Cond)),
        Operation::Signals(n) => Some((n, ObjectClass::Cond)),
        Operation::Broadcasts(n) => Some((n, ObjectClass::Cond)),
        Operation::BarrierWaits(n) => Some((n, ObjectClass::Barrier)),
    }
}

impl<A: Allocator + Copy> State<A> {
    // Returns the object that an operation's first name refers to, if any. Returns None for an
    // operation that makes an object.
    #[inline(always)]
    fn object_of(&self, operation: &Operation<'_>) -> Option<ObjectId>
        requires { AreTables self.now }
        ensures { result ≡ object_meant (history_of self.now) (operation_view operation.now) }
    {
        match named_first(operation) {
            Some((name, class)) => self.find(name, class),
            None => None,
        }
    }

    // Returns the mutex that the second name of a wait refers to, if any. Returns None for any
    // other operation.
    #[inline(always)]
    fn mutex_of(&self, operation: &Operation<'_>) -> Option<ObjectId>
        requires { AreTables self.now }
        ensures { result ≡ mutex_meant (history_of self.now) (operation_view operation.now) }
    {
        match operation {
            Operation::CondWaits(_, m, _) => self.find(m, ObjectClass::Mutex),
            _ => None,
        }
    }

    /// Looks up the objects that the names of an operation refer to, each once.
    /// [XSH, the call's page]
    #[inline(always)]
    pub fn request(&self, operation: &Operation<'_>) -> Request
        requires { AreTables self.now }
        ensures { IsRequest (history_of self.now) (operation_view operation.now) result }
    {
        Request {
            object: self.object_of(operation),
            mutex: self.mutex_of(operation),
        }
    }
}
