//! Objects found by their names, and the calls that make and destroy objects.

ghost use Rattle.std.specs.Prelude.{IfErr, None, OnErr, OnOk, Some, ◌≡◌, false, is_some};
ghost use Rattle.pt_types.specs.ObjectTable.{init_verdict as init_table};
ghost use Rattle.pt_types.specs.declared.outcome.Outcome.TheVariants as outcomes;
ghost use Rattle.pt_types.specs.Operations.{Ends, Inits, operation};
ghost use Rattle.pt_model.specs.declared.entry.Entry.TheVariants as entry;
ghost use Rattle.pt_state.specs.Adds.{Adds, HasRoomFor, AddsNothing, history_of};
ghost use Rattle.pt_model.specs.Objects.{find_object, object_named, object_count};
ghost use Rattle.pt_state.specs.Reads.{AreTables};
ghost use Rattle.pt_model.specs.Verdicts.{verdict_on};

use crate::state::State;
use pt_barrier::verdict_init;
use pt_records::objects::{add, class_in_row, make, remove};
use pt_types::operations::{ObjectClass, is_same};
use pt_types::{
    Call, ClientId, MAX_OBJECTS, Name, ObjectId, ObjectKind, Outcome, Refusal, Verdict,
};
use std::alloc::Allocator;

/// Returns the verdict of a call that depends only on whether its object exists: `given` if it
/// does, else EINVAL.  [XSH pthread_cond_signal, pthread_barrier_wait]
pub fn verdict_if_object(object: Option<ObjectId>, given: Verdict) -> Verdict
    ensures { result ≡ verdict_on object (λ o. given) }
{
    match object {
        Some(_) => given,
        None => Verdict::Reply(Outcome::Einval),
    }
}

// Returns the verdict of a call that makes an object of this kind, as far as the kind alone decides
// it.  [XSH pthread_barrier_init]
fn kind_verdict(kind: ObjectKind) -> Verdict
    ensures { result ≡ init_table kind false 0 }
{
    match kind {
        ObjectKind::Barrier(count) => verdict_init(count),
        ObjectKind::Mutex(..) | ObjectKind::Rwlock | ObjectKind::Cond => {
            Verdict::Reply(Outcome::Done)
        }
    }
}

impl<A: Allocator + Copy> State<A> {
    /// Pushes a call that makes an object, and adds the object's row. Returns ENOMEM if there is no
    /// memory for the row.
    #[inline(always)]
    pub fn push_created(
        &mut self,
        c: ClientId,
        call: &Call,
        n: &Name,
        kind: ObjectKind,
    ) -> Result<(), Refusal>
        requires has_room { HasRoomFor self.old (entry.Call c call.now (Some outcomes.Done)) }
        requires operation { operation call.now ≡ Inits n.now kind }
        ensures ok { OnOk result (Adds self.old (entry.Call c call.now
            (Some outcomes.Done)) self.new) }
        ensures unchanged { OnErr result (AddsNothing self.old self.new) }
        ensures err { IfErr result (λ refusal. refusal ≡ Refusal.Enomem) }
    {
        let place = self.stored.len();
        match add(
            &mut self.objects,
            ObjectId(place),
            n,
            make(kind, self.alloc),
        ) {
            Ok(()) => {
                self.finish_long(c, call, Outcome::Done);
                Ok(())
            }
            Err(refusal) => Err(refusal),
        }
    }

    /// Pushes a call that destroys an object, and removes the object's row.
    #[inline(always)]
    pub fn push_destroyed(
        &mut self,
        c: ClientId,
        call: &Call,
        n: &Name,
        class: ObjectClass,
        object: Option<ObjectId>,
    )
        requires has_room { HasRoomFor self.old (entry.Call c call.now (Some outcomes.Done)) }
        requires operation { operation call.now ≡ Ends n.now class }
        requires found { object ≡ find_object (history_of self.old) n.now class }
        ensures { Adds self.old (entry.Call c call.now (Some outcomes.Done)) self.new }
    {
        let o = object.unwrap();
        remove(&mut self.objects, o);
        self.finish(c, call, Outcome::Done);
    }

    /// Returns the object of this class that has the name, if one exists.
    #[inline(always)]
    pub fn find(&self, n: &Name, class: ObjectClass) -> Option<ObjectId>
        requires { AreTables self.now }
        ensures { result ≡ find_object (history_of self.now) n.now class }
    {
        match self.objects.named(n) {
            Some((number, object)) => {
                if is_same(class_in_row(object), class) {
                    Some(ObjectId(number))
                } else {
                    None
                }
            }
            None => None,
        }
    }

    /// Returns the verdict of a call that makes an object.  [XSH pthread_mutex_init]
    #[inline(always)]
    pub fn makes_verdict(&self, n: &Name, kind: ObjectKind) -> Verdict
        requires { AreTables self.now }
        ensures { result
            ≡ init_table kind (is_some (object_named (history_of self.now) n.now))
            (object_count (history_of self.now)) }
    {
        let in_use = self.objects.find(n).is_some();
        match kind_verdict(kind) {
            Verdict::Reply(Outcome::Done) if in_use => Verdict::Reply(Outcome::Ebusy),
            Verdict::Reply(Outcome::Done) if self.objects.len() >= MAX_OBJECTS => {
                Verdict::Reply(Outcome::Eagain)
            }
            verdict => verdict,
        }
    }
}
