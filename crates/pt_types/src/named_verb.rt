ghost use Rattle.std.specs.Prelude.{◌≡◌, ℕ, List, IfSome, IsSome};
ghost use Rattle.pt_types.specs.declared.named_verb.NamedVerb.{NamedVerb};
ghost use Rattle.pt_types.specs.NamedVerbs.{call_on};

use crate::call::Call;
use crate::name::Name;

/// A call word that takes one name and no other argument.  [XSH, the call's page]
#[derive(Clone, Copy, PartialEq, Eq)]
pub enum NamedVerb {
    Lock,
    Trylock,
    Unlock,
    Consistent,
    MutexDestroy,
    RwlockInit,
    Rdlock,
    Tryrdlock,
    Wrlock,
    Trywrlock,
    Rwunlock,
    RwlockDestroy,
    CondInit,
    CondDestroy,
    Signal,
    Broadcast,
    Bwait,
    BarrierDestroy,
}

impl NamedVerb {
    /// Returns the word and the name of a call, or None if its word takes other arguments.
    /// [XSH, the call's page]
    #[inline(always)]
    pub fn of(call: &Call) -> Option<(NamedVerb, &Name)>
        ensures found { IfSome result (λ p. call_on p.0 p.1.now ≡ call.now) }
        ensures exact { (verb : NamedVerb) (name : List ℕ) →
            call.now ≡ call_on verb name → IsSome result }
    {
        match call {
            Call::Lock(name) => Some((NamedVerb::Lock, name)),
            Call::Trylock(name) => Some((NamedVerb::Trylock, name)),
            Call::Unlock(name) => Some((NamedVerb::Unlock, name)),
            Call::Consistent(name) => Some((NamedVerb::Consistent, name)),
            Call::MutexDestroy(name) => Some((NamedVerb::MutexDestroy, name)),
            Call::RwlockInit(name) => Some((NamedVerb::RwlockInit, name)),
            Call::Rdlock(name) => Some((NamedVerb::Rdlock, name)),
            Call::Tryrdlock(name) => Some((NamedVerb::Tryrdlock, name)),
            Call::Wrlock(name) => Some((NamedVerb::Wrlock, name)),
            Call::Trywrlock(name) => Some((NamedVerb::Trywrlock, name)),
            Call::Rwunlock(name) => Some((NamedVerb::Rwunlock, name)),
            Call::RwlockDestroy(name) => Some((NamedVerb::RwlockDestroy, name)),
            Call::CondInit(name) => Some((NamedVerb::CondInit, name)),
            Call::CondDestroy(name) => Some((NamedVerb::CondDestroy, name)),
            Call::Signal(name) => Some((NamedVerb::Signal, name)),
            Call::Broadcast(name) => Some((NamedVerb::Broadcast, name)),
            Call::Bwait(name) => Some((NamedVerb::Bwait, name)),
            Call::BarrierDestroy(name) => Some((NamedVerb::BarrierDestroy, name)),
            _ => None,
        }
    }

    /// Returns the call of this word on this name.  [XSH, the call's page]
    #[inline(always)]
    pub fn call(self, name: Name) -> Call
        ensures { result ≡ call_on self name }
    {
        match self {
            NamedVerb::Lock => Call::Lock(name),
            NamedVerb::Trylock => Call::Trylock(name),
            NamedVerb::Unlock => Call::Unlock(name),
            NamedVerb::Consistent => Call::Consistent(name),
            NamedVerb::MutexDestroy => Call::MutexDestroy(name),
            NamedVerb::RwlockInit => Call::RwlockInit(name),
            NamedVerb::Rdlock => Call::Rdlock(name),
            NamedVerb::Tryrdlock => Call::Tryrdlock(name),
            NamedVerb::Wrlock => Call::Wrlock(name),
            NamedVerb::Trywrlock => Call::Trywrlock(name),
            NamedVerb::Rwunlock => Call::Rwunlock(name),
            NamedVerb::RwlockDestroy => Call::RwlockDestroy(name),
            NamedVerb::CondInit => Call::CondInit(name),
            NamedVerb::CondDestroy => Call::CondDestroy(name),
            NamedVerb::Signal => Call::Signal(name),
            NamedVerb::Broadcast => Call::Broadcast(name),
            NamedVerb::Bwait => Call::Bwait(name),
            NamedVerb::BarrierDestroy => Call::BarrierDestroy(name),
        }
    }
}
