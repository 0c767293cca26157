ghost use Rattle.std.specs.Prelude.{◌≡◌};
ghost use Rattle.pt_rules.specs.Pages.{page_of};

use pt_types::Call;

/// Returns the page of XSH that a call is on, without `pthread_`.
pub fn page_of(call: &Call) -> &'static [u8]
    ensures { result.now ≡ page_of call.now }
{
    match call {
        Call::MutexInit(..) => b"XSH mutex_init",
        Call::Lock(_) => b"XSH mutex_lock",
        Call::Trylock(_) => b"XSH mutex_trylock",
        Call::Timedlock(..) => b"XSH mutex_timedlock",
        Call::Clocklock(..) => b"XSH mutex_clocklock",
        Call::Unlock(_) => b"XSH mutex_unlock",
        Call::Consistent(_) => b"XSH mutex_consistent",
        Call::MutexDestroy(_) => b"XSH mutex_destroy",
        Call::RwlockInit(_) => b"XSH rwlock_init",
        Call::Rdlock(_) => b"XSH rwlock_rdlock",
        Call::Tryrdlock(_) => b"XSH rwlock_tryrdlock",
        Call::Timedrdlock(..) => b"XSH rwlock_timedrdlock",
        Call::Clockrdlock(..) => b"XSH rwlock_clockrdlock",
        Call::Wrlock(_) => b"XSH rwlock_wrlock",
        Call::Trywrlock(_) => b"XSH rwlock_trywrlock",
        Call::Timedwrlock(..) => b"XSH rwlock_timedwrlock",
        Call::Clockwrlock(..) => b"XSH rwlock_clockwrlock",
        Call::Rwunlock(_) => b"XSH rwlock_unlock",
        Call::RwlockDestroy(_) => b"XSH rwlock_destroy",
        Call::CondInit(_) => b"XSH cond_init",
        Call::CondDestroy(_) => b"XSH cond_destroy",
        Call::Wait(..) => b"XSH cond_wait",
        Call::Timedwait(..) => b"XSH cond_timedwait",
        Call::Clockwait(..) => b"XSH cond_clockwait",
        Call::Signal(_) => b"XSH cond_signal",
        Call::Broadcast(_) => b"XSH cond_broadcast",
        Call::BarrierInit(..) => b"XSH barrier_init",
        Call::Bwait(_) => b"XSH barrier_wait",
        Call::BarrierDestroy(_) => b"XSH barrier_destroy",
    }
}
