//! The laws of what entries touch. Each function's contract is a law of all histories that can come
//! about; its body is empty.

ghost use Rattle.pt_next_grant.specs.TouchLaws.{AreTouched, BeginsUntouched, Candidates};
ghost use Rattle.pt_next_grant.specs.TouchLaws.{HasJustCome};
ghost use Rattle.pt_next_grant.specs.TouchLaws.{RestsUntouched, ServesTouched, Touches};

/// Touched: a call that may be served after an entry waits at the object that the entry touches, or
/// could be served at the same object before the entry.
/// [XSH pthread_mutex_unlock, pthread_rwlock_unlock]
pub fn law_touched()
    ensures { Touches }
{}

/// One object: all calls that may be served wait at the object that is touched.
pub fn law_are_touched()
    ensures { AreTouched }
{}

/// Just come: an open call for a read lock whose client holds one there already is the call that
/// came last.  [XSH pthread_rwlock_rdlock]
pub fn law_has_just_come()
    ensures { HasJustCome }
{}

/// Candidates: the call that is served at an object is its candidate.
/// [XSH pthread_mutex_unlock, pthread_rwlock_unlock, pthread_barrier_wait]
pub fn law_candidates()
    ensures { Candidates }
{}

/// Service: the Trip or the Grant that must follow serves the candidate of the object that is
/// touched.
pub fn law_serves_touched()
    ensures { ServesTouched }
{}

/// At rest: if no entry must follow, the object that is touched has no candidate.
pub fn law_rests_untouched()
    ensures { RestsUntouched }
{}

/// At a Start: if no entry must follow a Start, nothing is touched there and no call has just
/// come.
pub fn law_begins_untouched()
    ensures { BeginsUntouched }
{}
