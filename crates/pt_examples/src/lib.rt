//! The worked rows, played by the definitions alone: the entries that each event writes, the
//! answers that it gives, and which histories are legal. Each function's contract is one row,
//! proved by computation. `tools/list rows` prints each row. No code of this crate runs.
#![tactic(auto)]

ghost use Rattle.pt_examples.specs.Row2.{IsPlayed2, IsLegal2};
ghost use Rattle.pt_examples.specs.Row3.{IsPlayed3};
ghost use Rattle.pt_examples.specs.Row5.{IsPlayed5, IsLegal5};
ghost use Rattle.pt_examples.specs.Row6.{IsPlayed6};
ghost use Rattle.pt_examples.specs.Row7.{IsPlayed7};
ghost use Rattle.pt_examples.specs.Row8.{IsPlayed8};
ghost use Rattle.pt_examples.specs.Row9.{IsPlayed9};
ghost use Rattle.pt_examples.specs.Row10.{IsPlayed10};
ghost use Rattle.pt_examples.specs.Row11.{IsPlayed11, IsLegal11};
ghost use Rattle.pt_examples.specs.Row12.{IsPlayed12};
ghost use Rattle.pt_examples.specs.Row13.{IsPlayed13};
ghost use Rattle.pt_examples.specs.Row14.{IsPlayed14};
ghost use Rattle.pt_examples.specs.Row15.{IsPlayed15};
ghost use Rattle.pt_examples.specs.Row16.{IsPlayed16};
ghost use Rattle.pt_examples.specs.Row18.{IsPlayed18};
ghost use Rattle.pt_examples.specs.Row19.{IsPlayed19};
ghost use Rattle.pt_examples.specs.Row20.{IsPlayed20};
ghost use Rattle.pt_examples.specs.Row32.{IsPlayed32};
ghost use Rattle.pt_examples.specs.Row33.{IsPlayed33};
ghost use Rattle.pt_examples.specs.Row34.{IsPlayed34};
ghost use Rattle.pt_examples.specs.Row36.{IsPlayed36};
ghost use Rattle.pt_examples.specs.Row37.{IsPlayed37};
ghost use Rattle.pt_examples.specs.Row39.{IsPlayed39, IsYielded39};
ghost use Rattle.pt_examples.specs.Row40.{IsPlayed40, IsAnswered40};
ghost use Rattle.pt_examples.specs.Row41.{IsPlayed41};
ghost use Rattle.pt_examples.specs.Row23.{IsFullAtSeven, IsFullBeforeYield, IsFullAtSix};
ghost use Rattle.pt_examples.specs.Row23.{IsFullAtOne, IsFullAtNone};
ghost use Rattle.pt_examples.specs.SealedRows.{IsSealedAtSeven, IsTwiceSealed, IsSealedBeforeYield};
ghost use Rattle.pt_examples.specs.SealedRows.{IsSealedAtSix, IsSealedAtFour, IsSealedAtOne};
ghost use Rattle.pt_examples.specs.SealedRows.{IsSealedAtNone};
ghost use Rattle.pt_examples.specs.SealedAlike.{IsAlike2, IsAlike3, IsAlike5, IsAlike6, IsAlike7};
ghost use Rattle.pt_examples.specs.SealedAlike.{IsAlike8, IsAlike9, IsAlike10, IsAlike11};
ghost use Rattle.pt_examples.specs.SealedAlike.{IsAlike12, IsAlike13, IsAlike14, IsAlike15};
ghost use Rattle.pt_examples.specs.SealedAlike.{IsAlike16, IsAlike18, IsAlike19, IsAlike20};
ghost use Rattle.pt_examples.specs.TableLimits.{HasMaxLocks, HasMaxReads, HasMaxObjects};
ghost use Rattle.pt_examples.specs.TableLimits.{HasMaxAtBarrier};

/// Row 2: the reply comes before the grant.
pub fn row_2()
    ensures played { IsPlayed2 }
    ensures legal { IsLegal2 }
{}

/// Row 3: priority first, then arrival.
pub fn row_3()
    ensures { IsPlayed3 }
{}

/// Row 5: an owner dies, and its heir gives the mutex up for lost.
pub fn row_5()
    ensures played { IsPlayed5 }
    ensures legal { IsLegal5 }
{}

/// Row 6: the heir makes the mutex consistent.
pub fn row_6()
    ensures { IsPlayed6 }
{}

/// Row 7: the owner and then its heir die.
pub fn row_7()
    ensures { IsPlayed7 }
{}

/// Row 8: readers that come after a writer of their priority wait, and a holder reads on.
pub fn row_8()
    ensures { IsPlayed8 }
{}

/// Row 9: a writer before a reader of equal priority.
pub fn row_9()
    ensures { IsPlayed9 }
{}

/// Row 10: a wait comes back to a recursive mutex of its own client.
pub fn row_10()
    ensures { IsPlayed10 }
{}

/// Row 11: a deadline that has passed still releases the mutex.
pub fn row_11()
    ensures played { IsPlayed11 }
    ensures legal { IsLegal11 }
{}

/// Row 12: a writer's deadline passes and lets a reader in.
pub fn row_12()
    ensures { IsPlayed12 }
{}

/// Row 13: a wait whose deadline passed learns of an owner's death.
pub fn row_13()
    ensures { IsPlayed13 }
{}

/// Row 14: a dead client does not count at its barrier.
pub fn row_14()
    ensures { IsPlayed14 }
{}

/// Row 15: nanoseconds of a second or more.
pub fn row_15()
    ensures { IsPlayed15 }
{}

/// Row 16: a dead owner of a stalled mutex keeps it.
pub fn row_16()
    ensures { IsPlayed16 }
{}

/// Row 18: woken waits queue after those that came before the broadcast.
pub fn row_18()
    ensures { IsPlayed18 }
{}

/// Row 19: conditions: nobody waits, EPERM, another mutex, EBUSY.
pub fn row_19()
    ensures { IsPlayed19 }
{}

/// Row 20: a writer's own calls, and a lock that a dead client holds.
pub fn row_20()
    ensures { IsPlayed20 }
{}

/// Row 32: deadlines of one moment, and a clock that never goes back.
pub fn row_32()
    ensures { IsPlayed32 }
{}

/// Row 33: a wait that releases an inconsistent mutex loses it.
pub fn row_33()
    ensures { IsPlayed33 }
{}

/// Row 34: a signal taken by a client that dies is not passed on.
pub fn row_34()
    ensures { IsPlayed34 }
{}

/// Row 36: two clocks, each with deadlines of its own.
pub fn row_36()
    ensures { IsPlayed36 }
{}

/// Row 37: priorities to 99.
pub fn row_37()
    ensures { IsPlayed37 }
{}

/// Row 23 without seals: the numbers of a short history, and the refusal FULL.
pub fn row_23()
    ensures seven { IsFullAtSeven }
    ensures seven_and_a_yield { IsFullBeforeYield }
    ensures six { IsFullAtSix }
    ensures one { IsFullAtOne }
    ensures none { IsFullAtNone }
{}

/// Rows 23, 35 and 38: the room in short histories that are sealed if they need it.
pub fn row_38()
    ensures seven { IsSealedAtSeven }
    ensures twice { IsTwiceSealed }
    ensures seven_and_a_yield { IsSealedBeforeYield }
    ensures six { IsSealedAtSix }
    ensures four { IsSealedAtFour }
    ensures one { IsSealedAtOne }
    ensures none { IsSealedAtNone }
{}

/// Row 39: what a dead client held stays held, and the death is reported, after a seal.
pub fn row_39()
    ensures played { IsPlayed39 }
    ensures followed { IsYielded39 }
{}

/// Row 40: after a seal it is known when and why a wait was moved.
pub fn row_40()
    ensures played { IsPlayed40 }
    ensures answered { IsAnswered40 }
{}

/// Row 41: both clocks count on after a seal.
pub fn row_41()
    ensures { IsPlayed41 }
{}

/// Rows 2 to 20 with at most 30 entries after each seal, and with as few as they need. The entries
/// and answers are those of the rows without seals.
pub fn rows_after_seals()
    ensures row_2 { IsAlike2 }
    ensures row_3 { IsAlike3 }
    ensures row_5 { IsAlike5 }
    ensures row_6 { IsAlike6 }
    ensures row_7 { IsAlike7 }
    ensures row_8 { IsAlike8 }
    ensures row_9 { IsAlike9 }
    ensures row_10 { IsAlike10 }
    ensures row_11 { IsAlike11 }
    ensures row_12 { IsAlike12 }
    ensures row_13 { IsAlike13 }
    ensures row_14 { IsAlike14 }
    ensures row_15 { IsAlike15 }
    ensures row_16 { IsAlike16 }
    ensures row_18 { IsAlike18 }
    ensures row_19 { IsAlike19 }
    ensures row_20 { IsAlike20 }
{}

/// The verdict tables at their limits, from both sides.
pub fn limits_of_the_tables()
    ensures locks { HasMaxLocks }
    ensures reads { HasMaxReads }
    ensures objects { HasMaxObjects }
    ensures at_barrier { HasMaxAtBarrier }
{}
