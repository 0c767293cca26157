use pt_failing_alloc::{Refusing, refuse_each};
use pt_hints::Hints;
use pt_types::key_of;
use std::alloc::{AllocError, Global};
use std::test::Fail;

// Returns the row at an index: its key is the index, and its place is ten times the index. Every
// third row is gone.
fn row_at(index: usize) -> Option<(u64, usize)> {
    if index % 3 == 2 {
        return None;
    }
    Some((index as u64, index.wrapping_mul(10)))
}

#[test]
fn a_hint_is_of_the_low_bits(rt: HostRuntime) -> Result<(), Fail> {
    let mut hints = Hints::new(rt.alloc());
    hints.set(7, 70);
    assert!(rt; hints.get(7).is_none());
    hints.grow_for(0, row_at)?;
    hints.set(7, 70);
    assert!(rt; hints.get(7) == Some(70) && hints.get(256 + 7) == Some(70));
    hints.set(7, usize::MAX);
    assert!(rt; hints.get(7) == Some(70));
    Ok(())
}

#[test]
fn rows_are_noted_after_a_growth(rt: HostRuntime) -> Result<(), Fail> {
    let mut hints = Hints::new(rt.alloc());
    hints.grow_for(0, row_at)?;
    hints.grow_for(127, row_at)?;
    assert!(rt; hints.get(7) == Some(0));
    hints.grow_for(128, row_at)?;
    assert!(rt; hints.get(7) == Some(70) && hints.get(8) == Some(0));
    assert!(rt; hints.get(127) == Some(1270) && hints.get(256 + 7) == Some(0));
    Ok(())
}

#[test]
fn at_most_16384_hints(rt: HostRuntime) -> Result<(), Fail> {
    let mut hints = Hints::new(rt.alloc());
    for _ in 0..8 {
        hints.grow_for(17000, row_at)?;
    }
    assert!(rt; hints.get(16385) == Some(10) && hints.get(12291) == Some(122_910));
    Ok(())
}

// Grows hints three times, each once more if memory was refused. Returns whether memory was
// refused.
fn grow_thrice(heap: &Refusing<Global>) -> Result<bool, AllocError> {
    let mut hints = Hints::new(heap);
    let mut met = false;
    for rows in [0, 300, 600] {
        if hints.grow_for(rows, row_at).is_err() {
            met = true;
            hints.grow_for(rows, row_at)?;
        }
    }
    Ok(met)
}

#[test]
fn hints_without_memory(rt: HostRuntime) -> Result<(), Fail> {
    assert!(rt; refuse_each(rt.alloc(), 100, grow_thrice)? == Some(3));
    Ok(())
}

#[test]
fn names_that_end_in_consecutive_numbers(rt: HostRuntime) {
    for (name, next) in [
        (b"mutex8".as_slice(), b"mutex9".as_slice()),
        (b"mutex199", b"mutex200"),
        (b"7", b"8"),
    ] {
        assert!(rt; key_of(name).wrapping_add(1) == key_of(next));
    }
}
