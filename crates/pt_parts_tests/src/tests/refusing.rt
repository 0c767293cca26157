use pt_failing_alloc::{Refusing, refuse_each};
use std::alloc::{AllocError, Global};
use std::test::Fail;

fn is_refused(heap: &Refusing<Global>, len: usize) -> bool {
    let block: Result<Vec<u8, &Refusing<Global>>, AllocError> = Vec::with_capacity(heap, len);
    block.is_err()
}

// Asks for three blocks, each once more if it was refused. Returns whether one was refused.
fn three_blocks(heap: &Refusing<Global>) -> Result<bool, AllocError> {
    let mut met = false;
    for len in 1..4 {
        if is_refused(heap, len) {
            met = true;
            if is_refused(heap, len) {
                return Err(AllocError);
            }
        }
    }
    Ok(met)
}

#[test]
fn refuses_one_growth_alone(rt: HostRuntime) -> Result<(), Fail> {
    let heap = Refusing::new(rt.alloc(), 2);
    let mut numbers = Vec::with_capacity(&heap, 1)?;
    assert!(rt; !heap.has_refused());
    assert!(rt; numbers.push(1u8).is_ok());
    assert!(rt; numbers.push(2).is_err());
    assert!(rt; heap.has_refused());
    assert!(rt; numbers.push(2).is_ok());
    assert!(rt; numbers.as_slice() == [1, 2].as_slice());
    Ok(())
}

#[test]
fn refuses_none(rt: HostRuntime) -> Result<(), Fail> {
    let heap = Refusing::new(rt.alloc(), 0);
    assert!(rt; !three_blocks(&heap)?);
    assert!(rt; !heap.has_refused());
    Ok(())
}

#[test]
fn refuses_each_in_turn(rt: HostRuntime) -> Result<(), Fail> {
    for (most, refused) in [(100, Some(3)), (4, Some(3)), (3, None)] {
        assert!(rt;
            refuse_each(rt.alloc(), most, three_blocks)? == refused,
            "{most}"
        );
    }
    Ok(())
}

// Asks for three blocks, and reports that memory was refused even if it was not.
fn three_blocks_met(heap: &Refusing<Global>) -> Result<bool, AllocError> {
    three_blocks(heap)?;
    Ok(true)
}

#[test]
fn tells_want_of_memory_that_there_was_not(rt: HostRuntime) -> Result<(), Fail> {
    assert!(rt; refuse_each(rt.alloc(), 100, three_blocks_met)?.is_none());
    Ok(())
}
