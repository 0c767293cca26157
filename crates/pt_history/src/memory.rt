//! The memory of lists that are no longer needed, and its use for other lists.

ghost use Rattle.std.specs.Prelude.{◌≡◌, ◌≤◌, vec_len, vec_capacity};

use std::alloc::Allocator;

/// Moves a list into the memory of one that is no longer needed, if that one has as much. So no
/// memory is freed that would soon be allocated again.
pub fn take_memory<T, A: Allocator + Copy>(list: &mut Vec<T, A>, mut other: Vec<T, A>)
where
    T: Drop,
    ensures items { list.new.items ≡ list.old.items }
    ensures len { vec_len list.new ≡ vec_len list.old }
    ensures capacity { vec_capacity list.old ≤ vec_capacity list.new }
{
    if other.capacity() < list.capacity() {
        return;
    }
    other.clear();
    if other.append(list).is_ok() {
        *list = other;
    }
}
