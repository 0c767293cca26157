//! The rows of objects, found by name.

ghost use Rattle.std.specs.Prelude.{◌≡◌};
ghost use Rattle.std.specs.Option.{option_copied};
ghost use Rattle.pt_types.specs.Names.{same_name};
ghost use Rattle.pt_table.specs.NameSlots.{IsNamed, IsRowIn, IsRowNamed};

use crate::names::Names;
use crate::objects::ObjectRow;
use pt_hints::are_same;
use pt_types::Name;
use slab::Slab;
use std::alloc::Allocator;

// Returns whether two names are the same. It is called if `are_same` returned false, which does not
// prove that they differ.
#[cold]
#[inline(never)]
fn are_equal(one: &Name, other: &Name) -> bool
    ensures { result ≡ same_name one.now other.now }
{
    *one == *other
}

// Returns whether two names are the same.
#[inline(always)]
fn is_same(one: &Name, other: &Name) -> bool
    ensures { result ≡ same_name one.now other.now }
{
    are_same(one.as_bytes(), other.as_bytes()) || are_equal(one, other)
}

// Returns the row in a slot if it has this name.
#[inline(always)]
fn row_if_named<'a, T, A: Allocator + Copy>(
    rows: &'a Slab<ObjectRow<T>, A>,
    slot: usize,
    name: &Name,
) -> Option<&'a ObjectRow<T>>
    ensures { IsRowIn rows.now.slots slot name.now (option_copied result) }
{
    match rows.get(slot) {
        Some(row) if is_same(&row.name, name) => Some(row),
        _ => None,
    }
}

// Returns the row of a name, found without the hint.
#[cold]
#[inline(never)]
fn row_in_map<'a, T, A: Allocator + Copy>(
    rows: &'a Slab<ObjectRow<T>, A>,
    names: &Names<A>,
    name: &Name,
) -> Option<&'a ObjectRow<T>>
    requires { IsNamed rows.now.slots names.now.slots.entries }
    ensures { IsRowNamed rows.now.slots name.now (option_copied result) }
{
    row_if_named(rows, names.get(name)?, name)
}

// Returns the row of a name. The slot that the name's hint gives is tried first.
#[inline(always)]
pub(crate) fn row_named<'a, T, A: Allocator + Copy>(
    rows: &'a Slab<ObjectRow<T>, A>,
    names: &Names<A>,
    name: &Name,
) -> Option<&'a ObjectRow<T>>
    requires { IsNamed rows.now.slots names.now.slots.entries }
    ensures { IsRowNamed rows.now.slots name.now (option_copied result) }
{
    match row_if_named(rows, names.hint(name), name) {
        Some(row) => Some(row),
        None => row_in_map(rows, names, name),
    }
}
