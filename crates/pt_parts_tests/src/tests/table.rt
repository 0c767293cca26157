ghost use Rattle.std.specs.Prelude.{◌≡◌, ◌∷◌, ℕ, List, Option, Some, false, nat_eq};
ghost use Rattle.std.specs.Bool.{OnTrue};
ghost use Rattle.pt_table.specs.ObjectRows.{has_object, with_object};
ghost use Rattle.pt_table.specs.Linked.{HasChain, IsRowChain};
ghost use Rattle.pt_parts_tests.specs.Linking.{AreFree, IsFree};

use pt_failing_alloc::{Refusing, refuse_each};
use pt_table::{Clients, Objects, TableFault};
use pt_types::Name;
use std::alloc::Global;
use std::test::Fail;

// Returns the name made of the four digits of a number below 10,000.
fn name_of(number: u64) -> Option<Name> {
    let mut digits = [b'0'; 4];
    for (place, unit) in [(0, 1000), (1, 100), (2, 10), (3, 1)] {
        digits[place] = b'0' + (number / unit % 10) as u8;
    }
    Name::new(&digits)
}

fn fill_clients(clients: &mut Clients<u64>, count: u64) -> bool {
    let mut filled = true;
    for number in 0..count {
        filled = filled && clients.add(number, number).is_ok();
    }
    filled
}

fn fill_objects(objects: &mut Objects<u64>, count: u64) -> bool
    ensures { OnTrue result (AreFree objects.new count) }
{
    for number in 0..count {
        let Some(name) = name_of(number) else {
            return false;
        };
        let Ok(()) = objects.add(number, name, number) else {
            return false;
        };
    }
    true
}

// Adds a client, once more if memory was refused. Returns whether memory was refused.
fn add_client(
    clients: &mut Clients<u64, &Refusing<Global>>,
    number: u64,
) -> Result<bool, &'static str> {
    let before = clients.len();
    let Err((value, fault)) = clients.add(number, number) else {
        return Ok(false);
    };
    if value != number || fault != TableFault::Memory || clients.len() != before {
        return Err("a refused row is handed back, and nothing changes");
    }
    clients.add(number, number).ok().ok_or("the second time")?;
    Ok(true)
}

fn add_20_clients(clients: &mut Clients<u64, &Refusing<Global>>) -> Result<bool, &'static str> {
    let mut met = false;
    for number in 0..20 {
        met = add_client(clients, number)? || met;
    }
    Ok(met)
}

fn add_clients(heap: &Refusing<Global>) -> Result<bool, &'static str> {
    let mut clients = Clients::new(heap);
    add_20_clients(&mut clients)
}

fn add_object(
    objects: &mut Objects<u64, &Refusing<Global>>,
    number: u64,
) -> Result<bool, &'static str> {
    let before = objects.len();
    let name = name_of(number).ok_or("name")?;
    let Err((value, fault)) = objects.add(number, name.copied(), number) else {
        return Ok(false);
    };
    if value != number || fault != TableFault::Memory || objects.len() != before {
        return Err("a refused row is handed back, and nothing changes");
    }
    if objects.find(&name).is_some() {
        return Err("a refused name is not found");
    }
    objects
        .add(number, name, number)
        .ok()
        .ok_or("the second time")?;
    Ok(true)
}

fn add_20_objects(objects: &mut Objects<u64, &Refusing<Global>>) -> Result<bool, &'static str> {
    let mut met = false;
    for number in 0..20 {
        met = add_object(objects, number)? || met;
    }
    Ok(met)
}

fn add_objects(heap: &Refusing<Global>) -> Result<bool, &'static str> {
    let mut objects = Objects::new(heap);
    add_20_objects(&mut objects)
}

// Writes to the row of a number, if it exists.
fn write(rows: &mut Objects<u32>, number: u64, value: u32)
    ensures { OnTrue (has_object rows.old number) (rows.new ≡ with_object rows.old number value) }
{
    if let Some(old) = rows.at_mut(number) {
        *old = value;
    }
}

// Adds three clients, the last with a number that is taken. Returns true if only that one is
// refused.
fn is_taken_seen(clients: &mut Clients<u32>) -> bool {
    for (number, value, refused) in [
        (3, 30, None),
        (5, 50, None),
        (3, 31, Some((31, TableFault::Taken))),
    ] {
        if clients.add(number, value).err() != refused {
            return false;
        }
    }
    clients.len() == 2 && matches!(clients.nth(1), Some((5, _)))
}

// Writes to a client's value, and removes another client. Returns true if the table shows both.
fn is_removed(clients: &mut Clients<u32>) -> bool {
    if let Some(value) = clients.at_mut(5) {
        *value = 51;
    }
    let removed = [clients.remove(3), clients.remove(3)];
    removed == [Some(30), None]
        && clients.at(5).copied() == Some(51)
        && clients.at(3).is_none()
        && matches!(clients.nth(0), Some((_, 51)))
}

#[test]
fn clients_by_number(rt: HostRuntime) {
    let mut clients = Clients::new(rt.alloc());
    assert!(rt; is_taken_seen(&mut clients));
    assert!(rt; is_removed(&mut clients));
}

// Adds two objects, and two more whose number or name is taken. Returns true if only these are
// refused.
fn are_taken_seen(objects: &mut Objects<u32>, m: &Name, n: &Name, o: &Name) -> bool {
    for (number, name, value, refused) in [
        (3, m, 30, None),
        (4, n, 40, None),
        (3, o, 31, Some((31, TableFault::Taken))),
        (5, m, 50, Some((50, TableFault::Taken))),
    ] {
        if objects.add(number, name.copied(), value).err() != refused {
            return false;
        }
    }
    objects.find(m) == Some(3) && matches!(objects.nth(1), Some((4, _)))
}

// Removes the first object, and adds another one with its name. Returns true if the table shows
// both.
fn is_name_free_again(objects: &mut Objects<u32>, m: &Name, n: &Name) -> bool {
    write(objects, 4, 41);
    write(objects, 5, 51);
    let removed = objects.remove(3);
    let found = objects.find(m);
    let added = objects.add(6, m.copied(), 60);
    removed == Some(30)
        && found.is_none()
        && added.is_ok()
        && objects.at(4).copied() == Some(41)
        && objects.find(m) == Some(6)
        && objects.find(n) == Some(4)
        && objects.len() == 2
}

// Returns true if objects are found by their numbers and their names.
fn are_found(alloc: Global) -> bool {
    let (Some(m), Some(n), Some(o)) = (Name::new(b"m"), Name::new(b"n"), Name::new(b"o")) else {
        return false;
    };
    let mut objects = Objects::new(alloc);
    are_taken_seen(&mut objects, &m, &n, &o) && is_name_free_again(&mut objects, &m, &n)
}

#[test]
fn objects_by_number_and_name(rt: HostRuntime) {
    assert!(rt; are_found(rt.alloc()));
}

// Returns true if a chain has these numbers and no more.
fn has_numbers(objects: &Objects<u64>, head: Option<u64>, numbers: &[u64]) -> bool {
    let mut rest = head;
    for number in numbers {
        if rest != Some(*number) {
            return false;
        }
        rest = objects.next(*number);
    }
    rest.is_none()
}

// Puts a row that is in no chain at the front of the chain that begins with `head`.
fn link_free(objects: &mut Objects<u64>, head: Option<u64>, number: u64) -> u64
    requires chain { HasChain objects.old head }
    requires free { IsFree objects.old number }
    ensures chain { (numbers : List ℕ)
        → IsRowChain objects.old head numbers
        → IsRowChain objects.new (Some result) (number ∷ numbers) }
    ensures free { (n : ℕ)
        → nat_eq number n ≡ false
        → IsFree objects.old n
        → IsFree objects.new n }
{
    objects.link(head, number)
}

// Returns true if a chain has the rows that were linked, then lacks the one that was unlinked, and
// is then sorted.
fn is_chain_sorted(objects: &mut Objects<u64>) -> bool
    requires { AreFree objects.old 6 }
{
    let low = link_free(objects, None, 4);
    let other = link_free(objects, Some(low), 0);
    let first = link_free(objects, None, 5);
    let second = link_free(objects, Some(first), 2);
    let third = link_free(objects, Some(second), 1);
    let head = link_free(objects, Some(third), 3);
    let is_linked = has_numbers(objects, Some(head), &[3, 1, 2, 5]);
    let left = objects.unlink(head, 2);
    let is_unlinked = has_numbers(objects, left, &[3, 1, 5]);
    let sorted = objects.sort(left);
    let is_kept = has_numbers(objects, Some(other), &[0, 4]);
    is_linked && is_unlinked && is_kept && has_numbers(objects, sorted, &[1, 3, 5])
}

#[test]
fn chains_of_objects(rt: HostRuntime) {
    let mut objects = Objects::new(rt.alloc());
    assert!(rt; fill_objects(&mut objects, 6) && is_chain_sorted(&mut objects));
}

// Returns true if a table of 1,023 clients takes one more, and no other until one is removed.
fn is_full_at_1024(clients: &mut Clients<u64>) -> bool {
    for (number, value, refused) in [
        (1023, 7, None),
        (1024, 8, Some((8, TableFault::AtLimit))),
        (1023, 9, Some((9, TableFault::Taken))),
    ] {
        if clients.add(number, value).err() != refused {
            return false;
        }
    }
    let len = clients.len();
    let removed = clients.remove(0);
    len == 1024 && removed == Some(0) && clients.add(1024, 8).is_ok()
}

#[test]
fn at_most_1024_clients(rt: HostRuntime) {
    let mut clients = Clients::new(rt.alloc());
    assert!(rt; fill_clients(&mut clients, 1023) && is_full_at_1024(&mut clients));
}

// Returns true if a table of 4,095 objects takes one more, and no other until one is removed.
fn is_full_at_4096(objects: &mut Objects<u64>, last: &Name, more: &Name) -> bool {
    for (number, name, value, refused) in [
        (4095, last, 7, None),
        (4096, more, 8, Some((8, TableFault::AtLimit))),
        (4096, last, 9, Some((9, TableFault::Taken))),
        (4095, more, 9, Some((9, TableFault::Taken))),
    ] {
        if objects.add(number, name.copied(), value).err() != refused {
            return false;
        }
    }
    let len = objects.len();
    let removed = objects.remove(0);
    len == 4096 && removed == Some(0) && objects.add(4096, more.copied(), 8).is_ok()
}

// Returns true if a table takes 4,096 objects and no more.
fn are_objects_limited(alloc: Global) -> bool {
    let (Some(last), Some(more)) = (name_of(4095), name_of(4096)) else {
        return false;
    };
    let mut objects = Objects::new(alloc);
    fill_objects(&mut objects, 4095) && is_full_at_4096(&mut objects, &last, &more)
}

#[test]
fn at_most_4096_objects(rt: HostRuntime) {
    assert!(rt; are_objects_limited(rt.alloc()));
}

#[test]
fn each_growth_is_refused_in_turn(rt: HostRuntime) -> Result<(), Fail> {
    assert!(rt; refuse_each(rt.alloc(), 100, add_clients)? > Some(2));
    assert!(rt; refuse_each(rt.alloc(), 100, add_objects)? > Some(4));
    Ok(())
}

// Returns true if new tables ask for no memory of a heap that refuses the first growth.
fn take_no_memory(heap: &Refusing<Global>) -> bool {
    let clients: Clients<u64, &Refusing<Global>> = Clients::new(heap);
    let objects: Objects<u64, &Refusing<Global>> = Objects::new(heap);
    clients.len() == 0 && objects.len() == 0 && !heap.has_refused()
}

#[test]
fn new_tables_take_no_memory(rt: HostRuntime) {
    let heap = Refusing::new(rt.alloc(), 1);
    let is_empty = take_no_memory(&heap);
    assert!(rt; is_empty);
}

#[test]
fn faults_print_their_texts(rt: HostRuntime) -> Result<(), Fail> {
    let printed = format!(in rt.alloc();
        "{}, {}, {}",
        TableFault::Taken,
        TableFault::AtLimit,
        TableFault::Memory
    )?;
    assert!(rt; printed.as_str() == "taken, at the limit, out of memory");
    Ok(())
}
