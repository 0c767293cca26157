ghost use Rattle.std.specs.Prelude.{◌≡◌, ◌≤◌, ◌<◌, ◌-◌, ◌^◌, length, option_map};
ghost use Rattle.pt_types.specs.Names.{same_name};
ghost use Rattle.pt_model.specs.Histories.{history};
ghost use Rattle.pt_model.specs.Objects.{object_named, named_by};
ghost use Rattle.pt_model.specs.Objects.{find_object, names_object, kind_of};
ghost use Rattle.pt_model.specs.Objects.{kind_by, object_count};
ghost use Rattle.pt_model.specs.Objects.{object_count_by, mutex_kind};
ghost use Rattle.pt_model.specs.Objects.{is_robust};
ghost use Rattle.pt_model.specs.Objects.{barrier_count, number_if_class};
ghost use Rattle.pt_readings.specs.ObjectViews.{plain_object_view};

use pt_model::Entry;
use pt_types::operations::{ObjectClass, Operation, class_of, is_same, operation_of};
use pt_types::{MutexKind, Name, ObjectId, ObjectKind, Outcome};

/// An object: its number, which is the place of the call that made it, and its kind.
#[derive(Clone, Copy)]
pub struct Object {
    pub number: u64,
    pub kind: ObjectKind,
}

/// Returns true if two names have the same bytes.
pub fn is_name(one: &Name, other: &Name) -> bool
    ensures { result ≡ same_name one.now other.now }
{
    one.as_bytes() == other.as_bytes()
}

/// Returns the object that bears a name after an entry at a place.
pub fn named_by(entry: &Entry, at: u64, before: Option<Object>, n: &Name) -> Option<Object>
    ensures { option_map plain_object_view result
        ≡ named_by entry.now at (option_map plain_object_view before) n.now }
{
    let Entry::Call(_, call, Some(Outcome::Done)) = entry else {
        return before;
    };
    match operation_of(call) {
        Operation::Inits(m, kind) if is_name(m, n) => Some(Object { number: at, kind }),
        Operation::Ends(m, _) if is_name(m, n) => None,
        _ => before,
    }
}

/// Returns the object that bears a name.
#[tactic(auto, using(crate::proofs::Prefix::history_more, crate::proofs::Prefix::place_below))]
pub fn object_named(entries: &[Entry], n: &Name) -> Option<Object>
    ensures { option_map plain_object_view result ≡ object_named (history entries.now) n.now }
{
    let mut found = None;
    for (i, entry) in entries.iter().enumerate() {
        found = named_by(entry, i as u64, found, n);
    }
    found
}

/// Returns the number of an object, if it is of this class.
pub fn number_of(object: Option<Object>, class: ObjectClass) -> Option<ObjectId>
    ensures { result ≡ number_if_class (option_map plain_object_view object) class }
{
    match object {
        Some(object) if is_same(class_of(object.kind), class) => Some(ObjectId(object.number)),
        _ => None,
    }
}

/// Returns the object of this class that bears the name, if one does.
pub fn find(entries: &[Entry], n: &Name, class: ObjectClass) -> Option<ObjectId>
    ensures { result ≡ find_object (history entries.now) n.now class }
{
    number_of(object_named(entries, n), class)
}

/// Returns true if a name means the object with this number and class.
pub fn means(entries: &[Entry], n: &Name, class: ObjectClass, o: ObjectId) -> bool
    ensures { result ≡ names_object (history entries.now) n.now class o }
{
    match find(entries, n, class) {
        Some(p) => p == o,
        None => false,
    }
}

/// Returns an object's kind after an entry; `None` once the object was destroyed.
#[tactic(auto, using(crate::proofs::Prefix::place_all))]
pub fn kind_by(
    entries: &[Entry],
    entry: &Entry,
    before: Option<ObjectKind>,
    o: ObjectId,
) -> Option<ObjectKind>
    ensures { result ≡ kind_by (history entries.now) entry.now before o }
{
    let Entry::Call(_, call, Some(Outcome::Done)) = entry else {
        return before;
    };
    match operation_of(call) {
        Operation::Inits(_, kind) if o == ObjectId(entries.len() as u64) => Some(kind),
        Operation::Ends(n, class) if means(entries, n, class, o) => None,
        _ => before,
    }
}

/// Returns what the object with this number was made as, while it exists.
#[tactic(auto, using(crate::proofs::Prefix::history_more))]
pub fn kind_of(entries: &[Entry], o: ObjectId) -> Option<ObjectKind>
    ensures { result ≡ kind_of (history entries.now) o }
{
    let mut found = None;
    for (i, entry) in entries.iter().enumerate() {
        found = kind_by(&entries[..i], entry, found, o);
    }
    found
}

/// Returns the number of objects after an entry.
pub fn object_count_by(entry: &Entry, before: u64) -> u64
    requires { before < 2 ^ 64 - 1 }
    ensures { result ≡ object_count_by entry.now before }
{
    let Entry::Call(_, call, Some(Outcome::Done)) = entry else {
        return before;
    };
    match operation_of(call) {
        Operation::Inits(..) => before + 1,
        Operation::Ends(..) => before.saturating_sub(1),
        _ => before,
    }
}

/// Returns the number of objects that exist.
#[tactic(auto, using(crate::proofs::Prefix::history_more))]
pub fn objects(entries: &[Entry]) -> u64
    ensures value { result ≡ object_count (history entries.now) }
    ensures within { result ≤ length entries.now }
{
    let mut count = 0;
    for entry in entries {
        count = object_count_by(entry, count);
    }
    count
}

/// Returns the kind of a mutex, or NORMAL for anything else.  [XSH pthread_mutexattr_settype]
pub fn mutex_kind(kind: Option<ObjectKind>) -> MutexKind
    ensures { result ≡ mutex_kind kind }
{
    match kind {
        Some(ObjectKind::Mutex(kind, _)) => kind,
        _ => MutexKind::Normal,
    }
}

/// Returns true if a kind of object is a robust mutex.  [XSH pthread_mutexattr_setrobust]
pub fn is_robust(kind: Option<ObjectKind>) -> bool
    ensures { result ≡ is_robust kind }
{
    match kind {
        Some(ObjectKind::Mutex(_, robust)) => robust,
        _ => false,
    }
}

/// Returns the count of a barrier, or 0 for anything else.  [XSH pthread_barrier_init]
pub fn barrier_count(kind: Option<ObjectKind>) -> u64
    ensures { result ≡ barrier_count kind }
{
    match kind {
        Some(ObjectKind::Barrier(count)) => count,
        _ => 0,
    }
}
