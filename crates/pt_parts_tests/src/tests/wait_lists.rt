//! Plays the same calls on both lists of waiters, which must answer alike after each call.

ghost use Rattle.std.specs.Prelude.{ℕ, ◌≡◌, ◌+◌, ◌<◌, true, false, OnOk, []};
ghost use Rattle.std.specs.List.{AllByRecursion as Each};
ghost use Rattle.pt_parts_tests.specs.Playing.{IsInPlay, clients_in_play, queues_in_play};

use super::priority;
use pt_chains::Chains;
use pt_plain_list::PlainList;
use pt_types::{ClientId, ObjectId, Priority, Refusal};
use pt_waitq::{WaitList, Waiter};
use std::alloc::Global;

const CLIENTS: u64 = 40;

const QUEUES: u64 = 2;

/// A change that is made to a list.
#[derive(Clone, Copy)]
enum Change {
    Insert,
    Remove,
    RemoveFirst,
    AdmitAgain,
    MakeAgain,
}

/// A change, with the clients, the queue and the waiter that it is made to.
#[derive(Clone, Copy)]
struct Step {
    change: Change,
    client: u64,
    other: u64,
    object: u64,
    prio: Priority,
    writer: bool,
    ghost client_in_play: { client < clients_in_play },
    ghost other_in_play: { other < clients_in_play },
    ghost object_in_play: { object < queues_in_play },
}

impl Step {
    fn waiter(&self, place: u64) -> Waiter
        ensures client { result.client ≡ self.now.client }
        ensures moved { result.moved ≡ place }
    {
        Waiter {
            client: ClientId(self.client),
            place,
            prio: self.prio,
            writer: self.writer,
            moved: place,
        }
    }
}

/// A fixed sequence of numbers, from a linear congruential generator.
#[derive(Drop)]
struct Draws {
    last: u64,
}

impl Draws {
    fn below(&mut self, end: u64) -> u64
        requires { 0 < end }
        ensures { result < end }
    {
        self.last = self
            .last
            .wrapping_mul(6364136223846793005)
            .wrapping_add(1442695040888963407);
        (self.last >> 33) % end
    }

    // While the queues fill, 10 changes of 16 insert a waiter. Otherwise 1 of 7 does.
    fn change(&mut self, fills: bool) -> Change {
        match self.below(if fills { 16 } else { 7 }) {
            0..=2 => Change::Remove,
            3 => Change::RemoveFirst,
            4 => Change::AdmitAgain,
            5 => Change::MakeAgain,
            _ => Change::Insert,
        }
    }

    fn step(&mut self, fills: bool) -> Step {
        Step {
            change: self.change(fills),
            client: self.below(CLIENTS),
            other: self.below(CLIENTS),
            object: self.below(QUEUES),
            prio: priority(1 + 49 * self.below(3)),
            writer: self.below(2) == 0,
        }
    }
}

// Inserts a waiter, unless its client waits already.
fn insert<W: WaitList>(list: &mut W, object: ObjectId, waiter: Waiter)
    requires admitted { (W.seen list.old).admitted waiter.client ≡ true }
    requires is_queue { (W.seen list.old).is_queue object ≡ true }
    requires earlier { (q : ℕ) → Each (λ v. v.moved < waiter.moved) ((W.seen list.old).queue q) }
    ensures admitted { (c : ℕ) → (W.seen list.new).admitted c ≡ (W.seen list.old).admitted c }
    ensures is_queue { (q : ℕ) → (W.seen list.new).is_queue q ≡ (W.seen list.old).is_queue q }
    ensures earlier { (q : ℕ) → Each (λ v. v.moved < waiter.moved + 1) ((W.seen list.new).queue q) }
{
    if list.at(waiter.client).is_some() {
        return;
    }
    list.insert(object, waiter);
}

// Gives the room of two clients back and makes room for both again, unless one of them waits.
fn admit_again<W: WaitList>(list: &mut W, one: ClientId, other: ClientId) -> Result<(), Refusal>
    requires one { (W.seen list.old).admitted one ≡ true }
    requires other { (W.seen list.old).admitted other ≡ true }
    ensures admitted { OnOk result ((c : ℕ)
        → (W.seen list.new).admitted c ≡ (W.seen list.old).admitted c) }
    ensures is_queue { (q : ℕ) → (W.seen list.new).is_queue q ≡ (W.seen list.old).is_queue q }
    ensures queues { (q : ℕ) → (W.seen list.new).queue q ≡ (W.seen list.old).queue q }
{
    if one == other || list.at(one).is_some() || list.at(other).is_some() {
        return Ok(());
    }
    list.dismiss(one);
    list.dismiss(other);
    list.admit(one)?;
    list.admit(other)
}

// Discards a queue and makes it again, unless a call waits there.
fn make_again<W: WaitList>(list: &mut W, object: ObjectId) -> Result<(), Refusal>
    requires { (W.seen list.old).is_queue object ≡ true }
    ensures admitted { (c : ℕ) → (W.seen list.new).admitted c ≡ (W.seen list.old).admitted c }
    ensures is_queue { OnOk result ((q : ℕ)
        → (W.seen list.new).is_queue q ≡ (W.seen list.old).is_queue q) }
    ensures queues { (q : ℕ) → (W.seen list.new).queue q ≡ (W.seen list.old).queue q }
{
    if list.len(object) != 0 {
        return Ok(());
    }
    list.discard(object);
    list.make(object)
}

// Returns the client whose waiter is removed: the first of the queue, or the step's own client.
fn leaving<W: WaitList>(list: &W, step: &Step) -> ClientId {
    match step.change {
        Change::RemoveFirst => match list.first(ObjectId(step.object)) {
            Some(first) => first.client,
            None => ClientId(step.client),
        },
        _ => ClientId(step.client),
    }
}

// Makes a change at this place, and returns the waiter that was removed.
fn play<W: WaitList>(
    list: &mut W,
    step: &Step,
    place: u64,
) -> Result<Option<(ObjectId, Waiter)>, Refusal>
    requires { IsInPlay (W.seen list.old) place }
    ensures { OnOk result (IsInPlay (W.seen list.new) (place + 1)) }
{
    let client = ClientId(step.client);
    let object = ObjectId(step.object);
    match step.change {
        Change::Insert => {
            insert(list, object, step.waiter(place));
            Ok(None)
        }
        Change::Remove | Change::RemoveFirst => {
            let client = leaving(list, step);
            Ok(list.remove(client))
        }
        Change::AdmitAgain => {
            admit_again(list, client, ClientId(step.other))?;
            Ok(None)
        }
        Change::MakeAgain => {
            make_again(list, object)?;
            Ok(None)
        }
    }
}

// Returns what can be seen of a queue.
fn seen<W: WaitList>(
    list: &W,
    object: ObjectId,
    prio: Priority,
) -> (Option<Waiter>, Option<Waiter>, bool, usize) {
    (
        list.first(object),
        list.first_writer(object),
        list.blocks_reader(object, prio),
        list.len(object),
    )
}

fn queues_agree<P: WaitList, C: WaitList>(plain: &P, chains: &C, prio: Priority) -> bool {
    for number in 0..QUEUES {
        if seen(plain, ObjectId(number), prio) != seen(chains, ObjectId(number), prio) {
            return false;
        }
    }
    true
}

fn clients_agree<P: WaitList, C: WaitList>(plain: &P, chains: &C) -> bool {
    for number in 0..CLIENTS {
        if plain.at(ClientId(number)) != chains.at(ClientId(number)) {
            return false;
        }
    }
    true
}

// Plays a step on both lists, and compares their results, every queue and every client.
fn play_on_both<P: WaitList, C: WaitList>(
    plain: &mut P,
    chains: &mut C,
    step: &Step,
    place: u64,
) -> Result<(), &'static str>
    requires plain { IsInPlay (P.seen plain.old) place }
    requires chains { IsInPlay (C.seen chains.old) place }
    ensures plain { OnOk result (IsInPlay (P.seen plain.new) (place + 1)) }
    ensures chains { OnOk result (IsInPlay (C.seen chains.new) (place + 1)) }
{
    let of_plain = play(plain, step, place).ok().ok_or("memory")?;
    let of_chains = play(chains, step, place).ok().ok_or("memory")?;
    if of_plain != of_chains {
        return Err("who is taken out");
    }
    if !queues_agree(plain, chains, step.prio) || !clients_agree(plain, chains) {
        return Err("what is seen after a change");
    }
    Ok(())
}

fn admit_all<W: WaitList>(list: &mut W) -> Result<(), Refusal>
    requires { (c : ℕ) → (W.seen list.old).admitted c ≡ false }
    ensures admitted { OnOk result ((c : ℕ)
        → c < clients_in_play → (W.seen list.new).admitted c ≡ true) }
    ensures is_queue { (q : ℕ) → (W.seen list.new).is_queue q ≡ (W.seen list.old).is_queue q }
    ensures queues { (q : ℕ) → (W.seen list.new).queue q ≡ (W.seen list.old).queue q }
{
    for number in 0..CLIENTS {
        list.admit(ClientId(number))?;
    }
    Ok(())
}

fn make_all<W: WaitList>(list: &mut W) -> Result<(), Refusal>
    requires { (q : ℕ) → (W.seen list.old).is_queue q ≡ false }
    ensures is_queue { OnOk result ((q : ℕ) → q < queues_in_play
        → (W.seen list.new).is_queue q ≡ true) }
    ensures admitted { (c : ℕ) → (W.seen list.new).admitted c ≡ (W.seen list.old).admitted c }
    ensures queues { (q : ℕ) → (W.seen list.new).queue q ≡ (W.seen list.old).queue q }
{
    list.make(ObjectId(0))?;
    list.make(ObjectId(1))
}

// Brings an empty list into play: admits the clients and makes the queues.
fn begin<W: WaitList>(list: &mut W) -> Result<(), &'static str>
    requires clients { (c : ℕ) → (W.seen list.old).admitted c ≡ false }
    requires unmade { (q : ℕ) → (W.seen list.old).is_queue q ≡ false }
    requires empty { (q : ℕ) → (W.seen list.old).queue q ≡ [] }
    ensures { OnOk result (IsInPlay (W.seen list.new) 0) }
{
    admit_all(list).ok().ok_or("clients")?;
    make_all(list).ok().ok_or("queues")
}

/// Five clients enter one chain. Then five leave: the one in the middle, the head, the tail, the
/// head again, and the only one left.
const ONE_CHAIN: [(Change, u64); 10] = [
    (Change::Insert, 0),
    (Change::Insert, 1),
    (Change::Insert, 2),
    (Change::Insert, 3),
    (Change::Insert, 4),
    (Change::Remove, 2),
    (Change::Remove, 0),
    (Change::Remove, 4),
    (Change::Remove, 1),
    (Change::Remove, 3),
];

fn play_one_chain<P: WaitList, C: WaitList>(
    plain: &mut P,
    chains: &mut C,
) -> Result<(), &'static str>
    requires plain { IsInPlay (P.seen plain.old) 0 }
    requires chains { IsInPlay (C.seen chains.old) 0 }
    ensures plain { OnOk result (IsInPlay (P.seen plain.new) 10) }
    ensures chains { OnOk result (IsInPlay (C.seen chains.new) 10) }
{
    let prio = priority(50);
    for place in 0..10 {
        let (change, client) = ONE_CHAIN[place];
        let step = Step {
            change,
            client: client % CLIENTS,
            other: 0,
            object: 0,
            prio,
            writer: true,
        };
        play_on_both(plain, chains, &step, place as u64)?;
    }
    Ok(())
}

// Plays 2,000 drawn changes. The queues fill and empty in turn, 250 changes each.
fn play_2000<P: WaitList, C: WaitList>(plain: &mut P, chains: &mut C) -> Result<(), &'static str>
    requires plain { IsInPlay (P.seen plain.old) 10 }
    requires chains { IsInPlay (C.seen chains.old) 10 }
{
    let mut draws = Draws { last: 1 };
    for place in 10..2010 {
        let fills = place / 250 % 2 == 0;
        let step = draws.step(fills);
        play_on_both(plain, chains, &step, place)?;
    }
    Ok(())
}

fn play_all<P: WaitList, C: WaitList>(plain: &mut P, chains: &mut C) -> Result<(), &'static str>
    requires clients { (c : ℕ) → (P.seen plain.old).admitted c ≡ false }
    requires unmade { (q : ℕ) → (P.seen plain.old).is_queue q ≡ false }
    requires empty { (q : ℕ) → (P.seen plain.old).queue q ≡ [] }
    requires no_clients { (c : ℕ) → (C.seen chains.old).admitted c ≡ false }
    requires no_queues { (q : ℕ) → (C.seen chains.old).is_queue q ≡ false }
    requires no_waiters { (q : ℕ) → (C.seen chains.old).queue q ≡ [] }
{
    begin(plain)?;
    begin(chains)?;
    play_one_chain(plain, chains)?;
    play_2000(plain, chains)
}

// Returns true if both lists, empty at first, answer all calls alike.
fn answer_alike(alloc: Global) -> bool {
    let mut plain = PlainList::new(alloc);
    let mut chains = Chains::new(alloc);
    play_all(&mut plain, &mut chains).is_ok()
}

#[test]
fn both_lists_answer_2000_calls_alike(rt: HostRuntime) {
    assert!(rt; answer_alike(rt.alloc()));
}
