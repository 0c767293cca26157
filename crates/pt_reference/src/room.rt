ghost use Rattle.std.specs.Prelude.{◌≡◌, ◌≤◌, ◌*◌, length};
ghost use Rattle.pt_model.specs.Histories.{history, ◌▷◌};
ghost use Rattle.pt_model.specs.Room.{need, entry_for};
ghost use Rattle.pt_model.specs.Room.{refusal_of_unknown};
ghost use Rattle.pt_model.specs.Room.{refusal, exceeds_limit};
ghost use Rattle.pt_model.specs.Room.{refusal_within};

use crate::after;
use crate::verdicts::verdict;
use pt_model::{Entry, Event};
use pt_readings::answers::open_place;
use pt_readings::clients::{is_alive, living};
use pt_types::tables::reply;
use pt_types::{ClientId, MAX_CLIENTS, Refusal};

/// Returns the need: the entries reserved for the Death of each living client, for open calls and
/// for Yields.
pub fn need(entries: &[Entry]) -> u64
    ensures value { result ≡ need (history entries.now) }
    ensures within { result ≤ 5 * length entries.now }
{
    if entries.is_empty() {
        return 0;
    }
    let last = entries.len() - 1;
    after::need(&entries[..last], &entries[last])
}

/// Returns the outer entry that an accepted event becomes.
#[tactic(auto, using(crate::proofs::Ends::place_of_all))]
pub fn entry_for(entries: &[Entry], event: &Event) -> Entry
    ensures { result ≡ entry_for (history entries.now) event.now }
{
    match event {
        Event::Join(priority) => Entry::Join(ClientId(entries.len() as u64), *priority),
        Event::Call(c, call) => {
            let answer = reply(verdict(entries, *c, call));
            Entry::Call(*c, call.copied(), answer)
        }
        Event::Death(c) => Entry::Death(*c),
        Event::Moment(clock, moment) => Entry::Moment(*clock, *moment),
    }
}

/// Returns the refusal for a client that does not live: DEAD if a place has its number, else
/// NOHELLO.
#[tactic(auto, using(crate::proofs::Ends::place_of_all))]
pub fn refusal_of_unknown(entries: &[Entry], c: ClientId) -> Refusal
    ensures { result ≡ refusal_of_unknown (history entries.now) c }
{
    if c.0 < entries.len() as u64 {
        Refusal::Dead
    } else {
        Refusal::Nohello
    }
}

/// Returns why an event is refused because of its sender, or because 1,024 clients live; `None` if
/// it is not refused for these reasons.
pub fn refusal(entries: &[Entry], event: &Event) -> Option<Refusal>
    ensures { result ≡ refusal (history entries.now) event.now }
{
    match event {
        Event::Join(_) if living(entries) >= MAX_CLIENTS as u64 => Some(Refusal::Limit),
        Event::Call(c, _) if !is_alive(entries, *c) => Some(refusal_of_unknown(entries, *c)),
        Event::Call(c, _) if open_place(entries, *c).is_some() => Some(Refusal::Blocked),
        Event::Death(c) if !is_alive(entries, *c) => Some(refusal_of_unknown(entries, *c)),
        _ => None,
    }
}

/// Returns true if a history with one more entry, and all entries reserved after it, is longer than
/// the limit.
pub fn is_over(entries: &[Entry], entry: &Entry, limit: u64) -> bool
    ensures { result ≡ exceeds_limit limit (history entries.now ▷ entry.now) }
{
    limit < entries.len() as u64 + 1 + after::need(entries, entry)
}

/// Returns the first refusal that applies to an event, or `None`. The history may have at most
/// `limit` entries.
pub fn refusal_within(entries: &[Entry], limit: u64, event: &Event) -> Option<Refusal>
    ensures { result ≡ refusal_within limit (history entries.now) event.now }
{
    let refused = refusal(entries, event);
    if refused.is_some() {
        return refused;
    }
    if is_over(entries, &entry_for(entries, event), limit) {
        Some(Refusal::Full)
    } else {
        None
    }
}
