ghost use Rattle.std.specs.Prelude.{◌≡◌};
ghost use Rattle.pt_engine.specs.Engines.{mark_of};

use pt_model::Event;
use pt_types::ClientId;

/// What is noted of an accepted event.
#[derive(Drop)]
pub enum Mark {
    Client,
    Call(ClientId),
    Nothing,
}

/// Returns what is noted of this event once it is accepted.
pub fn mark_of(event: &Event) -> Mark
    ensures { result ≡ mark_of event.now }
{
    match event {
        Event::Join(_) => Mark::Client,
        Event::Call(client, _) => Mark::Call(*client),
        Event::Death(_) | Event::Moment(_, _) => Mark::Nothing,
    }
}
