//! Values that were discarded, for proofs only.

ghost use Rattle.std.specs.Prelude.{◌≡◌, ◌++◌, []};
ghost use Rattle.pt_hub.specs.Discards.{noted};

use http_server::Log;
use std::marker::Model;

/// The values that were discarded, in order. It takes no memory.
#[derive(Drop)]
pub(crate) struct Discarded<T> {
    log: Log<T, ()>,
}

impl<T> Model for Discarded<T> {
    ghost use Rattle.std.specs.Prelude.{List};
    ghost use Rattle.pt_hub.specs.Discards.{noted};

    ghost Value = { List T };

    ghost view = { λ d. noted d.log.items };
}

// Notes values in a log.
fn note<T>(log: &mut Log<T, ()>, values: &[T])
    ensures { noted log.new.items ≡ noted log.old.items ++ values.now }
{
    for value in values {
        *log = log.and(value, &());
    }
}

impl<T> Discarded<T> {
    ghost use Rattle.std.specs.Prelude.{◌≡◌, ◌++◌, []};

    /// Creates an empty list.
    pub fn new() -> Discarded<T>
        ensures { result ≡ [] }
    {
        Discarded { log: Log::new() }
    }

    /// Adds these values.
    pub fn add(&mut self, values: &[T])
        ensures { self.new ≡ self.old ++ values.now }
    {
        note(&mut self.log, values);
    }
}
