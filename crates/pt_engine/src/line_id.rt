use pt_lines::Who;

/// A line of a script: the client that it belongs to, and its number among that client's lines,
/// from 1.
#[derive(Drop)]
pub struct LineId {
    pub who: Who,
    pub number: u64,
}

impl LineId {
    ghost use Rattle.std.specs.Prelude.{◌≡◌};

    /// Returns a copy of the line, without allocating.
    pub fn copied(&self) -> LineId
        ensures { result ≡ self.now }
    {
        LineId {
            who: self.who.copied(),
            number: self.number,
        }
    }
}
