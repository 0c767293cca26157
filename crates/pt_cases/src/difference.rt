ghost use Rattle.std.specs.Prelude.{◌≡◌, ◌↔◌, IsNone};

/// The first line at which two texts differ.
#[derive(Clone, Copy)]
pub struct Difference<'a> {
    /// The number of the line, from 1.
    pub number: usize,
    /// The line in the expected text, if that text has not ended.
    pub expected: Option<&'a [u8]>,
    /// The line in the written text, if that text has not ended.
    pub written: Option<&'a [u8]>,
}

fn is_newline(byte: &u8) -> bool {
    *byte == b'\n'
}

/// Returns the first line at which two texts differ, if they do.
pub fn first_difference<'a>(expected: &'a [u8], written: &'a [u8]) -> Option<Difference<'a>>
    ensures { IsNone result ↔ (expected.now ≡ written.now) }
{
    if expected == written {
        return None;
    }
    let mut number = 1;
    let mut written = written.split(is_newline);
    for line in expected.split(is_newline) {
        let other = written.next();
        if other != Some(line) {
            return Some(Difference {
                number,
                expected: Some(line),
                written: other,
            });
        }
        number = number.saturating_add(1);
    }
    Some(Difference {
        number,
        expected: None,
        written: written.next(),
    })
}
