use crate::case::Case;
use crate::difference::{Difference, first_difference};
use std::io;

// Shows where the text written for a case differs from the expected one.
fn show(rt: &impl Print, case: &Case, difference: &Difference<'_>) -> io::Result<()> {
    let path = case.path.as_str();
    let number = difference.number;
    println!(rt; "{path}: line {number} differs")?;
    println!(rt;
        "expected: {}",
        difference.expected.unwrap_or(b"").escape_ascii()
    )?;
    println!(rt;
        "written:  {}",
        difference.written.unwrap_or(b"").escape_ascii()
    )
}

/// Returns true if this text is what is expected of a case. If it is not, shows where it differs.
pub fn agrees(rt: &impl Print, case: &Case, written: &[u8]) -> io::Result<bool> {
    match first_difference(&case.expected, written) {
        None => Ok(true),
        Some(difference) => {
            show(rt, case, &difference)?;
            Ok(false)
        }
    }
}
