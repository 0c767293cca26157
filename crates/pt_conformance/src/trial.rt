use crate::breaking::is_unbroken;
use crate::refusing::is_steady;
use crate::sealing::is_sealed;
use crate::seeing::is_seen;
use anyhow::{Context, Result};
use pt_cases::Case;
use std::alloc::Global;
use std::fmt;

/// What is tried while a script is played.
#[derive(Clone, Copy)]
pub enum Trial {
    /// Each growth is refused in turn, and a line answered ENOMEM is sent again.
    Growths,
    /// The input is cut, ends or fails at each byte, and the output fails at each call.
    Devices,
    /// Each growth is refused in turn, on histories that are sealed on the way.
    Seals,
    /// Nothing goes wrong, and each entry is seen in its cell.
    Cells,
}

impl fmt::Display for Trial {
    fn fmt<W: fmt::Write>(&self, f: &mut fmt::Formatter<W>) -> fmt::Result {
        match self {
            Trial::Growths => write!(f, "with each growth refused"),
            Trial::Devices => write!(f, "cut, cut short and broken at each byte"),
            Trial::Seals => write!(f, "past seals with each growth refused"),
            Trial::Cells => write!(f, "with each entry seen in its cell"),
        }
    }
}

// Returns whether a case comes out of a trial as it must.
fn passes(alloc: Global, trial: Trial, case: &Case) -> Result<bool> {
    match trial {
        Trial::Growths => is_steady(alloc, case),
        Trial::Devices => is_unbroken(alloc, case),
        Trial::Seals => is_sealed(alloc, case),
        Trial::Cells => is_seen(alloc, case),
    }
}

/// Puts these cases to a trial, up to the first that fails, and returns whether all pass. If they
/// do, prints how many.
pub fn all_pass(
    rt: &(impl Print + AllocGlobal),
    group: &str,
    trial: Trial,
    cases: &[Case],
) -> Result<bool> {
    for case in cases {
        if !passes(rt.alloc(), trial, case).context(format_args!("{}", case.path))? {
            println!(rt; "{}: fails {trial}", case.path)?;
            return Ok(false);
        }
    }
    let count = cases.len();
    println!(rt; "{group}: {count} scripts {trial}")?;
    Ok(true)
}
