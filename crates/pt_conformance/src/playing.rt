ghost use Rattle.std.specs.Prelude.{◌<◌};

use crate::way::Way;
use anyhow::{Context, Result};
use pt_cases::{Case, agrees};
use pt_core::Core;
use pt_io::{Counted, Faulty};
use pt_script::{ENTRIES_BETWEEN_SEALS, script};
use std::fs;
use std::rt::Files;

// Plays a script from memory, in reads and writes of up to `step` bytes. Returns whether it agrees.
fn agrees_in_pieces(rt: &(impl Print + AllocGlobal), step: usize, case: &Case) -> Result<bool>
    requires { 0 < step }
{
    let bytes = Vec::from_slice(rt.alloc(), &case.script)?;
    let mut reader = Faulty::new(bytes, step, 0);
    let mut writer = Faulty::new(Vec::new(rt.alloc()), step, 0);
    let core = Core::with_limit(rt.alloc(), ENTRIES_BETWEEN_SEALS)?;
    script(core, rt.alloc(), &mut reader, &mut writer)?;
    Ok(agrees(rt, case, writer.written())?)
}

// Plays a script while its file is read. Returns whether it agrees.
fn agrees_from_file(rt: &(impl Files + Print + AllocGlobal), case: &Case) -> Result<bool> {
    let path = format!(in rt.alloc(); "{}.script", case.path)?;
    let mut reader = Counted::new(fs::open(rt, path.as_str())?);
    let mut writer = Faulty::new(Vec::new(rt.alloc()), 4096, 0);
    let core = Core::with_limit(rt.alloc(), ENTRIES_BETWEEN_SEALS)?;
    script(core, rt.alloc(), &mut reader, &mut writer)?;
    Ok(agrees(rt, case, writer.written())?)
}

// Plays a case in this way, and returns whether it agrees.
fn agrees_by(rt: &(impl Files + Print + AllocGlobal), way: Way, case: &Case) -> Result<bool> {
    match way {
        Way::Large => agrees_in_pieces(rt, 4096, case),
        Way::Odd => agrees_in_pieces(rt, 100, case),
        Way::Bytes => agrees_in_pieces(rt, 1, case),
        Way::File => agrees_from_file(rt, case),
    }
}

/// Plays these cases in this way, up to the first that differs, and returns whether all agree. If
/// they do, prints how many.
pub fn all_agree(
    rt: &(impl Files + Print + AllocGlobal),
    group: &str,
    way: Way,
    cases: &[Case],
) -> Result<bool> {
    for case in cases {
        if !agrees_by(rt, way, case).context(format_args!("{}", case.path))? {
            return Ok(false);
        }
    }
    let count = cases.len();
    println!(rt; "{group}: {count} scripts agree {way}")?;
    Ok(true)
}
