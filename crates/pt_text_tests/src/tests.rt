mod call_line;
mod command;
mod cutter;
mod devices;
mod reply;
mod script;
mod script_line;

use pt_lines::{Cut, Cutter};
use std::alloc::Global;
use std::test::Fail;

// Lends a value to a test. A function that owns the value has to drop it at each early return, and
// each such drop is proved. So this function owns it.
fn lend<T: Drop, R, F: FnOnce(&mut T) -> R>(mut owned: T, play: F) -> R
    requires { F.IsAlwaysCallable play }
{
    play(&mut owned)
}

// Returns the first line of a text.
fn first_cut(alloc: Global, text: &[u8]) -> Result<Cut, Fail> {
    lend(Cutter::new(alloc), |cutter| {
        cutter.feed(text)?;
        Ok(cutter.next_line().ok_or("line")?)
    })
}
