ghost use Rattle.std.specs.Prelude.{◌≤◌};

mod hints;
mod history;
mod lanes;
mod model;
mod refusing;
mod stored;
mod table;
mod timers;
mod types;
mod wait_lists;
mod waitq;

use pt_types::Priority;

// Returns the priority of this level.
fn priority(level: u64) -> Priority
    requires least { 1 ≤ level }
    requires within { level ≤ 99 }
{
    Priority::new(level).unwrap()
}
