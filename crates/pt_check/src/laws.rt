//! The law of all traces. The contract of its function is the law.

ghost use Rattle.pt_check.specs.Laws.{OneFinding};

use pt_script::law_one_text;

/// A trace's blocks either agree with the rules or have one first difference, and not both. So
/// `check` finds that they agree exactly if they do, and a difference exactly if it is the first.
pub fn law_one_finding()
    ensures { OneFinding }
{
    law_one_text();
}
