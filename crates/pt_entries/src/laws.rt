ghost use Rattle.pt_entries.specs.Laws.{CallTextsAreRead, EntryTextsDiffer};

/// The text of a call that a line can make is read as that call.
#[tactic(auto, using(crate::proofs::Spelled::texts_are_read))]
pub fn law_call_texts_are_read()
    ensures { CallTextsAreRead }
{}

/// No two entries that a script can have share a text.
#[tactic(auto, using(crate::proofs::EntryReading::texts_differ))]
pub fn law_entry_texts_differ()
    ensures { EntryTextsDiffer }
{}
