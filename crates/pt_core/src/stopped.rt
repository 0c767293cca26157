use pt_types::Refusal;

/// The index of the event at which a run of events stopped, and the reason. The events before it
/// are applied.
#[derive(Clone, Copy, PartialEq, Eq)]
pub struct Stopped {
    pub at: usize,
    pub refusal: Refusal,
}
