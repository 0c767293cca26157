/// The reason why a trace is not checked to its end.
#[derive(Clone, Copy, Debug, PartialEq, Eq)]
pub enum CheckFault {
    /// The row of this number, from 1, should be an answer and is none.
    NotAnswer(usize),
    /// A growth was refused.
    Memory,
}
