/// What is found of a trace.
#[derive(Clone, Copy, Debug, PartialEq, Eq)]
pub enum Found {
    /// The answers to each line agree with the rules.
    Agrees,
    /// Those to this line of the script differ, and those to all lines before it agree. Lines are
    /// counted from 0.
    Differs(u64),
}
