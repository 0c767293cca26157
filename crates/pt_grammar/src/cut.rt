use arrayvec::ArrayVec;
use pt_types::MAX_LINE_LENGTH;

/// What a cutter gives of a line: its text without the newline, or that it has more than 128 bytes.
/// [profile]
#[derive(PartialEq, Eq, Drop)]
pub enum Cut {
    Line(ArrayVec<u8, MAX_LINE_LENGTH>),
    Long,
}
