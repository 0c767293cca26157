use thiserror::Error;

/// The reason why a script ends before its input does.
#[derive(Clone, Copy, Debug, PartialEq, Eq, Error)]
pub enum ScriptFault {
    /// A read failed, or the input did not end within the permitted number of reads.
    #[error("read failed")]
    Read,
    /// A write or a flush failed, or a write took no byte.
    #[error("write failed")]
    Write,
    /// A growth was refused for which no line can be answered ENOMEM.
    #[error("out of memory")]
    Memory,
}
