use thiserror::Error;

/// The reason why a table refused a row.
#[derive(Clone, Copy, Debug, PartialEq, Eq, Error)]
pub enum TableFault {
    /// A row already has the number or the name.
    #[error("taken")]
    Taken,
    /// The table is at its limit of rows.
    #[error("at the limit")]
    AtLimit,
    /// A growth was refused.
    #[error("out of memory")]
    Memory,
}
