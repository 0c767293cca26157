//! The number of a session.

/// The number of a session: how many were opened before it.
#[derive(Clone, Copy, PartialEq, Eq)]
pub struct SessionId(pub u64);
