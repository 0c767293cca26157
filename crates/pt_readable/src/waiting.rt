use pt_types::ObjectId;
use pt_types::key_order::Key;

/// Where a client's open call waits, and the key that decides its turn there.
/// [XSH 2.8.4, pthread_cond_broadcast]
#[derive(Clone, Copy)]
pub struct Waiting {
    /// The object that the call names, or the mutex of a wait that was moved.
    pub object: ObjectId,
    pub key: Key,
}
