//! The greatest numbers that the server accepts, each defined once.

/// The highest priority; the lowest is 1.  [XSH 2.8.4, the number is profile]
pub const MAX_PRIORITY: usize = 99;

/// The greatest number of living clients.  [profile]
pub const MAX_CLIENTS: usize = 1024;

/// The greatest number of objects at one time.  [profile]
pub const MAX_OBJECTS: usize = 4096;

/// The greatest number of locks that one owner can hold on a RECURSIVE mutex.
/// [XSH pthread_mutex_lock, the number is profile]
pub const MAX_LOCKS: u8 = 255;

/// The greatest number of read locks that one client can hold on one read-write lock.
/// [XSH pthread_rwlock_rdlock, the number is profile]
pub const MAX_READ_LOCKS: u8 = 255;

/// The greatest count of a barrier: the number of calls that it waits for.  [profile]
pub const MAX_BARRIER_COUNT: u32 = 1024;

/// The length of the longest line in bytes, without its newline.  [profile]
pub const MAX_LINE_LENGTH: usize = 128;

/// The greatest number of seconds in a moment or a deadline.  [profile]
pub const MAX_SECONDS: u64 = 9_999_999_999;

/// The greatest number of nanoseconds with which a deadline can be written.  [profile]
pub const MAX_NANOSECONDS: u64 = 9_999_999_999;

/// The number of nanoseconds in a second. A moment or a valid deadline has fewer.  [XBD time.h]
pub const NANOSECONDS_IN_SECOND: u64 = 1_000_000_000;

/// The greatest number of entries in a history since its last seal, including the room reserved for
/// entries that must follow.  [profile]
pub const MAX_ENTRIES: u32 = 1_048_576;
