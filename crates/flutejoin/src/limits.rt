//! How many sessions, objects and symbols the commands take in, and how many more by `--any-size`.

/// The greatest number of entries of a journal that is read, and of records of a datagram file.
pub const MAX_ENTRIES: u64 = 16_777_216;

/// The greatest number of inputs that are joined.
pub const MAX_INPUTS: usize = 64;

/// How many bytes of the datagrams of files are held in memory, if the words don't say it.
pub const DEFAULT_MEMORY: u64 = 268_435_456;

/// The greatest number of bytes that the words may say.
pub const MAX_MEMORY: u64 = 1 << 62;

/// The greatest number of sessions, those of a [`Shelf`](flute_store::Shelf).
pub const MAX_SESSIONS: u32 = 64;

/// The greatest number of objects of a session.
pub const MAX_OBJECTS: u32 = 4096;

/// The greatest number of symbols of an object.
pub const MAX_SYMBOLS: u32 = 1_048_576;

/// The greatest number of sessions of any size.
pub const ANY_SESSIONS: u32 = 32_767;

/// The greatest number of objects of a session of any size: as many as a journal has entries.
pub const ANY_OBJECTS: u32 = 16_777_216;

/// The greatest number of symbols of an object of any size.
pub const ANY_SYMBOLS: u32 = 16_777_216;
