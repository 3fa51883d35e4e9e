// The sizes of a disk and of its calls (own).

/// How many bytes a disk has.
pub const DISK_BYTES: u32 = 160_000;

/// The most bytes of one write.
pub const MOST_WRITTEN: u32 = 16;

/// The most writes and syncs that the log of a disk in memory may have room for.
pub const MOST_LOGGED: u32 = 100_000;
