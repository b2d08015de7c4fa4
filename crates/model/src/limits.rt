// Limits that more than one layer keeps.

// Stamps are below this.
pub const STAMP_LIMIT: u64 = 0x4000_0000_0000_0000;

// The most granules that an archive has.
pub const MOST_GRANULES: usize = 4096;
