//! What a call answers. Whatever is not [`DONE`], nothing is changed.

/// The call did what it is for; a job, or the list, is carried out, refused jobs included.
pub const DONE: u8 = 0;

/// The bytes are not 1 to 4,096 whole pages; of memory in one piece, not 1 to 2^32 - 1.
pub const NOT_PAGES: u8 = 1;

/// There is no memory.
pub const NO_MEMORY: u8 = 2;

/// There are not as many records as descriptors.
pub const NOT_AS_MANY: u8 = 3;

/// The handle has no engine.
pub const NO_ENGINE: u8 = 4;

/// The handle has an engine already.
pub const HAS_ENGINE: u8 = 5;

/// An engine has 1 to 4,096 pages.
pub const BAD_PAGES: u8 = 6;

/// An engine has at most 16,777,216 bytes of staging.
pub const BAD_SETTINGS: u8 = 7;

/// The engine has no page of this number.
pub const NO_SUCH_PAGE: u8 = 8;

/// A byte of the range, or the page, is absent; or the range ends above 2^64.
pub const ABSENT: u8 = 9;

/// The descriptor's operation is another one than the call's.
pub const OTHER_OPERATION: u8 = 10;

/// A buffer has another length than the job's range.
pub const OTHER_LENGTH: u8 = 11;

/// A table has no region.
pub const NO_REGIONS: u8 = 12;

/// A table has more than 64 regions.
pub const TOO_MANY_REGIONS: u8 = 13;

/// A region has no byte, or no whole pages.
pub const BAD_LENGTH: u8 = 14;

/// A region's address is no multiple of 4,096.
pub const BAD_ADDRESS: u8 = 15;

/// A region ends above 2^44 - 4,096.
pub const REGION_PAST: u8 = 16;

/// A region begins before the one in front of it in the table ends.
pub const NOT_RISING: u8 = 17;

/// A batch has fewer than 2^32 jobs.
pub const TOO_MANY_JOBS: u8 = 18;

// 19 is the header's own: a region's pointer is NULL, and its length is not 0.
