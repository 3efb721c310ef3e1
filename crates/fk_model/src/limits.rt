//! Sizes and limits of the machine.

/// The words of a page.
pub const PAGE_WORDS: u64 = 64;
/// The words of all pages of a space.
pub const SPACE_WORDS: u64 = 16384;
/// The pages of a space.
pub const PAGES: u64 = 256;
/// The slots of a space.
pub const SLOTS: u64 = 256;
/// The last slot that a user thread names.
pub const LAST_USER_SLOT: u64 = 239;
/// The last slot that a porter names: its own.
pub const LAST_PORTER_SLOT: u64 = 255;
/// The first and the last of a porter's scratch slots.
pub const FIRST_SCRATCH_SLOT: u64 = 240;

pub const LAST_SCRATCH_SLOT: u64 = 254;
/// The place that names the caller's own space.
pub const OWN_SPACE: u64 = 256;
/// The mappings that a walk to a page follows at most.
pub const MAPPINGS: u64 = 16;
/// The highest stop count of a thread.
pub const MOST_STOPS: u64 = 65535;
/// The highest count of the words moved in a turn.
pub const MOST_MOVED: u64 = 65535;
/// The words that one move of a message takes at most, and the room of a native server.
pub const BLOCK_WORDS: u64 = 64;
/// The words of a state record.
pub const RECORD_WORDS: u64 = 32;
/// In an address's place: a page of zeros.
pub const ZEROS: u64 = 0xffff_ffff_ffff_ffff;
/// What stands for a pointer field where a checkpoint tells that something outside leads to an object.
pub const LED_TO: u8 = 15;
