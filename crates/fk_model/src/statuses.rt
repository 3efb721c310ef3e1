//! The statuses that calls answer, and the codes with which threads halt.

/// What stands in the first register when a call has ended.
pub mod status {
    pub const OK: u8 = 0;
    /// The first register names no call.
    pub const BADCALL: u8 = 1;
    /// An empty slot, or a slot that the caller can't name.
    pub const BADHANDLE: u8 = 2;
    /// An object of another kind.
    pub const WRONGKIND: u8 = 3;
    /// The slot or the page is taken.
    pub const OCCUPIED: u8 = 4;
    /// A reference to an object that was destroyed.
    pub const DEAD: u8 = 5;
    /// A reference to nothing.
    pub const NULLREF: u8 = 6;

    pub const NOTLOCKED: u8 = 7;

    pub const NOTSTOPPED: u8 = 8;
    /// Another thread's hold freezes the object.
    pub const HELD: u8 = 9;
    /// No talk, or no taken fault.
    pub const NOTLINKED: u8 = 10;
    /// A talk, or a taken fault, already.
    pub const LINKED: u8 = 11;

    pub const BADADDRESS: u8 = 12;

    pub const DENIED: u8 = 13;
    /// The other side has ended the talk.
    pub const ENDED: u8 = 14;
    /// No room is left, or the count is at its end.
    pub const FULL: u8 = 15;

    pub const NONE: u8 = 16;
    /// The space holds objects.
    pub const NOTEMPTY: u8 = 17;

    pub const WRONGTURN: u8 = 18;
    /// A state record, or a field, that the object doesn't take.
    pub const BADSTATE: u8 = 19;
}

/// Why a thread has halted.
pub mod halt {
    /// By the instruction `halt`.
    pub const STOPPED: u8 = 0;

    pub const ZERO_DIVISOR: u8 = 1;
    /// An address past the last page, or one that leads nowhere.
    pub const BAD_ADDRESS: u8 = 2;

    pub const UNKNOWN_OPERATION: u8 = 3;
    /// A missing page that nobody keeps.
    pub const MISSING_PAGE: u8 = 4;
}
