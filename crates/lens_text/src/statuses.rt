//! Statuses and halt codes in words, each list a text of a line each (`line_at`).

/// The names of the statuses by their numbers, and what any other is.
pub const STATUSES: &str = "OK
BADCALL
BADHANDLE
WRONGKIND
OCCUPIED
DEAD
NULLREF
NOTLOCKED
NOTSTOPPED
HELD
NOTLINKED
LINKED
BADADDRESS
DENIED
ENDED
FULL
NONE
NOTEMPTY
WRONGTURN
BADSTATE
no status";

/// Why a thread has halted, by its code, and by any other.
pub const HALTS: &str = "by halt
a zero divisor
a bad address
an unknown operation
a missing page that nobody keeps
a code that was set";
