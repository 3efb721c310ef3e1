//! Statuses in sentences.

/// What each status of a call says, by its number.
pub const MEANINGS: &str = "it is done
r0 has no call's code
a slot that it names is empty, or none that it may name
what it names is of another kind
what it would fill is taken
a reference that it names leads to what was destroyed
a reference that it names leads to nothing
the mutex isn't locked
the thread isn't stopped
a hold of another keeps what it names as it is
the caller has no such talk, or no taken fault
the caller has such a talk already, or a taken fault
the address can't be reached, or is no multiple of what is wanted
the caller may not ask for this, or not of this object
the other side has ended the talk, or is gone
no room is left, or a count is at its end
there is none
the space holds objects
it is the other side's turn
the record, the field or the kind isn't one that the object takes
no status";
