//! Who is ready, and who waits for what.
//!
//! It stands on `causes` and `fk_model`. A caller sees two lists: the threads that are ready, in order, and those that are
//! queued, each behind its cause, in the order in which they were parked; and a number, for how many more there is room. It promises what each
//! call makes of them, exactly, and that nothing but `new` and `reserve` may lack memory.

mod threads;
mod waits;

pub use waits::Waits;
