//! Threads in the queues of what they wait for, and of those that are ready.
//!
//! It stands on `queues` and `fk_model`. Below is `names`: names with a number each, in the order of spaces and slots. A name is found by one look where
//! it was put or found last, else by halving. It is found exactly where it was put, and to put one in takes no memory where there is room. A caller of
//! `causes` sees a list of those that stand, in the order in which they came to where they stand, each with its node and what it waits for. It promises what
//! each step makes of that list, and that there is a queue for a cause as long as somebody waits for it, so that nothing but `new` and `reserve` may lack
//! memory.

mod causes;
mod names;

pub use causes::Causes;
pub use names::{Name, Names};
