//! The state of an object.
use crate::{Ptr, Thread, Who};

/// What stands in a slot.
#[derive(Clone, Copy)]
pub enum Body {
    Mutex {
        locked: bool,
    },
    Cond,
    /// The pages from `first` on, `count` of them from 1 to 256, lead to a region from its page
    /// `offset` on.
    Mapping {
        first: u8,
        count: u16,
        offset: u8,
        write: bool,
        region: Ptr,
    },
    /// The pages from `first` on, `count` of them from 1 to 256, are offered to mappings. The port
    /// `keeper` takes the faults on those that are missing.
    Region {
        first: u8,
        count: u16,
        write: bool,
        keeper: Ptr,
    },
    /// `set` is the slot of its port set in the same space. A native server serves it or doesn't.
    Port {
        set: Option<u8>,
        served: bool,
    },
    Portset,
    /// `birth` is its birth number, `holder` the thread that holds it.
    Space {
        birth: u32,
        holder: Option<Who>,
    },
    Thread(Thread),
    Reference {
        to: Ptr,
    },
}
