//! A place in the script of an image's restore. It takes no memory of its own.

/// A scratch reference on its way to what it shall lead to.
#[derive(Clone, Copy)]
pub enum Walk {
    /// It is there.
    Done,
    /// It is led to the subtree itself.
    Top {
        scratch: u8,
    },
    /// It is led on from the space with the number `from`, which slot `name` of the nester names, down to the
    /// space `to`, and then to slot `last` of that, if there is one.
    Down {
        scratch: u8,
        name: u8,
        from: u32,
        to: u32,
        last: Option<u8>,
    },
}

/// One time through the spaces of the image.
#[derive(Clone, Copy)]
pub enum Pass {
    /// Spaces are made, each after the one in which it lies.
    Spaces,
    /// Each space gets its objects, then their records, then its pages.
    Fills,
    /// Pointers that stay inside are led.
    Inward,
    /// Pointers to the port in this slot of the nester, 0 to 239, are led.
    Outward(u8),
    /// Talks and faults between threads inside are set.
    Ties,
    /// Spaces inside get their holders.
    Holds,
}

/// Where a pass stands.
#[derive(Clone, Copy)]
pub enum Spot {
    /// So many of the orders before its spaces were given.
    Before(u8),
    /// The space with this number is next.
    Room(u32),
    /// This part of an item of a space is next.
    Part { space: u32, item: usize, part: u8 },
    /// So many of the orders behind its spaces were given.
    After(u8),
}

/// A place in the script.
#[derive(Clone, Copy)]
pub struct Position {
    /// What is under way first.
    pub walk: Walk,
    pub pass: Pass,
    pub spot: Spot,
    /// The number of the space where the first scratch reference stands behind the walk.
    pub stands: u32,
}
