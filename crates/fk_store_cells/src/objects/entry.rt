//! An object under its key.
ghost use Rattle.std.specs.Prelude.{◌≡◌};
ghost use Rattle.fk_store_cells.specs.Objects.Filed.{fresh};

use fk_model::{Body, Who};

/// Who may lead to an object, by key.
#[derive(Clone, Copy)]
pub enum Told {
    Nobody,
    /// Nobody but the object under this key.
    One(u32),
    /// Anybody.
    Many,
}

/// Who may be served by an object, and whose fault it may have taken.
#[derive(Clone, Copy)]
pub struct Hints {
    pub served: Told,
    pub taken: Told,
}

/// An object, its name, and what is told of it.
#[derive(Clone, Copy)]
pub struct Entry {
    pub who: Who,
    pub body: Body,
    pub hints: Hints,
}

impl Entry {
    /// An object of which nothing is told.
    pub fn fresh(who: Who, body: Body) -> Entry
        ensures { result ≡ fresh who body }
    {
        Entry {
            who,
            body,
            hints: Hints {
                served: Told::Nobody,
                taken: Told::Nobody,
            },
        }
    }
}
