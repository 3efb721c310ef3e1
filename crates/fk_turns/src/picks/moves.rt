//! Picks that are ready.
ghost use Rattle.std.specs.Prelude.{◌≡◌, ◌↔◌, IsTrue, IfSome, IfNone};
ghost use Rattle.fk_model.specs.Places.{Path};
ghost use Rattle.fk_model.specs.Valid.{IsValid};
ghost use Rattle.fk_store.specs.Store.Paths.{path, place};
ghost use Rattle.fk_store.specs.Store.World.{world};
ghost use Rattle.fk_turns.specs.Picks.Stands.{ask_of, who_of, IsPicked};

use fk_model::{Ask, Move, Who};
use fk_store::Store;

/// Who picks somebody.
#[derive(Clone, Copy)]
pub enum Picker {
    /// A user, by its move.
    User(Who),
    /// The native server of a port, by an accept.
    Server(Who),
}

/// The name by which it moves.
fn who_of(picker: Picker) -> Who
    ensures { result ≡ who_of picker }
{
    match picker {
        Picker::User(who) | Picker::Server(who) => who,
    }
}

/// What it asks for.
fn ask_of(picker: Picker) -> Ask
    ensures { result ≡ ask_of picker }
{
    match picker {
        Picker::User(_) => Ask::Run,
        Picker::Server(_) => Ask::Accept,
    }
}

/// An object may be picked.
pub fn picks(store: &Store, picker: Picker, other: Who) -> bool
    requires valid { IsValid (world store.now) }
    ensures { IsTrue result ↔ IsPicked store.now picker (place (path store.now) other) }
{
    let m = Move {
        who: who_of(picker),
        pick: Some(other),
    };
    fk_calls::ready(store, &m, &ask_of(picker))
}

/// An object, if it may be picked.
pub fn picked(store: &Store, picker: Picker, other: Who) -> Option<Who>
    requires valid { IsValid (world store.now) }
    ensures ready { IfSome result (λ found. IsPicked store.now picker (place (path store.now) found)) }
    ensures none { IfNone result (IsPicked store.now picker (place (path store.now) other) → ⊥) }
{
    if picks(store, picker, other) {
        Some(other)
    } else {
        None
    }
}

/// The first object that may be picked, in the order of spaces and slots.
pub fn picked_of_all(store: &Store, picker: Picker) -> Option<Who>
    requires valid { IsValid (world store.now) }
    ensures ready { IfSome result (λ found. IsPicked store.now picker (place (path store.now) found)) }
    ensures none { IfNone result ((q : Path) → IsPicked store.now picker q → ⊥) }
{
    let mut at = store.after(None);
    while let Some(other) = at {
        if picks(store, picker, other) {
            return Some(other);
        }
        at = store.after(Some(other));
    }
    None
}
