//! A user's move that picks somebody, and a server's accept.
ghost use Rattle.std.specs.Prelude.{◌≡◌, IfSome, IfNone, Option};
ghost use Rattle.fk_model.specs.declared.moves.Ask.TheVariants as asks;
ghost use Rattle.fk_model.specs.Moves.{IsReady};
ghost use Rattle.fk_model.specs.Places.{Path};
ghost use Rattle.fk_model.specs.Valid.{IsValid};
ghost use Rattle.fk_store.specs.Store.Paths.{path, place};
ghost use Rattle.fk_store.specs.Store.World.{world};
ghost use Rattle.fk_calls.specs.Calls.Judgements.{IsReadyMove};
ghost use Rattle.fk_turns.specs.Picks.Stands.{IsPicked};

use crate::picks::moves::Picker;
use crate::picks::ports::{takes_at, takes_one};
use crate::picks::sleepers::wakes_one;
use fk_calls::{Picks, may_pick};
use fk_model::{Move, Who};
use fk_store::Store;

/// Whom the user in a slot may pick by a move that is ready.
fn user_picks(store: &Store, who: Who) -> Option<Who>
    requires valid { IsValid (world store.now) }
    ensures ready { IfSome result (λ found. IsPicked store.now (Picker.User who) (place (path store.now) found)) }
    ensures none { IfNone result ((q : Path) → IsPicked store.now (Picker.User who) q → ⊥) }
{
    match may_pick(store, who) {
        Picks::Nobody => None,
        Picks::Sleepers { cond } => wakes_one(store, who, cond),
        Picks::Candidates { set } => takes_one(store, who, set),
    }
}

/// A move of the user in a slot that is ready and picks somebody. There is none exactly where no
/// such move is ready.
pub fn ready_pick(store: &Store, who: Who) -> Option<Move>
    requires valid { IsValid (world store.now) }
    ensures ready { IfSome result (λ m. IsReadyMove store.now m asks.Run) }
    ensures who { IfSome result (λ m. m.who ≡ who) }
    ensures none { IfNone result ((q : Path) → IsPicked store.now (Picker.User who) q → ⊥) }
{
    match user_picks(store, who) {
        Some(other) => Some(Move {
            who,
            pick: Some(other),
        }),
        None => None,
    }
}

/// Whom the native server of a port may accept. There is nobody exactly where no accept of it is ready.
/// It looks at who connects by the port, and then along the port's ring.
pub fn ready_accept(store: &Store, port: Who) -> Option<Who>
    requires valid { IsValid (world store.now) }
    ensures ready { IfSome result (λ found. IsPicked store.now (Picker.Server port) (place (path store.now) found)) }
    ensures none { IfNone result ((pick : Option Path) → IsReady (world store.now) (place (path store.now) port) pick asks.Accept → ⊥) }
{
    takes_at(store, Picker::Server(port), port)
}
