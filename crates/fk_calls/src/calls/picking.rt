//! Who may pick whom it acts on.
ghost use Rattle.std.specs.Prelude.{◌≡◌, Some};
ghost use Rattle.fk_model.specs.declared.moves.Ask.TheVariants as asks;
ghost use Rattle.fk_model.specs.Moves.{IsReady};
ghost use Rattle.fk_model.specs.Places.{Path};
ghost use Rattle.fk_store.specs.Store.Paths.{path, place};
ghost use Rattle.fk_store.specs.Store.World.{world};
ghost use Rattle.fk_calls.specs.Calls.Choices.{MayPick, picks_of};

use crate::calls::doing::{Doing, doing_of};
use fk_model::{Stage, Who};
use fk_store::Store;

/// Whom a user may pick.
#[derive(Clone, Copy)]
pub enum Picks {
    /// Nobody.
    Nobody,
    /// Who sleeps on a condition of its space.
    Sleepers { cond: u64 },
    /// Whom a wait on a set of its space may take.
    Candidates { set: u64 },
}

/// Whom the user in a slot may pick. No move of it that picks anybody else is ever ready.
pub fn may_pick(store: &Store, who: Who) -> Picks
    ensures { (pick : Path) → IsReady (world store.now) (place (path store.now) who) (Some pick) asks.Run
        → MayPick (world store.now) (path store.now who.space) result pick }
{
    match doing_of(store, who) {
        Doing::Stage(stage) => picks_of(&stage),
        Doing::Instruction | Doing::Nothing => Picks::Nobody,
    }
}

/// Whom a stage may pick.
fn picks_of(stage: &Stage) -> Picks
    ensures { result ≡ picks_of stage.now }
{
    match *stage {
        Stage::Wait { set } => Picks::Candidates { set },
        Stage::CondSignal { c } => Picks::Sleepers { cond: c },
        _ => Picks::Nobody,
    }
}
