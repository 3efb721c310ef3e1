//! What a move would tell native servers.
ghost use Rattle.std.specs.Prelude.{◌≡◌, false, true, IsSome, IfSome, IfNone};
ghost use Rattle.fk_model.specs.Valid.{IsValid};
ghost use Rattle.fk_store.specs.Store.World.{world};
ghost use Rattle.fk_calls.specs.Acts.Acts.{is_act};
ghost use Rattle.fk_calls.specs.Calls.Judgements.{is_fit_move, IsReadyMove};
ghost use Rattle.fk_calls.specs.Calls.Tried.{Foretells};

use crate::calls::judging::judge;
use crate::calls::moves::{Told, apart};
use fk_model::{Ask, Move};
use fk_plans::endings::ended_by;
use fk_plans::is_ready;
use fk_store::Store;

/// What a move would tell native servers, and the port whose native server would lose its client by it; none where it isn't ready. It is
/// fit. Nothing is made, and what a porter would be told isn't looked at.
pub fn foretell(store: &Store, m: &Move, ask: &Ask) -> Option<Told>
    requires valid { IsValid (world store.now) }
    requires fit { is_fit_move store.now m.now ask.now ≡ true }
    ensures ready { IsSome result → IsReadyMove store.now m.now ask.now }
    ensures told { IfSome result (Foretells store.now m.now ask.now) }
    ensures unready { IfNone result (IsReadyMove store.now m.now ask.now → ⊥) }
{
    match ask {
        Ask::Accept | Ask::Give { .. } | Ask::Over => foretell_act(store, m, ask),
        Ask::Run | Ask::Call { .. } => foretell_judged(store, m, ask),
    }
}

/// What an act of a native server would tell native servers; none where it isn't ready. By no act does a server lose its client.
fn foretell_act(store: &Store, m: &Move, ask: &Ask) -> Option<Told>
    requires valid { IsValid (world store.now) }
    requires act { is_act ask.now ≡ true }
    ensures ready { IsSome result → IsReadyMove store.now m.now ask.now }
    ensures told { IfSome result (Foretells store.now m.now ask.now) }
    ensures unready { IfNone result (IsReadyMove store.now m.now ask.now → ⊥) }
{
    let said = crate::acts::foretell(store, m, ask)?;
    Some(Told { said, ended: None })
}

/// What a move of a user or a porter would tell native servers, and the port whose native server would lose its client by it; none where it isn't
/// ready.
fn foretell_judged(store: &Store, m: &Move, ask: &Ask) -> Option<Told>
    requires valid { IsValid (world store.now) }
    requires thread { is_act ask.now ≡ false }
    requires fit { is_fit_move store.now m.now ask.now ≡ true }
    ensures ready { IsSome result → IsReadyMove store.now m.now ask.now }
    ensures told { IfSome result (Foretells store.now m.now ask.now) }
    ensures unready { IfNone result (IsReadyMove store.now m.now ask.now → ⊥) }
{
    let j = judge(store, m, ask)?;
    if !is_ready(store, j.caller, j.chooses, m.pick, &j.verdict) {
        return None;
    }
    apart(store, j.caller, &j.verdict);
    Some(Told {
        said: fk_plans::foretell(store, j.caller, &j.verdict),
        ended: ended_by(store, j.caller, &j.verdict),
    })
}
