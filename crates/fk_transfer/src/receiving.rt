//! Receive, on either side of a talk.
ghost use Rattle.std.specs.Prelude.{◌≡◌, ℕ, List, false, IfOk};
ghost use Rattle.std.specs.Bool.{OnTrue};
ghost use Rattle.fk_model.specs.Outcomes.Outcome.{Waits};
ghost use Rattle.fk_model.specs.TransferRows as rows;
ghost use Rattle.fk_model.specs.Valid.{IsValid};
ghost use Rattle.fk_store.specs.Store.Paths.{path};
ghost use Rattle.fk_store.specs.Store.World.{world};
ghost use Rattle.fk_plans.specs.Plans.Plans.{caller_by};
ghost use Rattle.fk_plans.specs.Plans.Verdicts.{IsSureVerdict, Judges};

use crate::lines::{in_turn, other_side};
use fk_changes::readers::{Caller, reference_in};
use fk_model::Turn;
use fk_plans::{Verdict, own_page};
use fk_store::{Reach, Store};

/// It waits for the other side's Send and Over, at that side's turn. By itself it is only refused:
/// NOTLINKED, WRONGTURN, and with room BADADDRESS; or its page is missing, of which the keeper is told.
///
/// # Errors
///
/// The status of the first refusal: NOTLINKED; WRONGTURN; BADADDRESS, with room, where its own page is missing and has no keeper, or its address leads to
/// none.
#[tactic(auto, unfolding(fk_model::specs::TransferRows::receive))]
pub fn receive(
    store: &Store,
    caller: Caller,
    side: Turn,
    into: u64,
    room: u64,
) -> Result<Verdict, u8>
    requires user { caller.is_porter ≡ false }
    requires valid { IsValid (world store.now) }
    ensures row { Judges store.now caller result (λ w c. rows.receive w c side into room) }
    ensures sure { IfOk result IsSureVerdict }
{
    in_turn(store, caller.who, side, other_side(side))?;
    if room == 0 {
        return Ok(Verdict::Waits);
    }
    match own_page(store, caller, into, true) {
        Ok(_) => Ok(Verdict::Waits),
        Err(verdict) => Ok(verdict),
    }
}

/// It waits for the other side's Send and Over with a reference of the caller that is to take a pointer, which is looked at first.
///
/// # Errors
///
/// The status of the first refusal: the reference (BADHANDLE, WRONGKIND); NOTLINKED; WRONGTURN; BADADDRESS, with room, where its own page is missing and has
/// no keeper, or its address leads to none.
#[tactic(auto, unfolding(fk_model::specs::TransferRows::receive_ref))]
pub fn receive_ref(
    store: &Store,
    caller: Caller,
    side: Turn,
    into: u64,
    room: u64,
    reference: u64,
) -> Result<Verdict, u8>
    requires user { caller.is_porter ≡ false }
    requires valid { IsValid (world store.now) }
    ensures row { Judges store.now caller result (λ w c. rows.receive_ref w c side into room reference) }
    ensures sure { IfOk result IsSureVerdict }
{
    reference_in(store, caller, caller.who.space, reference)?;
    receive(store, caller, side, into, room)
}

/// Whether a Receive waits, which most do: it is the other side's turn, and it has no room left, or its page is there. It needs no verdict.
#[tactic(auto, unfolding(fk_model::specs::TransferRows::receive))]
pub fn awaits(store: &Store, caller: Caller, side: Turn, into: u64, room: u64) -> bool
    requires valid { IsValid (world store.now) }
    ensures { (words : List ℕ) → OnTrue result
        (rows.receive (world store.now) (caller_by (path store.now) caller words) side into room ≡ Waits) }
{
    let Ok(_) = in_turn(store, caller.who, side, other_side(side)) else {
        return false;
    };
    if room == 0 {
        return true;
    }
    match store.reach_word(caller.who.space, into, true) {
        Reach::Home { .. } => true,
        Reach::Missing { .. } | Reach::Bad => false,
    }
}
