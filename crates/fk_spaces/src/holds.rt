//! Stages of holds.
ghost use Rattle.std.specs.Prelude.{◌≡◌, ℕ, List, [], ◌∷◌, Some, not, IfOk};
ghost use Rattle.fk_model.specs.Holds.{holder_of};
ghost use Rattle.fk_model.specs.Objects as objects;
ghost use Rattle.fk_model.specs.Objects.{space_of};
ghost use Rattle.fk_model.specs.Outcomes.{when, done};
ghost use Rattle.fk_model.specs.Places.{leads_to};
ghost use Rattle.fk_model.specs.Places.Ptr.{At};
ghost use Rattle.fk_model.specs.Readers as readers;
ghost use Rattle.fk_model.specs.SpaceRows as rows;
ghost use Rattle.fk_model.specs.World.Change.{Alter};
ghost use Rattle.fk_model.specs.World.Edit.{SetHolder};
ghost use Rattle.fk_store.specs.Store.Named.{Each};
ghost use Rattle.fk_store.specs.Store.Paths.{path, place};
ghost use Rattle.fk_store.specs.Store.World.{world, IsLive, IsSpace};
ghost use Rattle.fk_plans.specs.Plans.Plans.{caller_by, holder_by};
ghost use Rattle.fk_plans.specs.Plans.Verdicts.{Judges, IsSureVerdict, IsVerdict, mapped, outcome_by};
ghost use Rattle.fk_spaces.specs.Sought.{may_hold};

use crate::beneath::has_porter_beneath;
use fk_changes::readers::{Caller, is_within, place, referred, slot_for};
use fk_changes::threads::Answers;
use fk_model::status::{BADHANDLE, DENIED, HELD, OCCUPIED, WRONGKIND};
use fk_model::{Body, Kind, Who};
use fk_plans::{Deed, Plan, Verdict};
use fk_store::Store;

/// A space that stands in another one.
#[derive(Clone, Copy)]
struct Inner {
    object: Who,
    /// Its birth number.
    space: u32,
    holder: Option<Who>,
}

/// The space in a slot of another one.
#[tactic(auto, using(fk_changes::proofs::InReaders::Spaces::space_there), unfolding(fk_model::specs::Readers::object_in))]
fn space_in(store: &Store, caller: Caller, space: u32, k: u64) -> Result<Inner, u8>
    ensures holder { (words : List ℕ) → mapped (λ inner. holder_by (path store.now) inner.holder) result
        ≡ readers.object_in (world store.now) (caller_by (path store.now) caller words) space_of (path store.now space) k }
    ensures object { IfOk result (λ inner. place (path store.now) inner.object ≡ k ∷ path store.now space) }
    ensures held { IfOk result (λ inner. holder_of ((world store.now).body (k ∷ path store.now space)) ≡ holder_by (path store.now) inner.holder) }
    ensures home { IfOk result (λ inner. path store.now inner.space ≡ k ∷ path store.now space) }
    ensures space { IfOk result (λ inner. IsSpace store.now inner.space) }
    ensures live { IfOk result (λ inner. Each (IsLive store.now) inner.holder) }
{
    let slot = slot_for(caller, k)?;
    let object = Who { space, slot };
    match store.at(object) {
        None => Err(BADHANDLE),
        Some(Body::Space { birth, holder }) => Ok(Inner {
            object,
            space: *birth,
            holder: *holder,
        }),
        Some(_) => Err(WRONGKIND),
    }
}

/// A space is held by a thread.
fn is_holder(store: &Store, me: Who, holder: Option<Who>) -> bool
    requires live { Each (IsLive store.now) holder }
    ensures { result ≡ objects.holds (leads_to (place (path store.now) me)) (holder_by (path store.now) holder) }
{
    match holder {
        None => false,
        Some(holder) => store.at(holder).is_some() && holder == me,
    }
}

/// It is held by another thread.
fn is_held_by_other(store: &Store, me: Who, holder: Option<Who>) -> bool
    requires live { Each (IsLive store.now) holder }
    ensures { result ≡ objects.holds (λ to. not (leads_to (place (path store.now) me) to)) (holder_by (path store.now) holder) }
{
    holder.is_some() && !is_holder(store, me, holder)
}

/// The stage sets the holder of a space, and is done.
fn sets(space: Who, holder: Option<Who>) -> Verdict
    ensures { result ≡ Verdict.Done (Plan.One (Deed.Holds space holder)) Answers.Nothing }
{
    Verdict::Done(Plan::One(Deed::Holds { space, holder }), Answers::Nothing)
}

/// It waits while another thread holds the space, or a porter a space beneath it.
fn holds(store: &Store, caller: Caller, inner: Inner) -> Verdict
    requires live { IsLive store.now caller.who }
    requires holder { Each (IsLive store.now) inner.holder }
    requires held { holder_of ((world store.now).body (place (path store.now) inner.object)) ≡ holder_by (path store.now) inner.holder }
    requires space { IsSpace store.now inner.space }
    requires home { path store.now inner.space ≡ place (path store.now) inner.object }
    ensures outcome { (words : List ℕ) → let c = caller_by (path store.now) caller words in
        let me = place (path store.now) caller.who in
        let x = place (path store.now) inner.object in
        outcome_by (world store.now) (path store.now) c result
        ≡ when (may_hold (world store.now) me x) (done c (Alter x (SetHolder (Some (At me))) ∷ []) []) }
    ensures fits { IsVerdict store.now caller result }
    ensures sure { IsSureVerdict result }
{
    if is_held_by_other(store, caller.who, inner.holder) || has_porter_beneath(store, inner.space) {
        return Verdict::Waits;
    }
    sets(inner.object, Some(caller.who))
}

/// The caller holds a space, which isn't its own and not above it.
///
/// # Errors
///
/// The status of the first refusal: its place (BADHANDLE, WRONGKIND, NULLREF, DEAD); the slot (BADHANDLE, WRONGKIND); HELD, where the place is frozen for the
/// caller; DENIED, for the caller's space or one above it.
#[tactic(auto, unfolding(fk_model::specs::SpaceRows::space_hold))]
pub fn space_hold(store: &Store, caller: Caller, s: u64, x: u64) -> Result<Verdict, u8>
    requires space { IsSpace store.now caller.who.space }
    requires live { IsLive store.now caller.who }
    ensures row { Judges store.now caller result (λ w c. rows.space_hold w c s x) }
    ensures sure { IfOk result IsSureVerdict }
{
    let space = place(store, caller, s)?;
    let inner = space_in(store, caller, space, x)?;
    if store.space_frozen_for(caller.who, space) {
        return Err(HELD);
    }
    if is_within(store, caller.who.space, inner.space) {
        return Err(DENIED);
    }
    Ok(holds(store, caller, inner))
}

/// The caller no longer holds a space.
///
/// # Errors
///
/// The status of the first refusal: its place (BADHANDLE, WRONGKIND, NULLREF, DEAD); the slot (BADHANDLE, WRONGKIND); HELD, where the place is frozen for the
/// caller; DENIED, for another than its holder.
#[tactic(auto, unfolding(fk_model::specs::SpaceRows::space_release))]
pub fn space_release(store: &Store, caller: Caller, s: u64, x: u64) -> Result<Verdict, u8>
    requires space { IsSpace store.now caller.who.space }
    ensures row { Judges store.now caller result (λ w c. rows.space_release w c s x) }
    ensures sure { IfOk result IsSureVerdict }
{
    let space = place(store, caller, s)?;
    let inner = space_in(store, caller, space, x)?;
    if store.space_frozen_for(caller.who, space) {
        return Err(HELD);
    }
    if !is_holder(store, caller.who, inner.holder) {
        return Err(DENIED);
    }
    Ok(sets(inner.object, None))
}

/// A thread to which a reference leads holds a space.
///
/// # Errors
///
/// The status of the first refusal: its place (BADHANDLE, WRONGKIND, NULLREF, DEAD); the slot (BADHANDLE, WRONGKIND); the reference to the thread (BADHANDLE,
/// WRONGKIND, NULLREF, DEAD); HELD.
#[tactic(auto, unfolding(fk_model::specs::SpaceRows::hold_set))]
pub fn hold_set(store: &Store, caller: Caller, s: u64, x: u64, thread: u64) -> Result<Verdict, u8>
    requires space { IsSpace store.now caller.who.space }
    ensures row { Judges store.now caller result (λ w c. rows.hold_set w c s x thread) }
    ensures sure { IfOk result IsSureVerdict }
{
    let space = place(store, caller, s)?;
    let inner = space_in(store, caller, space, x)?;
    let holder = referred(store, caller, Kind::Thread, thread)?;
    if store.frozen_for(caller.who, inner.object) {
        return Err(HELD);
    }
    Ok(sets(inner.object, Some(holder)))
}

/// A new space in an empty slot of the caller's own, which the caller holds.
///
/// # Errors
///
/// The status of the first refusal: the slot (BADHANDLE); OCCUPIED.
#[tactic(auto, unfolding(fk_model::specs::SpaceRows::space_make_held))]
pub fn space_make_held(store: &Store, caller: Caller, x: u64) -> Result<Verdict, u8>
    requires space { IsSpace store.now caller.who.space }
    requires live { IsLive store.now caller.who }
    ensures { Judges store.now caller result (λ w c. rows.space_make_held w c x) }
{
    let slot = slot_for(caller, x)?;
    let space = caller.who.space;
    let object = Who { space, slot };
    if store.at(object).is_some() {
        return Err(OCCUPIED);
    }
    let holder = caller.who;
    Ok(Verdict::Done(Plan::MakesHeld { object, holder }, Answers::Nothing))
}
