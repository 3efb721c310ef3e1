//! The stage that counts the pointers that lead to an object.
ghost use Rattle.std.specs.Prelude.{◌≡◌, ℕ, List, IfOk};
ghost use Rattle.fk_model.specs.ObjectRows as rows;
ghost use Rattle.fk_store.specs.Store.Paths.{path};
ghost use Rattle.fk_store.specs.Store.World.{world, IsSpace};
ghost use Rattle.fk_plans.specs.Plans.Plans.{caller_by};
ghost use Rattle.fk_plans.specs.Plans.Verdicts.{Judges, IsSureVerdict, mapped};
ghost use Rattle.fk_objects.specs.Targets.{target_by};

use fk_changes::readers::{Caller, object_in, place};
use fk_changes::threads::Answers;
use fk_model::Who;
use fk_model::limits::OWN_SPACE;
use fk_plans::{Plan, Verdict};
use fk_store::Store;

/// The object in a slot of a space; none for 256, which is the space itself.
fn object_or_space(store: &Store, caller: Caller, space: u32, x: u64) -> Result<Option<Who>, u8>
    ensures to { (words : List ℕ) → mapped (target_by (path store.now) space) result
        ≡ rows.object_or_space (world store.now) (caller_by (path store.now) caller words) (path store.now space) x }
{
    if x == OWN_SPACE {
        return Ok(None);
    }
    object_in(store, caller, space, x)?;
    let slot = x as u8;
    Ok(Some(Who { space, slot }))
}

/// How many pointers lead to an object, or else to the space, from outside a base space. A nester's
/// scratch is left out.
fn pointers_to(store: &Store, base: u32, nester: u32, space: u32, to: Option<Who>) -> u64
    requires base { IsSpace store.now base }
    requires nester { IsSpace store.now nester }
    requires space { IsSpace store.now space }
    ensures { result ≡ rows.pointer_count (world store.now) (path store.now base) (path store.now nester) (target_by (path store.now) space to) }
{
    match to {
        None => store.pointers_outside_to_space(base, nester, space),
        Some(who) => store.pointers_outside(base, nester, who),
    }
}

/// How many pointers lead to an object, or to a space, from outside a base space. The scratch of
/// the caller's space is left out.
///
/// # Errors
///
/// The status of the first refusal: the base, then its place (BADHANDLE, WRONGKIND, NULLREF, DEAD); the slot (BADHANDLE).
#[tactic(auto, unfolding(fk_model::specs::ObjectRows::count_in))]
pub fn count_in(store: &Store, caller: Caller, base: u64, s: u64, x: u64) -> Result<Verdict, u8>
    requires space { IsSpace store.now caller.who.space }
    ensures row { Judges store.now caller result (λ w c. rows.count_in w c base s x) }
    ensures sure { IfOk result IsSureVerdict }
{
    let top = place(store, caller, base)?;
    let space = place(store, caller, s)?;
    let to = object_or_space(store, caller, space, x)?;
    let count = pointers_to(store, top, caller.who.space, space, to);
    Ok(Verdict::Done(Plan::Nothing, Answers::One(count)))
}
