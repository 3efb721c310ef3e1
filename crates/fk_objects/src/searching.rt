//! The stage that looks for a taken slot.
ghost use Rattle.std.specs.Prelude.{◌≡◌, ◌≤◌, IfOk};
ghost use Rattle.fk_model.specs.ObjectRows as rows;
ghost use Rattle.fk_model.specs.Searches.{lowest};
ghost use Rattle.fk_model.specs.declared.limits.TheConstants.{SLOTS};
ghost use Rattle.fk_store.specs.Store.Paths.{path, place};
ghost use Rattle.fk_store.specs.Store.Threads.{todo_at};
ghost use Rattle.fk_store.specs.Store.World.{world, IsSpace};
ghost use Rattle.fk_changes.specs.Threads.Answers.{LeaveArguments};
ghost use Rattle.fk_plans.specs.Plans.Verdicts.{Judges, IsSureVerdict};

use fk_changes::readers::{Caller, kind_number, last_slot, place};
use fk_changes::threads::Answers;
use fk_model::Who;
use fk_model::status::NONE;
use fk_plans::{Plan, Verdict};
use fk_store::Store;

/// A slot and the number of the kind there, where it is taken and is one of those from a number on,
/// up to a last one.
fn taken_from(store: &Store, space: u32, last: u64, from: u64, slot: u8) -> Option<(u64, u64)>
    ensures { result ≡ rows.taken_from (world store.now) (path store.now space) last from slot }
{
    let number = u64::from(slot);
    if from > number || number > last {
        return None;
    }
    match store.at(Who { space, slot }) {
        Some(body) => Some((number, kind_number(body))),
        None => None,
    }
}

/// The slot at which a search begins: no lower one is sought.
fn first_slot(from: u64) -> u16
    ensures all { result ≤ 256 }
    ensures low { result ≤ from }
{
    from.min(256) as u16
}

/// The first such slot.
fn first_taken(store: &Store, space: u32, last: u64, from: u64) -> Option<(u64, u64)>
    ensures { result ≡ lowest SLOTS (rows.taken_from (world store.now) (path store.now space) last from) }
{
    for slot in first_slot(from)..256u16 {
        let found = taken_from(store, space, last, from, slot as u8);
        if found.is_some() {
            return found;
        }
    }
    None
}

/// The first taken slot at or above a number, and the number of the kind there. Users see no slot
/// above 239.
///
/// # Errors
///
/// The status of the first refusal: its place (BADHANDLE, WRONGKIND, NULLREF, DEAD); NONE.
#[tactic(auto, unfolding(fk_model::specs::ObjectRows::search, fk_model::specs::World::apply_all))]
pub fn search(store: &Store, caller: Caller, s: u64, from: u64) -> Result<Verdict, u8>
    requires space { IsSpace store.now caller.who.space }
    requires apart { (answers : Answers) → LeaveArguments answers (todo_at (world store.now) (place (path store.now) caller.who)) }
    ensures row { Judges store.now caller result (λ w c. rows.search w c s from) }
    ensures sure { IfOk result IsSureVerdict }
{
    let space = place(store, caller, s)?;
    match first_taken(store, space, last_slot(caller), from) {
        Some((slot, kind)) => Ok(Verdict::Done(Plan::Nothing, Answers::Two(slot, kind))),
        None => Err(NONE),
    }
}
