//! The stage that says where an object lies.
ghost use Rattle.std.specs.Prelude.{◌≡◌, [], ◌∷◌, IfOk, option_map};
ghost use Rattle.fk_model.specs.ObjectRows as rows;
ghost use Rattle.fk_model.specs.Places.{Path, same_path};
ghost use Rattle.fk_model.specs.Places.Ptr.{At};
ghost use Rattle.fk_model.specs.Readers as readers;
ghost use Rattle.fk_store.specs.Store.Bodies.{pointer_by};
ghost use Rattle.fk_store.specs.Store.Named.{OnPointer};
ghost use Rattle.fk_store.specs.Store.Paths.{path, place};
ghost use Rattle.fk_store.specs.Store.Threads.{todo_at};
ghost use Rattle.fk_store.specs.Store.World.{world, IsLive, IsSpace};
ghost use Rattle.fk_changes.specs.Threads.Answers.{LeaveArguments};
ghost use Rattle.fk_plans.specs.Plans.Verdicts.{Judges, IsSureVerdict, mapped};

use fk_changes::readers::{Caller, above, kind_number, place, reference_in};
use fk_changes::threads::Answers;
use fk_model::limits::OWN_SPACE;
use fk_model::status::{DEAD, NONE, NULLREF};
use fk_model::{Ptr, Who};
use fk_plans::{Plan, Verdict};
use fk_store::Store;

/// The object to which a pointer leads.
fn target_of(store: &Store, to: Ptr) -> Result<Who, u8>
    requires live { OnPointer (IsLive store.now) to }
    ensures target { mapped (λ who. At (place (path store.now) who)) result ≡ rows.target_of (pointer_by (path store.now) to) }
    ensures live { IfOk result (IsLive store.now) }
{
    match to {
        Ptr::Null => Err(NULLREF),
        Ptr::Dead => Err(DEAD),
        Ptr::At(who) => Ok(who),
    }
}

/// The number of the kind of an object that is there.
fn kind_at(store: &Store, who: Who) -> u64
    requires { IsLive store.now who }
    ensures { result ≡ rows.kind_number (readers.kind_at (world store.now) (At (place (path store.now) who))) }
{
    match store.at(who) {
        Some(body) => kind_number(body),
        None => unreachable!(),
    }
}

/// An object is the space with this birth number.
fn is_space(store: &Store, object: Who, space: u32) -> bool
    requires live { IsLive store.now object }
    requires space { IsSpace store.now space }
    ensures { result ≡ same_path (place (path store.now) object) (path store.now space) }
{
    if store.at(object).is_none() {
        unreachable!();
    }
    match store.home(space) {
        Some(who) => who == object,
        None => false,
    }
}

/// The slot of a space in which an object stands, or something above it, and 1 where it is the latter.
/// The space itself is 256. Nothing where the object stands elsewhere.
fn way_to(store: &Store, space: u32, object: Who) -> Option<(u64, u64)>
    requires space { IsSpace store.now space }
    requires live { IsLive store.now object }
    ensures { option_map (λ way. way.0 ∷ way.1 ∷ []) result ≡ rows.way_to (path store.now space) (At (place (path store.now) object)) }
{
    if is_space(store, object, space) {
        return Some((OWN_SPACE, 0));
    }
    let mut at = object;
    let mut deep = 0;
    while at.space != space {
        at = above(store, at)?;
        deep = 1;
    }
    Some((u64::from(at.slot), deep))
}

/// Where in or beneath a space the object lies to which a reference leads, and its kind.
///
/// # Errors
///
/// The status of the first refusal: the reference (BADHANDLE, WRONGKIND); its place (BADHANDLE, WRONGKIND, NULLREF, DEAD); NULLREF or DEAD, where the
/// reference leads nowhere or to what was destroyed; NONE, where that lies elsewhere.
#[tactic(auto, unfolding(fk_model::specs::ObjectRows::locate, fk_model::specs::World::apply_all))]
pub fn locate(store: &Store, caller: Caller, reference: u64, s: u64) -> Result<Verdict, u8>
    requires space { IsSpace store.now caller.who.space }
    requires apart { (answers : Answers) → LeaveArguments answers (todo_at (world store.now) (place (path store.now) caller.who)) }
    ensures row { Judges store.now caller result (λ w c. rows.locate w c reference s) }
    ensures sure { IfOk result IsSureVerdict }
{
    let to = reference_in(store, caller, caller.who.space, reference)?;
    let space = place(store, caller, s)?;
    let object = target_of(store, to)?;
    match way_to(store, space, object) {
        Some((slot, deep)) => {
            let kind = kind_at(store, object);
            Ok(Verdict::Done(Plan::Nothing, Answers::Three(slot, deep, kind)))
        }
        None => Err(NONE),
    }
}
