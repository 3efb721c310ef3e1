//! The stage that waits for a server.
ghost use Rattle.std.specs.Prelude.{◌≡◌, is_some, IfOk};
ghost use Rattle.fk_model.specs.LinkRows as rows;
ghost use Rattle.fk_model.specs.Searches.{talk_at};
ghost use Rattle.fk_store.specs.Store.Paths.{path, place};
ghost use Rattle.fk_store.specs.Store.World.{world};
ghost use Rattle.fk_plans.specs.Plans.Verdicts.{IsSureVerdict, Judges};

use fk_changes::readers::{Caller, handle};
use fk_model::status::LINKED;
use fk_model::{Kind, Who};
use fk_plans::Verdict;
use fk_store::Store;

/// A thread is in a talk as a client.
fn is_linked(store: &Store, who: Who) -> bool
    ensures { result ≡ is_some (talk_at (world store.now) (place (path store.now) who)) }
{
    match store.thread(who) {
        Some(thread) => thread.talk.is_some(),
        None => false,
    }
}

/// A client waits at a port for a server to take it. By itself the stage is only refused.
///
/// # Errors
///
/// The status of the first refusal: the port (BADHANDLE, WRONGKIND, NULLREF, DEAD); LINKED, where the caller has a talk as a client.
#[tactic(auto, unfolding(fk_model::specs::LinkRows::connect))]
pub fn connect(store: &Store, caller: Caller, h: u64) -> Result<Verdict, u8>
    ensures row { Judges store.now caller result (λ w c. rows.connect w c h) }
    ensures sure { IfOk result IsSureVerdict }
{
    handle(store, caller, Kind::Port, h)?;
    if is_linked(store, caller.who) {
        return Err(LINKED);
    }
    Ok(Verdict::Waits)
}
