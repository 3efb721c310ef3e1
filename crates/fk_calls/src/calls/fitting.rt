//! Which moves are fit.
ghost use Rattle.std.specs.Prelude.{◌≡◌, ◌&&◌, List, ℕ, length};
ghost use Rattle.fk_model.specs.FaultRows.{named_taker};
ghost use Rattle.fk_model.specs.Places.Ptr.{At};
ghost use Rattle.fk_model.specs.Readers as readers;
ghost use Rattle.fk_model.specs.Valid as valid;
ghost use Rattle.fk_model.specs.declared.names.Kind.TheVariants as kinds;
ghost use Rattle.fk_store.specs.Store.Paths.{path, place};
ghost use Rattle.fk_store.specs.Store.World.{world, IsLive};
ghost use Rattle.fk_plans.specs.Plans.Plans.{caller_by};
ghost use Rattle.fk_calls.specs.Calls.Judgements.{is_fit_move};

use fk_changes::readers::{Caller, is_in, referred};
use fk_model::limits::{MOST_MOVED, OWN_SPACE, PAGES};
use fk_model::{Ask, Kind, Move, Stage, Who};
use fk_store::Store;

/// The words say whose turn it is, and how many words were moved, in range.
fn are_talk_words(given: &[u64]) -> bool
    requires long { length given.now ≡ 64 }
    ensures { result ≡ valid.are_talk_words given.now }
{
    match given[0] {
        1 | 2 => given[1] <= MOST_MOVED,
        _ => false,
    }
}

/// The words say a page, and 1 for a write, in range.
fn are_fault_words(given: &[u64]) -> bool
    requires long { length given.now ≡ 64 }
    ensures { result ≡ valid.are_fault_words given.now }
{
    if given[0] >= PAGES {
        return false;
    }
    given[1] <= 1
}

/// A thread lives in the space of a port, and serves nobody.
fn is_idle_near(store: &Store, port: Who, server: Who) -> bool
    requires live { IsLive store.now server }
    ensures { result ≡ valid.is_idle_near (world store.now) (At (place (path store.now) port)) (At (place (path store.now) server)) }
{
    if !is_in(store, server, port.space) {
        return false;
    }
    store.served_by(server).is_none()
}

/// A thread may serve at a port, where references lead to both.
fn may_serve(store: &Store, caller: Caller, port: u64, server: u64) -> bool
    ensures { (words : List ℕ) → let c = caller_by (path store.now) caller words in
        result ≡ valid.both_idle (world store.now) (readers.referred (world store.now) c kinds.Port port) (valid.server_named (world store.now) c server) }
{
    let Ok(port) = referred(store, caller, Kind::Port, port) else {
        return true;
    };
    match referred(store, caller, Kind::Thread, server) {
        Ok(server) => is_idle_near(store, port, server),
        Err(_) => true,
    }
}

/// The taker of a fault on a port may serve there: nobody, or a thread, where references lead to both.
fn may_take(store: &Store, caller: Caller, port: u64, taker: u64) -> bool
    ensures { (words : List ℕ) → let c = caller_by (path store.now) caller words in
        result ≡ valid.both_idle (world store.now) (readers.referred (world store.now) c kinds.Port port) (named_taker (world store.now) c taker) }
{
    if taker == OWN_SPACE {
        return true;
    }
    may_serve(store, caller, port, taker)
}

/// Both hold.
fn both(a: bool, b: bool) -> bool
    ensures { result ≡ (a && b) }
{
    a && b
}

/// What a porter asks for with these words is fit.
fn is_fit_stage(store: &Store, caller: Caller, given: &[u64], stage: &Stage) -> bool
    requires long { length given.now ≡ 64 }
    ensures { result ≡ valid.is_fit_stage (world store.now) (caller_by (path store.now) caller given.now) stage.now }
{
    match *stage {
        Stage::LinkSet { port, server, .. } => {
            both(
                are_talk_words(given),
                may_serve(store, caller, port, server),
            )
        }
        Stage::LinkPark { .. } => are_talk_words(given),
        Stage::FaultSet { port, taker, .. } => {
            both(are_fault_words(given), may_take(store, caller, port, taker))
        }
        Stage::FaultPark { taken, .. } => both(are_fault_words(given), taken <= 1),
        _ => true,
    }
}

/// Whether a move is fit. All are but those of porters that make a talk or a fault again with words
/// out of range, or with a server that serves already or doesn't live in the port's space.
#[tactic(auto, unfolding(fk_model::specs::Valid::is_fit))]
pub fn is_fit(store: &Store, m: &Move, ask: &Ask) -> bool
    ensures { result ≡ is_fit_move store.now m.now ask.now }
{
    match ask {
        Ask::Call { stage, words } => {
            let caller = Caller {
                who: m.who,
                is_porter: true,
            };
            is_fit_stage(store, caller, words, stage)
        }
        Ask::Run | Ask::Accept | Ask::Give { .. } | Ask::Over => true,
    }
}
