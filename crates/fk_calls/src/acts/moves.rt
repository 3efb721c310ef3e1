//! Which acts are ready, and making them.
ghost use Rattle.std.specs.Prelude.{◌≡◌, ◌↔◌, true, None, IsTrue, IsSome, IfSome, IfNone};
ghost use Rattle.fk_model.specs.Moves as machine;
ghost use Rattle.fk_model.specs.Moves.{IsReady};
ghost use Rattle.fk_model.specs.Valid.{IsValid};
ghost use Rattle.fk_store.specs.Store.Moves.{picked_by, said_by};
ghost use Rattle.fk_store.specs.Store.Paths.{path, place, HasOwnPath};
ghost use Rattle.fk_store.specs.Store.World.{world, IsLive};
ghost use Rattle.fk_plans.specs.Endings.Clients.{IsEnding};
ghost use Rattle.fk_plans.specs.Plans.Hearers.{IsHeard, IsPadded};
ghost use Rattle.fk_calls.specs.Acts.Acts.{is_act};

use crate::acts::allowing::is_allowed;
use crate::acts::judging::{act_of, given};
use crate::acts::making::{make, said_of};
use fk_model::{Ask, Move, Said, Who};
use fk_store::Store;

/// Whether an act of a native server is ready. The move names its port.
pub fn ready(store: &Store, m: &Move, ask: &Ask) -> bool
    requires valid { IsValid (world store.now) }
    requires act { is_act ask.now ≡ true }
    ensures { IsTrue result ↔ IsReady (world store.now) (place (path store.now) m.now.who) (picked_by (path store.now) m.now.pick) ask.now }
{
    match act_of(store, m, ask) {
        Some(act) => is_allowed(store, m.who, &act),
        None => false,
    }
}

/// Makes an act where it is ready, and gives what it tells; none where it isn't, and then all stays as it
/// is. It takes no memory, and each server that has a client keeps one.
pub fn attempt(store: &mut Store, m: &Move, ask: &Ask) -> Option<Said>
    requires valid { IsValid (world store.old) }
    requires act { is_act ask.now ≡ true }
    ensures ready { IsSome result → IsReady (world store.old) (place (path store.old) m.now.who) (picked_by (path store.old) m.now.pick) ask.now }
    ensures step { IfSome result (λ said. machine.step
        (world store.old) (place (path store.old) m.now.who) (picked_by (path store.old) m.now.pick) ask.now
        ≡ record { world = world store.new; said = said_by (path store.new) said }) }
    ensures heard { IfSome result (λ said. IsHeard (path store.old) (said_by (path store.new) said) said) }
    ensures padded { IfSome result (λ said. IsPadded said) }
    ensures clients { IsSome result → IsEnding (world store.old) (world store.new) None }
    ensures unready { IfNone result
        (IsReady (world store.old) (place (path store.old) m.now.who) (picked_by (path store.old) m.now.pick) ask.now → ⊥) }
    ensures same { IfNone result (store.new ≡ store.old) }
{
    let act = act_of(store, m, ask)?;
    if !is_allowed(store, m.who, &act) {
        return None;
    }
    own_path(store, m.who);
    Some(make(store, m.who, given(ask), &act))
}

/// What an act would tell, where it is ready; none where it isn't. Nothing is made.
pub fn foretell(store: &Store, m: &Move, ask: &Ask) -> Option<Said>
    requires valid { IsValid (world store.now) }
    requires act { is_act ask.now ≡ true }
    ensures ready { IsSome result → IsReady (world store.now) (place (path store.now) m.now.who) (picked_by (path store.now) m.now.pick) ask.now }
    ensures said { IfSome result (λ said. (machine.step
        (world store.now) (place (path store.now) m.now.who) (picked_by (path store.now) m.now.pick) ask.now).said ≡ said_by (path store.now) said) }
    ensures heard { IfSome result (λ said. IsHeard (path store.now) (said_by (path store.now) said) said) }
    ensures clients { IsSome result → IsEnding (world store.now) (machine.step
        (world store.now) (place (path store.now) m.now.who) (picked_by (path store.now) m.now.pick) ask.now).world None }
    ensures unready { IfNone result
        (IsReady (world store.now) (place (path store.now) m.now.who) (picked_by (path store.now) m.now.pick) ask.now → ⊥) }
{
    let act = act_of(store, m, ask)?;
    if !is_allowed(store, m.who, &act) {
        return None;
    }
    own_path(store, m.who);
    Some(said_of(m.who, &act))
}

/// An object that is there has a path of its own.
pub fn own_path(store: &Store, who: Who)
    requires live { IsLive store.now who }
    ensures { HasOwnPath (path store.now) who }
{
    if store.at(who).is_none() {
        unreachable!();
    }
}
