//! Spaces beneath others that porters hold.
ghost use Rattle.std.specs.Prelude.{◌≡◌, ◌<◌, ℕ, IsTrue, IsSome, true, false};
ghost use Rattle.std.specs.List.{list_any};
ghost use Rattle.fk_model.proofs.walks.Members.{IsIn};
ghost use Rattle.fk_model.specs.Holds.{holder_of, is_porter};
ghost use Rattle.fk_model.specs.Objects.{Thread, holds};
ghost use Rattle.fk_model.specs.Places.{Path};
ghost use Rattle.fk_model.specs.Places.Ptr.{At};
ghost use Rattle.fk_model.specs.Searches.{beneath};
ghost use Rattle.fk_model.specs.SpaceRows as rows;
ghost use Rattle.fk_model.specs.Talks.{thread_led_to};
ghost use Rattle.fk_store.specs.Store.Paths.{path, place};
ghost use Rattle.fk_store.specs.Store.World.{world, IsLive, IsSpace};
ghost use Rattle.fk_spaces.specs.Sought.{is_sought, is_sought_at};

use fk_changes::readers::is_beneath;
use fk_model::{Body, Mode, Who};
use fk_store::Store;

/// A thread that is there is a porter.
fn is_porter(store: &Store, who: Who) -> bool
    ensures { result ≡ holds (λ (e : Path × Thread). is_porter e.1.mode) (thread_led_to (world store.now) (At (place (path store.now) who))) }
{
    match store.thread(who) {
        Some(thread) => matches!(thread.mode, Mode::Native),
        None => false,
    }
}

/// An object is a space that a porter holds.
fn has_porter(store: &Store, who: Who) -> bool
    ensures porter { result ≡ rows.has_porter (world store.now) (place (path store.now) who) }
    ensures live { IsTrue result → IsLive store.now who }
{
    match store.at(who) {
        Some(
            Body::Space {
                holder: Some(holder),
                ..
            },
        ) => is_porter(store, *holder),
        _ => false,
    }
}

/// An object is a space beneath another one that a porter holds.
fn is_held_there(store: &Store, who: Who, outer: u32) -> bool
    requires space { IsSpace store.now outer }
    ensures { result ≡ is_sought store.now (path store.now outer) who }
{
    has_porter(store, who) && is_beneath(store, who, outer)
}

/// The space with this birth number lies beneath another one, and a porter holds it.
fn is_held_beneath(store: &Store, space: u32, outer: u32) -> bool
    requires outer { IsSpace store.now outer }
    ensures some { result ≡ true → true ≡ list_any (rows.has_porter (world store.now)) (beneath (world store.now) (path store.now outer)) }
    ensures none { result ≡ false → 0 < space → IsSpace store.now space → is_sought_at store.now (path store.now outer) (path store.now space) ≡ false }
{
    match store.home(space) {
        None => false,
        Some(who) => is_held_there(store, who, outer),
    }
}

/// A porter holds a space beneath another one. It looks at spaces that are held alone, and where there was
/// no memory to note these at all spaces.
pub fn has_porter_beneath(store: &Store, outer: u32) -> bool
    requires space { IsSpace store.now outer }
    ensures { result ≡ list_any (rows.has_porter (world store.now)) (beneath (world store.now) (path store.now outer)) }
{
    match store.held() {
        Some(births) => is_any_beneath(store, births, outer),
        None => is_born_beneath(store, outer),
    }
}

/// One of these spaces, which are all that are held, lies beneath another one, and a porter holds it.
fn is_any_beneath(store: &Store, births: &[u32], outer: u32) -> bool
    requires space { IsSpace store.now outer }
    requires all { (x : Path) → IsSome (holder_of ((world store.now).body x))
        → (n : ℕ) × IsIn n births.now × (0 < n) × IsSpace store.now n × (path store.now n ≡ x) }
    ensures { result ≡ list_any (rows.has_porter (world store.now)) (beneath (world store.now) (path store.now outer)) }
{
    for index in 0..births.len() {
        if is_held_beneath(store, births[index], outer) {
            return true;
        }
    }
    false
}

/// A space that has been born lies beneath another one, and a porter holds it.
fn is_born_beneath(store: &Store, outer: u32) -> bool
    requires space { IsSpace store.now outer }
    ensures { result ≡ list_any (rows.has_porter (world store.now)) (beneath (world store.now) (path store.now outer)) }
{
    store.held_births();
    for space in 0..store.next_birth() {
        if is_held_beneath(store, space, outer) {
            return true;
        }
    }
    false
}
