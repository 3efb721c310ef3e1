//! What lies in a space and beneath it.
ghost use Rattle.std.specs.Prelude.{◌≡◌, ◌<◌, true, IfSome, IfNone, IsSome};
ghost use Rattle.std.specs.List.{list_any};
ghost use Rattle.fk_model.specs.Places.{same_path, is_within};
ghost use Rattle.fk_model.specs.Searches.{beneath};
ghost use Rattle.fk_store.specs.Store.Paths.{path, place};
ghost use Rattle.fk_store.specs.Store.World.{world, IsLive, IsSpace};

use fk_model::Who;
use fk_store::Store;

/// The object that is the space in which an object stands; nothing where that is the root.
pub fn above(store: &Store, at: Who) -> Option<Who>
    requires live { IsLive store.now at }
    ensures space { IsSpace store.now at.space }
    ensures some { IfSome result (λ who. IsLive store.now who × (place (path store.now) who ≡ path store.now at.space) × (who.space < at.space)) }
    ensures none { IfNone result (at.space ≡ 0) }
{
    store.at(at)?;
    store.home(at.space)
}

/// An object stands in a space, or beneath it.
pub fn is_beneath(store: &Store, object: Who, outer: u32) -> bool
    requires live { IsLive store.now object }
    requires space { IsSpace store.now outer }
    ensures within { result ≡ is_within (path store.now outer) (path store.now object.space) }
    ensures walked { result ≡ list_any (same_path (place (path store.now) object)) (beneath (world store.now) (path store.now outer)) }
{
    let mut at = object;
    while at.space != outer {
        let _below_256 = at.slot;
        match above(store, at) {
            None => return false,
            Some(higher) => at = higher,
        }
    }
    let _below_256 = at.slot;
    true
}

/// A space is another one, or lies beneath it.
pub fn is_within(store: &Store, inner: u32, outer: u32) -> bool
    requires inner { IsSpace store.now inner }
    requires outer { IsSpace store.now outer }
    ensures { result ≡ is_within (path store.now outer) (path store.now inner) }
{
    if inner == outer {
        return true;
    }
    match store.home(inner) {
        None => false,
        Some(who) => is_beneath(store, who, outer),
    }
}

/// An object, which is there, stands in a space.
pub fn is_in(store: &Store, who: Who, space: u32) -> bool
    ensures same { IsSome ((world store.now).body (place (path store.now) who)) → result ≡ same_path (path store.now who.space) (path store.now space) }
    ensures live { result ≡ true → IsLive store.now (record { space = space; slot = who.slot }) }
{
    store.at(who).is_some() && who.space == space
}
