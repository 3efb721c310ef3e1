//! Where objects lead once all are there.
ghost use Rattle.std.specs.Prelude.{◌≡◌, IfSome, map, reverse};
ghost use Rattle.fk_model.specs.Valid.{kind_there};
ghost use Rattle.fk_model.specs.World.{apply_all};
ghost use Rattle.fk_model.specs.World.Change.{Alter};
ghost use Rattle.fk_store.specs.Store.World.{world};
ghost use Rattle.fk_boot.specs.FirstWorld as definitions;
ghost use Rattle.fk_boot.specs.MadeSoFar.{StandsAt, CanAim};

use crate::names::name_of;
use fk_model::{List, Ptr};
use fk_scenario::entries::{ObjectEntry, Spec};
use fk_store::Store;

/// Lets the pointer of an object lead to what stands at a path, where one is given.
#[tactic(auto, using(crate::proofs::Aiming::above_there), unfolding(fk_model::specs::World::apply_all))]
fn point_to(store: &mut Store, object: &[u8], path: &Option<List<u8>>)
    requires object { StandsAt (world store.old) object.now }
    requires path { IfSome path.now (StandsAt (world store.old)) }
    ensures world { world store.new ≡ apply_all (map (Alter (reverse object.now)) (definitions.points_to path.now)) (world store.old) }
    ensures kinds { kind_there (world store.new) ≡ kind_there (world store.old) }
{
    if let Some(path) = path {
        let to = name_of(store, path.as_slice());
        store.point(name_of(store, object), Ptr::At(to));
    }
}

/// Puts a port into the port set in a slot of its space, where one is given.
#[tactic(auto, using(crate::proofs::Aiming::above_there), unfolding(fk_model::specs::World::apply_all))]
fn put_into(store: &mut Store, port: &[u8], set: Option<u8>)
    requires { StandsAt (world store.old) port.now }
    ensures world { world store.new ≡ apply_all (map (Alter (reverse port.now)) (definitions.belongs_to set)) (world store.old) }
    ensures kinds { kind_there (world store.new) ≡ kind_there (world store.old) }
{
    if set.is_some() {
        store.set_member(name_of(store, port), set);
    }
}

/// Lets an object lead where its entry says.
#[tactic(auto, unfolding(fk_model::specs::World::apply_all))]
pub fn aim_object(store: &mut Store, object: &ObjectEntry)
    requires { CanAim (world store.old) object.now }
    ensures world { world store.new ≡ apply_all (definitions.aim_changes object.now) (world store.old) }
    ensures kinds { kind_there (world store.new) ≡ kind_there (world store.old) }
{
    let place = object.path.as_slice();
    match &object.spec {
        Spec::Mapping { region, .. } => point_to(store, place, region),
        Spec::Region { keeper, .. } => point_to(store, place, keeper),
        Spec::Reference { to } => point_to(store, place, to),
        Spec::Port { set } => put_into(store, place, *set),
        Spec::Thread { .. } | Spec::Mutex { .. } | Spec::Cond | Spec::Portset => {}
    }
}
