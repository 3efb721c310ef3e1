//! How many pointers lead to an object.
ghost use Rattle.std.specs.Prelude.{◌≡◌, ◌≢◌, true};
ghost use Rattle.fk_model.specs.declared.names.Who.{Who};
ghost use Rattle.fk_model.specs.Places.{Path};
ghost use Rattle.std.specs.List.{sum_by};
ghost use Rattle.fk_model.specs.Searches.{objects, pointers_to};
ghost use Rattle.fk_model.proofs.walks.Members.{IsIn};
ghost use Rattle.fk_store.specs.Store.World.{world, place_of};

use crate::store::Store;
use fk_model::Who;
use fk_store_graph::bodies::Leaders;

impl Store {
    /// The objects whose pointers lead to an object, one for each pointer. They are all that do, if
    /// it says so at its end.
    pub fn leaders(&self, who: Who) -> Leaders<'_>
        ensures { result.1 ≡ true → (x : Path) → pointers_to (place_of self.now who) ((world self.now).body x) ≢ 0
            → (from : Who) × (place_of self.now from ≡ x) × IsIn from result.0 }
    {
        self.bodies.leaders(who)
    }

    /// How many pointers of all objects lead to an object.
    pub fn pointers_at(&self, who: Who) -> u64
        ensures { result ≡ sum_by (λ x. pointers_to (place_of self.now who) ((world self.now).body x)) (objects (world self.now)) }
    {
        let _below_2_32 = self.next;
        self.bodies.pointers_at(who)
    }
}
