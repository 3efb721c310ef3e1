//! What stands in a space.
ghost use Rattle.std.specs.Prelude.{◌≡◌, ◌<◌, ◌≤◌, ◌∷◌, ℕ, None, false, IfSome, option_map};
ghost use Rattle.fk_model.specs.declared.names.Who.{Who};
ghost use Rattle.fk_model.specs.Searches as searches;
ghost use Rattle.fk_store.specs.Store.Names.{at};
ghost use Rattle.fk_store.specs.Store.Paths.{path};
ghost use Rattle.fk_store.specs.Store.World.{world, place_of, IsLive};

use crate::store::Store;
use fk_model::Who;

impl Store {
    /// The lowest taken slot of a space; nothing where all are empty, or no such space is live.
    pub fn first_resident(&self, space: u32) -> Option<u8>
        ensures { result ≡ searches.first_resident (world self.now) (path self.now space) }
    {
        self.bodies.first_in(space)
    }

    /// The first taken slot of a space from a slot on.
    pub fn next_in(&self, space: u32, slot: u16) -> Option<u8>
        ensures some { IfSome result (λ next. (slot ≤ next) × ((k : ℕ) → IsLive self.now (at space k) → slot ≤ k → next ≤ k)) }
        ensures none { result ≡ None → (k : ℕ) → IsLive self.now (at space k) → k < slot }
    {
        self.bodies.next_in(space, slot)
    }

    /// Something stands in an object.
    pub fn has_residents(&self, who: Who) -> bool
        ensures { result ≡ searches.has_residents (world self.now) (place_of self.now who) }
    {
        match self.bodies.birth(who) {
            None => false,
            Some(space) => self.first_resident(space).is_some(),
        }
    }

    /// The first object at or beneath an object, by lowest slots down, in which nothing stands.
    pub fn leaf(&self, who: Who) -> Who
        ensures leaf { place_of self.now result ≡ searches.leaf (world self.now) (place_of self.now who) }
        ensures empty { searches.has_residents (world self.now) (place_of self.now result) ≡ false }
        ensures live { IsLive self.now who → IsLive self.now result }
    {
        let mut at = who;
        for _step in 0..self.next {
            match self.lowest_in(at) {
                None => return at,
                Some(inner) => at = inner,
            }
        }
        at
    }

    /// What stands in the lowest taken slot of an object.
    fn lowest_in(&self, who: Who) -> Option<Who>
        ensures slot { option_map (λ (inner : Who). inner.slot) result
            ≡ searches.first_resident (world self.now) (place_of self.now who) }
        ensures place { IfSome result (λ inner. place_of self.now inner ≡ inner.slot ∷ place_of self.now who) }
        ensures younger { IfSome result (λ inner. (who.space < inner.space) × (inner.space < (world self.now).next)) }
        ensures live { IfSome result (IsLive self.now) }
    {
        match self.bodies.birth(who) {
            None => None,
            Some(space) => match self.first_resident(space) {
                None => None,
                Some(slot) => Some(Who { space, slot }),
            },
        }
    }
}
