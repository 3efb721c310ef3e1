//! Whom threads and native servers serve.
ghost use Rattle.std.specs.Prelude.{◌≡◌, true, false, find, ◌&&◌, None, Some, IfSome, option_map, is_some};
ghost use Rattle.fk_model.specs.Objects.{Talk, holds, or_else};
ghost use Rattle.fk_model.specs.Places.{Path, leads_to};
ghost use Rattle.fk_model.specs.Searches as searches;
ghost use Rattle.fk_model.specs.Searches.{talk_at, objects};
ghost use Rattle.fk_model.specs.Valid.{IsConsistent};
ghost use Rattle.fk_store.specs.Store.Named.{Each};
ghost use Rattle.fk_store.specs.Store.Parts.{played_at};
ghost use Rattle.fk_store.specs.Store.World.{world, place_of, IsLive};

use crate::store::Store;
use fk_model::Who;
use fk_store_graph::leads::Part;

impl Store {
    /// The client of the talk that a thread serves.
    pub fn client_of(&self, server: Who) -> Option<Who>
        ensures client { IsConsistent (world self.now)
            → option_map (place_of self.now) result ≡ searches.client_of (world self.now) (place_of self.now server) }
        ensures some { is_some result ≡ is_some (searches.client_of (world self.now) (place_of self.now server)) }
        ensures live { Each (IsLive self.now) result }
    {
        self.first(Part::Client(server))
    }

    /// The thread whose fault a thread has taken.
    pub fn faulter_of(&self, taker: Who) -> Option<Who>
        ensures faulter { IsConsistent (world self.now)
            → option_map (place_of self.now) result ≡ searches.faulter_of (world self.now) (place_of self.now taker) }
        ensures some { is_some result ≡ is_some (searches.faulter_of (world self.now) (place_of self.now taker)) }
        ensures live { Each (IsLive self.now) result }
    {
        self.first(Part::Faulter(taker))
    }

    /// The client of the talk that a thread serves, or the thread whose fault it has taken.
    pub fn served_by(&self, server: Who) -> Option<Who>
        ensures served { IsConsistent (world self.now)
            → option_map (place_of self.now) result
            ≡ or_else (searches.client_of (world self.now) (place_of self.now server))
            (searches.faulter_of (world self.now) (place_of self.now server)) }
        ensures some { is_some result ≡ searches.is_serving (world self.now) (place_of self.now server) }
        ensures live { Each (IsLive self.now) result }
    {
        self.client_of(server).or(self.faulter_of(server))
    }

    /// The client of a port's native server.
    pub fn client_at(&self, port: Who) -> Option<Who>
        ensures client { IsConsistent (world self.now)
            → option_map (place_of self.now) result ≡ searches.client_at (world self.now) (place_of self.now port) }
        ensures some { is_some result ≡ is_some (searches.client_at (world self.now) (place_of self.now port)) }
        ensures live { Each (IsLive self.now) result }
    {
        self.first(Part::Guest(port))
    }

    /// Somebody who plays a part.
    fn first(&self, part: Part) -> Option<Who>
        ensures some { is_some result ≡ is_some (find (played_at self.now part) (objects (world self.now))) }
        ensures same { ((x y : Path) → played_at self.now part x ≡ true → played_at self.now part y ≡ true → x ≡ y)
            → option_map (place_of self.now) result ≡ find (played_at self.now part) (objects (world self.now)) }
        ensures plays { IfSome result (λ who. played_at self.now part (place_of self.now who) ≡ true) }
        ensures nobody { result ≡ None → (x : Path) → played_at self.now part x ≡ false }
        ensures live { Each (IsLive self.now) result }
    {
        let _below_2_32 = self.next;
        self.bodies.first(part)
    }
}
