//! How many pointers of one object lead to another.
ghost use Rattle.std.specs.Prelude.{◌≡◌, ◌≤◌};
ghost use Rattle.std.specs.FinMap as map;
ghost use Rattle.fk_store_graph.specs.Linked.Pointers.{body_hits, hits_in};

use crate::bodies::Bodies;
use crate::leads::hits;
use fk_model::Who;

impl Bodies {
    /// How many pointers of an object lead to another, at most 4; none where no object is there.
    pub fn hits(&self, from: Who, to: Who) -> u64
        ensures hits { result ≡ hits_in (body_hits to) (map.get self.now from) }
        ensures few { result ≤ 4 }
    {
        match self.at(from) {
            None => 0,
            Some(body) => hits(to, body),
        }
    }
}
