//! A walk along the ring of an object.
ghost use Rattle.std.specs.Prelude.{◌≡◌, ◌<◌, ◌≤◌, [], ◌∷◌, length, ℕ, IfSome, None};
ghost use Rattle.fk_store_graph.specs.Links.Links.{next_at, AreLinked};
ghost use Rattle.fk_store_graph.specs.Links.Walks.{walked};

use crate::links::links::{Link, next_of};
use std::marker::Model;

/// The pointers that lead to an object, one after another.
#[derive(Drop)]
pub struct Walk<'a> {
    links: &'a Vec<Link>,
    head: u32,
    node: u32,
    /// How many steps are left. No ring has more nodes than there are.
    left: usize,
}

impl<'a> Model for Walk<'a> {
    ghost use Rattle.std.specs.Prelude.{List, ℕ, ◌<◌, length};
    ghost use Rattle.fk_store_graph.specs.Links.Links.{next_at, AreLinked};
    ghost use Rattle.fk_store_graph.specs.Links.Walks.{walked};

    ghost Value = { List ℕ };

    ghost view = { λ s. walked s.left (next_at s.links.now.items) s.head s.node };

    ghost invariant = { λ s. AreLinked s.links.now.items × (s.node < length s.links.now.items) };
}

impl<'a> Walk<'a> {
    /// From this node on to this head.
    pub(crate) fn new(links: &'a Vec<Link>, head: u32, node: u32) -> Walk<'a>
        requires linked { AreLinked links.now.items }
        requires there { node < length links.now.items }
        ensures { result ≡ walked (length links.now.items) (next_at links.now.items) head node }
    {
        Walk {
            links,
            head,
            node,
            left: links.len(),
        }
    }

    /// The next one; none where no more come.
    #[inline]
    pub fn next(&mut self) -> Option<u32>
        ensures some { IfSome result (λ node. self.old ≡ node ∷ self.new) }
        ensures none { result ≡ None → (self.old ≡ []) × (self.new ≡ []) }
    {
        if self.left == 0 || self.node == self.head {
            return None;
        }
        let node = self.node;
        self.node = next_of(self.links, node);
        self.left -= 1;
        Some(node)
    }
}
