//! The objects whose pointers lead to one.
ghost use Rattle.std.specs.Prelude.{◌≡◌, ◌<◌, ◌≤◌, ◌*◌, ◌+◌, ℕ, [], ◌∷◌, true, IfSome, Some, None, length};
ghost use Rattle.fk_model.specs.declared.names.Who.{Who};
ghost use Rattle.fk_store_graph.specs.Linked.Links.{AreRings};
ghost use Rattle.fk_store_graph.specs.Linked.Bodied.{owner, names_of, AreNodes, AreLeadersOf};

use crate::links::{Links, Walk, head_of};
use fk_model::Who;
use fk_store_cells::objects::Objects;
use std::marker::Model;

/// The objects whose pointers lead to one, one after another: one for each pointer.
#[derive(Drop)]
pub struct Leaders<'a> {
    objects: &'a Objects,
    /// Nothing where the object isn't there.
    walk: Option<Walk<'a>>,
}

impl<'a> Model for Leaders<'a> {
    ghost use Rattle.std.specs.Prelude.{List, Bool, true};
    ghost use Rattle.fk_model.specs.declared.names.Who.{Who};
    ghost use Rattle.fk_store_graph.specs.Linked.Bodied.{names_under, AreNodes};

    ghost Value = { List Who × Bool };

    ghost view = { λ s. (names_under s.objects.now s.walk, true) };

    ghost invariant = { λ s. AreNodes s.objects.now s.walk };
}

impl<'a> Leaders<'a> {
    /// Those that lead to the object under a key; nobody where there is none.
    pub(crate) fn new(objects: &'a Objects, links: &'a Links, key: Option<u32>) -> Leaders<'a>
        requires small { (k : ℕ) → key ≡ Some k → k < 858993458 }
        requires long { (k : ℕ) → key ≡ Some k → k * 5 + 5 ≤ length links.now }
        requires rings { AreRings links.now (owner objects.now) }
        ensures leaders { AreLeadersOf objects.now key result.0 }
        ensures all { result.1 ≡ true }
        ensures few { length result.0 ≤ 4294967296 }
    {
        match key {
            None => Leaders {
                objects,
                walk: None,
            },
            Some(key) => Leaders {
                objects,
                walk: Some(links.walk(head_of(key))),
            },
        }
    }

    /// The next one; none where no more come.
    pub fn next(&mut self) -> Option<Who>
        ensures some { IfSome result (λ who. self.old.0 ≡ who ∷ self.new.0) }
        ensures none { result ≡ None → (self.old.0 ≡ []) × (self.new.0 ≡ []) }
        ensures all { self.new.1 ≡ self.old.1 }
    {
        match &mut self.walk {
            None => None,
            Some(walk) => next_named(self.objects, walk),
        }
    }

    /// Where no more come, no pointer but those of the objects that came leads there.
    pub fn are_all(&self) -> bool
        requires { self.now.0 ≡ [] }
        ensures { result ≡ self.now.1 }
    {
        let _ = &self.objects;
        true
    }
}

/// The name of the next object of a walk; none where no more come.
fn next_named(objects: &Objects, walk: &mut Walk<'_>) -> Option<Who>
    requires { AreNodes objects.now (Some walk.old) }
    ensures some { IfSome result (λ who. names_of objects.now walk.old ≡ who ∷ names_of objects.now walk.new) }
    ensures none { result ≡ None → (names_of objects.now walk.old ≡ []) × (names_of objects.now walk.new ≡ []) }
    ensures nodes { AreNodes objects.now (Some walk.new) }
{
    let node = walk.next()?;
    let entry = objects.entry(node / 5)?;
    Some(entry.who)
}
