//! Rings of nodes, doubly linked.
ghost use Rattle.std.specs.Prelude.{◌≡◌, ◌≢◌, ◌<◌, ◌≤◌, ◌+◌, ◌*◌, ℕ, true, false, [], length, OnOk, IfSome, Option, Some, None};
ghost use Rattle.fk_store_graph.specs.Links.Nodes as nodes;
ghost use Rattle.fk_store_graph.specs.Links.Nodes.{is_head};
ghost use Rattle.fk_store_graph.specs.Links.Rings.{put_at};
ghost use Rattle.fk_store_graph.specs.Links.Links.{next_at, prev_at, AreLinked, AreRings, IsWithin};
ghost use Rattle.fk_store_graph.specs.Links.Walks.{AreLeaders};

use crate::links::walk::Walk;
use std::alloc::{AllocError, Global};
use std::marker::Model;

/// A node's neighbours.
#[derive(Clone, Copy)]
pub struct Link {
    next: u32,
    prev: u32,
}

/// The pointers that lead to each object.
#[derive(Drop)]
pub struct Links {
    links: Vec<Link>,
}

impl Model for Links {
    ghost use Rattle.std.specs.Prelude.{List};
    ghost use Rattle.fk_store_graph.specs.declared.links.links.Link.{Link};
    ghost use Rattle.fk_store_graph.specs.Links.Links.{AreLinked};

    ghost Value = { List Link };

    ghost view = { λ s. s.links.items };

    ghost invariant = { λ s. AreLinked s.links.items };
}

/// The node of a field of the object under a key.
#[inline]
pub fn node_of(key: u32, field: u8) -> u32
    requires { key * 5 + field < 4294967296 }
    ensures { result ≡ nodes.node_of key field }
{
    key * 5 + field as u32
}

/// The head of the object under a key.
#[inline]
pub fn head_of(key: u32) -> u32
    requires { key * 5 + 2 < 4294967296 }
    ensures { result ≡ nodes.node_of key 2 }
{
    key * 5 + 2
}

impl Links {
    /// No nodes.
    pub fn new(alloc: Global) -> Links
        ensures none { result ≡ [] }
        ensures rings { AreRings result (λ n. None) }
    {
        Links {
            links: Vec::new(alloc),
        }
    }

    /// Makes nodes for a key, each alone. For want of memory there may be more nodes, each alone.
    ///
    /// # Errors
    ///
    /// There is no memory for the nodes.
    pub fn room(&mut self, key: u32) -> Result<(), AllocError>
        requires { key * 5 + 5 < 4294967296 }
        ensures rings { (owner : ℕ → Option ℕ) → AreRings self.old owner → AreRings self.new owner }
        ensures more { length self.old ≤ length self.new }
        ensures long { OnOk result (key * 5 + 5 ≤ length self.new) }
    {
        grow(&mut self.links, key * 5 + 5)
    }

    /// A pointer leads to the object of this head from now on, or nowhere.
    pub fn point(&mut self, node: u32, to: Option<u32>)
        requires node { node < length self.old }
        requires pointer { is_head node ≡ false }
        requires within { (h : ℕ) → to ≡ Some h → h < length self.old }
        requires head { (h : ℕ) → to ≡ Some h → is_head h ≡ true }
        ensures rings { (owner : ℕ → Option ℕ) → AreRings self.old owner → AreRings self.new (put_at owner node to) }
        ensures long { length self.new ≡ length self.old }
    {
        match to {
            None => unlink(&mut self.links, node),
            Some(head) => relink(&mut self.links, node, head),
        }
    }

    /// A pointer that leads to the object of this head, if there is one.
    pub fn first(&self, head: u32) -> Option<u32>
        requires there { head < length self.now }
        requires head { is_head head ≡ true }
        ensures some { IfSome result (λ node. (owner : ℕ → Option ℕ) → AreRings self.now owner → (is_head node ≡ false) × (owner node ≡ Some head)) }
        ensures within { IfSome result (λ node. node < length self.now) }
        ensures none { result ≡ None → (owner : ℕ → Option ℕ) → AreRings self.now owner → (n : ℕ) → is_head n ≡ false → owner n ≢ Some head }
    {
        let node = next_of(&self.links, head);
        if node == head { None } else { Some(node) }
    }

    /// All pointers that lead to the object of this head.
    pub fn walk(&self, head: u32) -> Walk<'_>
        requires there { head < length self.now }
        requires head { is_head head ≡ true }
        ensures all { (owner : ℕ → Option ℕ) → AreRings self.now owner → AreLeaders owner head result }
        ensures few { length result ≤ 4294967296 }
    {
        let node = next_of(&self.links, head);
        Walk::new(&self.links, head, node)
    }
}

/// The node behind this one.
#[inline]
pub(crate) fn next_of(links: &Vec<Link>, node: u32) -> u32
    requires { node < length links.now.items }
    ensures { result ≡ next_at links.now.items node }
{
    links[node as usize].next
}

/// The node before this one.
#[inline]
fn prev_of(links: &Vec<Link>, node: u32) -> u32
    requires { node < length links.now.items }
    ensures { result ≡ prev_at links.now.items node }
{
    links[node as usize].prev
}

#[inline]
fn set_next(links: &mut Vec<Link>, node: u32, to: u32)
    requires { node < length links.old.items }
    ensures next { (n : ℕ) → next_at links.new.items n ≡ put_at (next_at links.old.items) node to n }
    ensures prev { (n : ℕ) → prev_at links.new.items n ≡ prev_at links.old.items n }
    ensures long { length links.new.items ≡ length links.old.items }
{
    links[node as usize].next = to;
}

#[inline]
fn set_prev(links: &mut Vec<Link>, node: u32, to: u32)
    requires { node < length links.old.items }
    ensures next { (n : ℕ) → next_at links.new.items n ≡ next_at links.old.items n }
    ensures prev { (n : ℕ) → prev_at links.new.items n ≡ put_at (prev_at links.old.items) node to n }
    ensures long { length links.new.items ≡ length links.old.items }
{
    links[node as usize].prev = to;
}

/// Takes a pointer out of its ring.
fn unlink(links: &mut Vec<Link>, node: u32)
    requires node { node < length links.old.items }
    requires pointer { is_head node ≡ false }
    requires linked { AreLinked links.old.items }
    ensures linked { AreLinked links.new.items }
    ensures rings { (owner : ℕ → Option ℕ) → AreRings links.old.items owner → AreRings links.new.items (put_at owner node None) }
    ensures alone { next_at links.new.items node ≡ node }
    ensures long { length links.new.items ≡ length links.old.items }
{
    if next_of(links, node) == node {
        return;
    }
    take_out(links, node);
}

/// Takes a pointer out of its ring, and puts it behind a head.
fn relink(links: &mut Vec<Link>, node: u32, head: u32)
    requires node { node < length links.old.items }
    requires pointer { is_head node ≡ false }
    requires within { head < length links.old.items }
    requires head { is_head head ≡ true }
    requires linked { AreLinked links.old.items }
    ensures linked { AreLinked links.new.items }
    ensures rings { (owner : ℕ → Option ℕ) → AreRings links.old.items owner → AreRings links.new.items (put_at owner node (Some head)) }
    ensures long { length links.new.items ≡ length links.old.items }
{
    unlink(links, node);
    put_behind(links, node, head);
}

/// Takes a node out of its ring.
fn take_out(links: &mut Vec<Link>, node: u32)
    requires node { node < length links.old.items }
    requires within { IsWithin links.old.items }
    ensures next { (n : ℕ) → next_at links.new.items n
        ≡ put_at (put_at (next_at links.old.items) (prev_at links.old.items node) (next_at links.old.items node)) node node n }
    ensures prev { (n : ℕ) → prev_at links.new.items n
        ≡ put_at (put_at (prev_at links.old.items) (next_at links.old.items node) (prev_at links.old.items node)) node node n }
    ensures long { length links.new.items ≡ length links.old.items }
{
    let before = prev_of(links, node);
    let behind = next_of(links, node);
    set_next(links, before, behind);
    set_prev(links, behind, before);
    set_next(links, node, node);
    set_prev(links, node, node);
}

/// Puts a node that is alone behind a head.
fn put_behind(links: &mut Vec<Link>, node: u32, head: u32)
    requires node { node < length links.old.items }
    requires head { head < length links.old.items }
    requires behind { next_at links.old.items head < length links.old.items }
    ensures next { (n : ℕ) → next_at links.new.items n
        ≡ put_at (put_at (next_at links.old.items) head node) node (next_at links.old.items head) n }
    ensures prev { (n : ℕ) → prev_at links.new.items n
        ≡ put_at (put_at (prev_at links.old.items) (next_at links.old.items head) node) node head n }
    ensures long { length links.new.items ≡ length links.old.items }
{
    let behind = next_of(links, head);
    set_next(links, head, node);
    set_prev(links, behind, node);
    set_next(links, node, behind);
    set_prev(links, node, head);
}

/// Makes nodes, each alone, up to this number.
fn grow(links: &mut Vec<Link>, nodes: u32) -> Result<(), AllocError>
    ensures next { (n : ℕ) → next_at links.new.items n ≡ next_at links.old.items n }
    ensures prev { (n : ℕ) → prev_at links.new.items n ≡ prev_at links.old.items n }
    ensures more { length links.old.items ≤ length links.new.items }
    ensures long { OnOk result (nodes ≤ length links.new.items) }
    ensures few { length links.old.items ≤ 4294967296 → length links.new.items ≤ 4294967296 }
{
    for node in links.len()..nodes as usize {
        let node = node as u32;
        links.push(Link {
            next: node,
            prev: node,
        })?;
    }
    Ok(())
}
