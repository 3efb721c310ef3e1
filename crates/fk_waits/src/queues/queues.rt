//! Queues.
ghost use Rattle.std.specs.Prelude.{◌≡◌, ◌+◌, ◌≤◌, ℕ, List, [], ◌∷◌, ◌++◌};
ghost use Rattle.std.specs.Prelude.{◌≢◌, Some, None, IfOk, OnOk};
ghost use Rattle.std.specs.Bool.{OnTrue, OnFalse};
ghost use Rattle.slab.specs.Slab.{slab_len, HasRoomFor};
ghost use Rattle.fk_waits.specs.Queues.Chains.{IsNoneOf};
ghost use Rattle.fk_waits.specs.Queues.Nodes.{shown_at, IsListed, ShowsAs};
ghost use Rattle.fk_waits.specs.Queues.Places.{first_at, front_of, in_queue, place_at, AllFiled, AreFiled, AreLines, HasLine};
ghost use Rattle.fk_waits.specs.Queues.Places.{HasPlace, IsHead, IsKept, Place, SameHeads, SameRoom, StandsIn, node_in, who_shown};

use crate::queues::lists::{Node, alone, first, join, leave, remove, show};
use fk_model::{NoMemory, Who};
use slab::Slab;
use std::alloc::Global;

/// Each thread has a node in the order, which leads to its node in a queue, and that leads to the queue's head.
#[derive(Drop)]
pub struct Queues {
    order: Slab<Node>,
    lines: Slab<Node>,
    first: usize,
}

/// A node goes last in the list in which it stands.
fn go_last(nodes: &mut Slab<Node>, head: usize, node: usize)
    requires { StandsIn nodes.old head node }
    ensures shown { ShowsAs nodes.old nodes.new }
    ensures last { (l k : List ℕ) → IsListed nodes.old head (l ++ node ∷ k) → IsListed nodes.new head ((l ++ k) ++ node ∷ []) }
{
    leave(nodes, node);
    join(nodes, head, node);
}

/// A thread's node leaves its queue, for it belongs to another one. Tells which one it leaves, by its head.
fn turn_from(lines: &mut Slab<Node>, node: usize, who: Who, head: usize) -> usize
    requires { HasLine lines.old node }
    ensures left { result ≡ node_in (shown_at lines.old node) }
    ensures len { slab_len lines.new ≡ slab_len lines.old }
    ensures capacity { lines.new.capacity ≡ lines.old.capacity }
    ensures shown { shown_at lines.new node ≡ Some (who, head) }
    ensures others { (m : ℕ) → m ≢ node → shown_at lines.new m ≡ shown_at lines.old m }
    ensures lines { (order : _) (a b : List Place) (p : Place) → AllFiled order lines.old (a ++ p ∷ b) → AreLines lines.old (a ++ p ∷ b) → p.node ≡ node
        → (h : ℕ) → IsHead lines.old h → IsListed lines.new h (in_queue h (a ++ b)) }
{
    let left = leave(lines, node);
    show(lines, node, who, head);
    left
}

/// A node leaves its list, and goes.
fn take_out(nodes: &mut Slab<Node>, head: usize, node: usize)
    requires { StandsIn nodes.old head node }
    ensures len { slab_len nodes.new + 1 ≡ slab_len nodes.old }
    ensures capacity { nodes.new.capacity ≡ nodes.old.capacity }
    ensures others { (m : ℕ) → m ≢ node → shown_at nodes.new m ≡ shown_at nodes.old m }
    ensures left { (l k : List ℕ) → IsListed nodes.old head (l ++ node ∷ k) → IsListed nodes.new head (l ++ k) }
{
    leave(nodes, node);
    remove(nodes, node);
}

/// A thread's node leaves its queue, and goes. Tells which queue it was, by its head.
fn leave_line(lines: &mut Slab<Node>, node: usize) -> usize
    requires { HasLine lines.old node }
    ensures left { result ≡ node_in (shown_at lines.old node) }
    ensures len { slab_len lines.new + 1 ≡ slab_len lines.old }
    ensures capacity { lines.new.capacity ≡ lines.old.capacity }
    ensures gone { shown_at lines.new node ≡ None }
    ensures others { (m : ℕ) → m ≢ node → shown_at lines.new m ≡ shown_at lines.old m }
    ensures lines { (order : _) (a b : List Place) (p : Place) → AllFiled order lines.old (a ++ p ∷ b) → AreLines lines.old (a ++ p ∷ b) → p.node ≡ node
        → (h : ℕ) → IsHead lines.old h → IsNoneOf node (h ∷ in_queue h (a ++ b)) → IsListed lines.new h (in_queue h (a ++ b)) }
{
    let left = leave(lines, node);
    remove(lines, node);
    left
}

/// Whom a node shows.
fn who_at(lines: &Slab<Node>, node: usize) -> Option<Who>
    ensures { result ≡ who_shown (shown_at lines.now node) }
{
    Some(lines.get(node)?.who)
}

/// The number that a node shows.
fn number_at(lines: &Slab<Node>, node: usize) -> usize
    ensures { result ≡ node_in (shown_at lines.now node) }
{
    match lines.get(node) {
        Some(node) => node.at,
        None => 0,
    }
}

impl Queues {
    /// No thread and no queue.
    ///
    /// # Errors
    ///
    /// There is no memory for the first node.
    pub fn new(alloc: Global) -> Result<Queues, NoMemory>
        ensures filed { IfOk result (λ q. AreFiled q []) }
        ensures order { IfOk result (λ q. slab_len q.order ≡ 1) }
        ensures lines { IfOk result (λ q. slab_len q.lines ≡ 0) }
        ensures heads { IfOk result (λ q. (h : ℕ) → shown_at q.lines h ≡ None) }
    {
        let mut order = Slab::new(alloc);
        if order.reserve(1).is_err() {
            return Err(NoMemory);
        }
        let first = alone(&mut order, Who { space: 0, slot: 0 }, 0);
        Ok(Queues {
            order,
            lines: Slab::new(alloc),
            first,
        })
    }

    /// Makes room for so many more threads, and so many more threads and queues together. For want of memory all stands as it did.
    ///
    /// # Errors
    ///
    /// There is no memory for them.
    pub fn reserve(&mut self, threads: usize, all: usize) -> Result<(), NoMemory>
        ensures order { OnOk result (HasRoomFor self.new.order threads) }
        ensures lines { OnOk result (HasRoomFor self.new.lines all) }
        ensures kept { (l : List Place) → AreFiled self.old l → AreFiled self.new l }
        ensures shown { (h : ℕ) → shown_at self.new.lines h ≡ shown_at self.old.lines h }
        ensures len { (slab_len self.new.order ≡ slab_len self.old.order) × (slab_len self.new.lines ≡ slab_len self.old.lines) }
        ensures room { (self.old.order.capacity ≤ self.new.order.capacity) × (self.old.lines.capacity ≤ self.new.lines.capacity) }
    {
        if self.order.reserve(threads).is_err() {
            return Err(NoMemory);
        }
        match self.lines.reserve(all) {
            Ok(()) => Ok(()),
            Err(_) => Err(NoMemory),
        }
    }

    /// A new queue with a name.
    pub fn open(&mut self, name: Who) -> usize
        requires { HasRoomFor self.old.lines 1 }
        ensures new { shown_at self.old.lines result ≡ None }
        ensures head { shown_at self.new.lines result ≡ Some (name, result) }
        ensures others { (m : ℕ) → m ≢ result → shown_at self.new.lines m ≡ shown_at self.old.lines m }
        ensures kept { (l : List Place) → AreFiled self.old l → AreFiled self.new l }
        ensures len { (slab_len self.new.order ≡ slab_len self.old.order) × (slab_len self.new.lines ≡ slab_len self.old.lines + 1) }
        ensures room { SameRoom self.old self.new }
    {
        let head = alone(&mut self.lines, name, 0);
        show(&mut self.lines, head, name, head);
        head
    }

    /// A thread comes, last of all and last in a queue.
    pub fn enter(&mut self, who: Who, head: usize) -> usize
        requires order { HasRoomFor self.old.order 1 }
        requires lines { HasRoomFor self.old.lines 1 }
        requires head { IsHead self.old.lines head }
        requires kept { IsKept self.old }
        ensures filed { (l : List Place) → AreFiled self.old l
            → AreFiled self.new (l ++ record { key = result; node = node_in (shown_at self.new.order result); who = who; head = head } ∷ []) }
        ensures heads { SameHeads self.old.lines self.new.lines }
        ensures len { (slab_len self.new.order ≡ slab_len self.old.order + 1) × (slab_len self.new.lines ≡ slab_len self.old.lines + 1) }
        ensures room { SameRoom self.old self.new }
    {
        let node = alone(&mut self.lines, who, head);
        join(&mut self.lines, head, node);
        let key = alone(&mut self.order, who, node);
        join(&mut self.order, self.first, key);
        key
    }

    /// The thread with a node in the order goes last, and last in a queue. Tells in which queue it stood, by its head.
    pub fn turn(&mut self, key: usize, head: usize) -> usize
        requires place { HasPlace self.old key }
        requires head { IsHead self.old.lines head }
        ensures left { result ≡ (place_at self.old key).head }
        ensures filed { (a b : List Place) (p : Place) → AreFiled self.old (a ++ p ∷ b) → p.key ≡ key
            → AreFiled self.new ((a ++ b) ++ record p { head = head } ∷ []) }
        ensures heads { SameHeads self.old.lines self.new.lines }
        ensures len { (slab_len self.new.order ≡ slab_len self.old.order) × (slab_len self.new.lines ≡ slab_len self.old.lines) }
        ensures room { SameRoom self.old self.new }
    {
        let Some(place) = self.order.get(key) else {
            unreachable!()
        };
        let node = place.at;
        let who = place.who;
        go_last(&mut self.order, self.first, key);
        let left = turn_from(&mut self.lines, node, who, head);
        join(&mut self.lines, head, node);
        left
    }

    /// The thread with a node in the order goes. Tells in which queue it stood, by its head.
    pub fn leave(&mut self, key: usize) -> usize
        requires { HasPlace self.old key }
        ensures left { result ≡ (place_at self.old key).head }
        ensures filed { (a b : List Place) (p : Place) → AreFiled self.old (a ++ p ∷ b) → p.key ≡ key → AreFiled self.new (a ++ b) }
        ensures heads { SameHeads self.old.lines self.new.lines }
        ensures len { (slab_len self.new.order + 1 ≡ slab_len self.old.order) × (slab_len self.new.lines + 1 ≡ slab_len self.old.lines) }
        ensures room { SameRoom self.old self.new }
    {
        let Some(place) = self.order.get(key) else {
            unreachable!()
        };
        let node = place.at;
        take_out(&mut self.order, self.first, key);
        leave_line(&mut self.lines, node)
    }

    /// Who is first in a queue.
    pub fn first(&self, head: usize) -> Option<Who>
        requires head { IsHead self.now.lines head }
        ensures { (l : List Place) → AreFiled self.now l → result ≡ first_at head l }
    {
        match first(&self.lines, head) {
            Some(node) => who_at(&self.lines, node),
            None => None,
        }
    }

    /// Nobody stands in a queue.
    pub fn is_empty(&self, head: usize) -> bool
        requires { IsHead self.now.lines head }
        ensures none { OnTrue result ((l : List Place) → AreFiled self.now l → first_at head l ≡ None) }
        ensures some { OnFalse result ((l : List Place) → AreFiled self.now l → first_at head l ≢ None) }
    {
        match self.first(head) {
            Some(_) => false,
            None => true,
        }
    }

    /// Who stands behind the thread with a node in the order, in its queue. It is a hint: nothing is said of it.
    pub fn behind(&self, key: usize) -> Option<Who> {
        let node = self.order.get(key)?.at;
        let next = self.lines.get(node)?.next;
        let place = self.lines.get(next)?;
        // A queue's head leads to itself.
        if place.at == next {
            None
        } else {
            Some(place.who)
        }
    }

    /// Who is first of all.
    pub fn front(&self) -> Option<Who>
        ensures { (l : List Place) → AreFiled self.now l → result ≡ front_of l }
    {
        match first(&self.order, self.first) {
            Some(node) => who_at(&self.order, node),
            None => None,
        }
    }

    /// The thread with a node in the order has another name, and stands where it stood.
    pub fn rename_thread(&mut self, key: usize, who: Who)
        requires { HasPlace self.old key }
        ensures filed { (a b : List Place) (p : Place) → AreFiled self.old (a ++ p ∷ b) → p.key ≡ key
            → AreFiled self.new (a ++ record p { who = who } ∷ b) }
        ensures heads { SameHeads self.old.lines self.new.lines }
        ensures len { (slab_len self.new.order ≡ slab_len self.old.order) × (slab_len self.new.lines ≡ slab_len self.old.lines) }
        ensures room { SameRoom self.old self.new }
    {
        let Some(place) = self.order.get(key) else {
            unreachable!()
        };
        let node = place.at;
        let head = number_at(&self.lines, node);
        show(&mut self.order, key, who, node);
        show(&mut self.lines, node, who, head);
    }

    /// A queue has another name.
    pub fn rename_queue(&mut self, head: usize, name: Who)
        requires { IsHead self.old.lines head }
        ensures head { shown_at self.new.lines head ≡ Some (name, head) }
        ensures others { (m : ℕ) → m ≢ head → shown_at self.new.lines m ≡ shown_at self.old.lines m }
        ensures kept { (l : List Place) → AreFiled self.old l → AreFiled self.new l }
        ensures len { (slab_len self.new.order ≡ slab_len self.old.order) × (slab_len self.new.lines ≡ slab_len self.old.lines) }
        ensures room { SameRoom self.old self.new }
    {
        show(&mut self.lines, head, name, head);
    }

    /// A queue goes, in which nobody stands.
    pub fn close(&mut self, head: usize)
        requires { IsHead self.old.lines head }
        ensures gone { shown_at self.new.lines head ≡ None }
        ensures others { (m : ℕ) → m ≢ head → shown_at self.new.lines m ≡ shown_at self.old.lines m }
        ensures kept { (l : List Place) → AreFiled self.old l → in_queue head l ≡ [] → AreFiled self.new l }
        ensures len { (slab_len self.new.order ≡ slab_len self.old.order) × (slab_len self.new.lines + 1 ≡ slab_len self.old.lines) }
        ensures room { SameRoom self.old self.new }
    {
        remove(&mut self.lines, head);
    }
}
