//! Nodes, and lists of them.
ghost use Rattle.std.specs.Prelude.{◌≡◌, ◌≢◌, ◌+◌, ℕ, List, [], ◌∷◌, ◌++◌, Some, None};
ghost use Rattle.slab.specs.Slab.{get, slab_len, ContainsKey, HasRoomFor};
ghost use Rattle.fk_waits.specs.Queues.Chains.{put_at, IsNoneOf};
ghost use Rattle.fk_waits.specs.Queues.Nodes.{first_of, next_of, prev_of, shown_at, AreDisjoint, IsListed, ShowsAs};
ghost use Rattle.fk_waits.specs.Queues.Places.{node_in};

use fk_model::Who;
use slab::Slab;

/// A node shows a name, and the number of something to which the name belongs. It has a node before it and one behind it;
/// before the first of a list, and behind its last, is the list's head.
#[derive(Clone, Copy)]
pub struct Node {
    pub who: Who,
    pub at: usize,
    pub next: usize,
    pub prev: usize,
}

impl Node {
    /// A node that stands nowhere yet.
    fn new(who: Who, at: usize) -> Node
        ensures { result ≡ record { who = who; at = at; next = 0; prev = 0 } }
    {
        Node {
            who,
            at,
            next: 0,
            prev: 0,
        }
    }
}

/// A new node that shows this, the head of an empty list. It takes no memory.
pub fn alone(nodes: &mut Slab<Node>, who: Who, at: usize) -> usize
    requires { HasRoomFor nodes.old 1 }
    ensures new { get nodes.old result ≡ None }
    ensures shown { shown_at nodes.new result ≡ Some (who, at) }
    ensures others { (m : ℕ) → m ≢ result → shown_at nodes.new m ≡ shown_at nodes.old m }
    ensures list { IsListed nodes.new result [] }
    ensures lists { (h : ℕ) (l : List ℕ) → IsListed nodes.old h l → IsNoneOf result (h ∷ l) → IsListed nodes.new h l }
    ensures len { slab_len nodes.new ≡ slab_len nodes.old + 1 }
    ensures capacity { nodes.new.capacity ≡ nodes.old.capacity }
{
    let key = nodes.insert_reserved(Node::new(who, at));
    link(nodes, key, key);
    key
}

/// A node shows something else.
pub fn show(nodes: &mut Slab<Node>, node: usize, who: Who, at: usize)
    requires { ContainsKey nodes.old node }
    ensures shown { shown_at nodes.new node ≡ Some (who, at) }
    ensures others { (m : ℕ) → m ≢ node → shown_at nodes.new m ≡ shown_at nodes.old m }
    ensures lists { (h : ℕ) (l : List ℕ) → IsListed nodes.old h l → IsListed nodes.new h l }
    ensures len { slab_len nodes.new ≡ slab_len nodes.old }
    ensures capacity { nodes.new.capacity ≡ nodes.old.capacity }
{
    nodes[node].who = who;
    nodes[node].at = at;
}

/// The first node behind a head.
pub fn first(nodes: &Slab<Node>, head: usize) -> Option<usize>
    ensures { (l : List ℕ) → IsListed nodes.now head l → result ≡ first_of l }
{
    let next = nodes.get(head)?.next;
    if next == head { None } else { Some(next) }
}

/// A node goes last behind a head.
pub fn join(nodes: &mut Slab<Node>, head: usize, node: usize)
    requires head { ContainsKey nodes.old head }
    requires last { ContainsKey nodes.old (prev_of nodes.old head) }
    requires node { ContainsKey nodes.old node }
    ensures shown { ShowsAs nodes.old nodes.new }
    ensures joins { (l : List ℕ) → IsListed nodes.old head l → IsNoneOf node (head ∷ l) → IsListed nodes.new head (l ++ node ∷ []) }
    ensures others { (h : ℕ) (k l : List ℕ) → IsListed nodes.old head k → IsListed nodes.old h l
        → AreDisjoint (head ∷ k) (h ∷ l) → IsNoneOf node (h ∷ l) → IsListed nodes.new h l }
{
    let last = link_head(nodes, head, node);
    link_next(nodes, last, node);
    link_both(nodes, node, last, head);
}

/// A node leaves the list in which it stands. Tells the number that it shows.
pub fn leave(nodes: &mut Slab<Node>, node: usize) -> usize
    requires node { ContainsKey nodes.old node }
    requires next { ContainsKey nodes.old (next_of nodes.old node) }
    requires prev { ContainsKey nodes.old (prev_of nodes.old node) }
    ensures shown { ShowsAs nodes.old nodes.new }
    ensures leaves { (h : ℕ) (l k : List ℕ) → IsListed nodes.old h (l ++ node ∷ k) → IsListed nodes.new h (l ++ k) }
    ensures others { (g h : ℕ) (k m l : List ℕ) → IsListed nodes.old g (k ++ node ∷ m) → IsListed nodes.old h l
        → AreDisjoint (g ∷ (k ++ node ∷ m)) (h ∷ l) → IsListed nodes.new h l }
    ensures number { result ≡ node_in (shown_at nodes.old node) }
{
    let Node {
        who: _,
        at,
        next,
        prev,
    } = nodes[node];
    link(nodes, prev, next);
    at
}

/// Makes one node stand right before another.
fn link(nodes: &mut Slab<Node>, before: usize, behind: usize)
    requires before { ContainsKey nodes.old before }
    requires behind { ContainsKey nodes.old behind }
    ensures shown { ShowsAs nodes.old nodes.new }
    ensures next { (m : ℕ) → next_of nodes.new m ≡ put_at (next_of nodes.old) before behind m }
    ensures prev { (m : ℕ) → prev_of nodes.new m ≡ put_at (prev_of nodes.old) behind before m }
{
    link_next(nodes, before, behind);
    link_prev(nodes, behind, before);
}

/// Tells a head which node is last now, and tells which one was.
fn link_head(nodes: &mut Slab<Node>, head: usize, node: usize) -> usize
    requires { ContainsKey nodes.old head }
    ensures last { result ≡ prev_of nodes.old head }
    ensures shown { ShowsAs nodes.old nodes.new }
    ensures next { (m : ℕ) → next_of nodes.new m ≡ next_of nodes.old m }
    ensures prev { (m : ℕ) → prev_of nodes.new m ≡ put_at (prev_of nodes.old) head node m }
{
    let last = nodes[head].prev;
    nodes[head].prev = node;
    last
}

/// Tells a node what is before it and behind it.
fn link_both(nodes: &mut Slab<Node>, node: usize, before: usize, behind: usize)
    requires { ContainsKey nodes.old node }
    ensures shown { ShowsAs nodes.old nodes.new }
    ensures next { (m : ℕ) → next_of nodes.new m ≡ put_at (next_of nodes.old) node behind m }
    ensures prev { (m : ℕ) → prev_of nodes.new m ≡ put_at (prev_of nodes.old) node before m }
{
    nodes[node].next = behind;
    nodes[node].prev = before;
}

/// Tells a node what is behind it.
fn link_next(nodes: &mut Slab<Node>, node: usize, behind: usize)
    requires { ContainsKey nodes.old node }
    ensures shown { ShowsAs nodes.old nodes.new }
    ensures next { (m : ℕ) → next_of nodes.new m ≡ put_at (next_of nodes.old) node behind m }
    ensures prev { (m : ℕ) → prev_of nodes.new m ≡ prev_of nodes.old m }
{
    nodes[node].next = behind;
}

/// Tells a node what is before it.
fn link_prev(nodes: &mut Slab<Node>, node: usize, before: usize)
    requires { ContainsKey nodes.old node }
    ensures shown { ShowsAs nodes.old nodes.new }
    ensures next { (m : ℕ) → next_of nodes.new m ≡ next_of nodes.old m }
    ensures prev { (m : ℕ) → prev_of nodes.new m ≡ put_at (prev_of nodes.old) node before m }
{
    nodes[node].prev = before;
}

/// A node that stands in no list goes, and its room is free again.
pub fn remove(nodes: &mut Slab<Node>, node: usize)
    requires { ContainsKey nodes.old node }
    ensures gone { shown_at nodes.new node ≡ None }
    ensures others { (m : ℕ) → m ≢ node → shown_at nodes.new m ≡ shown_at nodes.old m }
    ensures lists { (h : ℕ) (l : List ℕ) → IsListed nodes.old h l → IsNoneOf node (h ∷ l) → IsListed nodes.new h l }
    ensures len { slab_len nodes.new + 1 ≡ slab_len nodes.old }
    ensures capacity { nodes.new.capacity ≡ nodes.old.capacity }
{
    nodes.try_remove(node);
}
