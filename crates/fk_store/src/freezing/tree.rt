//! The objects, with what stands beside them.
ghost use Rattle.std.specs.Prelude.{◌≡◌, ◌≢◌, ◌<◌, ◌≤◌, ◌/◌, ℕ, Bool, OnOk, OnErr, IsSome, IfSome, Some, None, true, false, length, if◌then◌else◌, option_map};
ghost use Rattle.std.specs.Option.{option_copied};
ghost use Rattle.std.specs.FinMap as map;
ghost use Rattle.std.specs.FinMap.{entries};
ghost use Rattle.std.specs.List.{sum_by};
ghost use Rattle.fk_model.specs.declared.names.Who.{Who};
ghost use Rattle.fk_model.specs.declared.body.Body.{Body};
ghost use Rattle.fk_model.specs.declared.body.Body.TheVariants.{Reference, Thread};
ghost use Rattle.fk_model.specs.declared.thread.Thread as threads_of;
ghost use Rattle.fk_model.specs.Objects.{and_then, holds};
ghost use Rattle.fk_model.proofs.walks.Members.{IsIn};
ghost use Rattle.fk_store.specs.Freezing.Freezing.{AreFrozen, AreKnown, AreTold, IsAbove, is_held_at};
ghost use Rattle.fk_store_graph.specs.Bodies.Births.{stored_birth, home_in, birth_in};
ghost use Rattle.fk_store_graph.specs.Bodies.Held as held_by;
ghost use Rattle.fk_store_graph.specs.Bodies.Held.{one_if};
ghost use Rattle.fk_store_graph.specs.Bodies.Leading.{with_fault, IsThread, LeadsAmong, is_reference};
ghost use Rattle.fk_store_graph.specs.Bodies.Marks as marks_of;
ghost use Rattle.fk_store_graph.specs.Bodies.Names.{at, who_cmp, same_who};
ghost use Rattle.fk_store_graph.specs.Bodies.Nudges.{nudged};
ghost use Rattle.fk_store_graph.specs.Bodies.Orders.{IsFirstAfter};
ghost use Rattle.fk_store_graph.specs.Bodies.Parts.{plays};
ghost use Rattle.fk_store_graph.specs.Bodies.Pointers.{body_hits, hits_in};
ghost use Rattle.fk_store_graph.specs.Bodies.Sweeps.{body_after};
ghost use Rattle.fk_store_graph.specs.Bodies.Threads.{proceeded};

use crate::freezing::settle::{forget, make_room, settle};
use crate::holds::{Frozen, Held};
use fk_model::{Body, Fault, Mode, NoMemory, Ptr, Who};
use fk_store_graph::bodies::{Bodies, Leaders};
use fk_store_graph::leads::{Nudge, Part};
use std::alloc::Global;
use std::marker::Model;

/// The bodies of all objects, and which spaces may be held or lie beneath one that is.
#[derive(Drop)]
pub struct Tree {
    bodies: Bodies,
    frozen: Frozen,
    held: Held,
}

impl Model for Tree {
    ghost use Rattle.std.specs.FinMap.{FinMap};
    ghost use Rattle.std.specs.FinMap as finmap;
    ghost use Rattle.fk_model.specs.declared.body.Body.{Body};
    ghost use Rattle.fk_model.specs.contracts.body.Body as body;
    ghost use Rattle.fk_store_graph.specs.Bodies.Names.{who_cmp, coded_who};
    ghost use Rattle.fk_store.specs.Freezing.Freezing.{IsTree};

    ghost Value = { FinMap who_cmp Body };

    ghost coded = { finmap.code coded_who body.the_row.coded };

    ghost view = { λ s. s.bodies };

    ghost invariant = { λ s. IsTree s.bodies s.frozen s.held };
}

impl Tree {
    /// No objects.
    pub fn new(alloc: Global) -> Tree
        ensures { result ≡ map.empty }
    {
        Tree {
            bodies: Bodies::new(alloc),
            frozen: Frozen::new(alloc),
            held: Held::new(alloc),
        }
    }

    /// The body of an object.
    #[inline]
    pub fn at(&self, who: Who) -> Option<&Body>
        ensures { option_copied result ≡ map.get self.now who }
    {
        self.bodies.at(who)
    }

    /// The birth number of an object, if it is a space.
    #[inline]
    pub fn birth(&self, who: Who) -> Option<u32>
        ensures { result ≡ and_then stored_birth (map.get self.now who) }
    {
        self.bodies.birth(who)
    }

    /// Gives a live object another body, which leads to what is there. A space keeps its birth number,
    /// and no mapping or region comes where none was.
    pub fn set(&mut self, who: Who, body: Body)
        requires there { IsSome (map.get self.old who) }
        requires leads { LeadsAmong self.old body }
        requires birth { birth_in self.old who ≡ stored_birth body }
        requires pages { (b : Body) → map.get self.old who ≡ Some b → marks_of.is_of_pages body ≡ true → marks_of.is_of_pages b ≡ true }
        requires known { AreKnown self.old }
        ensures { self.new ≡ map.insert self.old who body }
    {
        self.bodies.set(who, body);
        settle(&self.bodies, &mut self.frozen, &mut self.held, who, &body);
    }

    /// A reference leads elsewhere, to what is there.
    pub fn aim(&mut self, who: Who, to: Ptr)
        requires reference { holds is_reference (map.get self.old who) ≡ true }
        requires leads { LeadsAmong self.old (Reference to) }
        requires known { AreKnown self.old }
        ensures { self.new ≡ map.insert self.old who (Reference to) }
    {
        self.bodies.aim(who, to);
        settle(
            &self.bodies,
            &mut self.frozen,
            &mut self.held,
            who,
            &Body::Reference { to },
        );
    }

    /// A thread goes on with these registers, at this counter and in this mode. What is no thread
    /// stays as it is.
    #[inline]
    pub fn proceed(&mut self, who: Who, registers: &[u64; 16], counter: u64, mode: Mode)
        ensures there { (b : Body) → map.get self.old who ≡ Some b → self.new ≡ map.insert self.old who (proceeded registers.now counter mode b) }
        ensures none { map.get self.old who ≡ None → self.new ≡ self.old }
    {
        self.bodies.proceed(who, registers, counter, mode);
    }

    /// A thread changes a little. What is no thread stays as it is.
    #[inline]
    pub fn nudge(&mut self, who: Who, change: Nudge)
        ensures there { (b : Body) → map.get self.old who ≡ Some b → self.new ≡ map.insert self.old who (nudged change b) }
        ensures none { map.get self.old who ≡ None → self.new ≡ self.old }
    {
        self.bodies.nudge(who, change);
    }

    /// A thread has this fault, or none, which leads to what is there.
    pub fn set_fault(&mut self, who: Who, fault: Option<Fault>)
        requires thread { IsThread (map.get self.old who) }
        requires leads { (t : threads_of.Thread) → map.get self.old who ≡ Some (Thread t) → LeadsAmong self.old (with_fault t fault) }
        ensures { (t : threads_of.Thread) → map.get self.old who ≡ Some (Thread t) → self.new ≡ map.insert self.old who (with_fault t fault) }
    {
        self.bodies.set_fault(who, fault);
    }

    /// Puts an object in an empty slot, which leads to what is there. No other space has its birth
    /// number, and it is younger than the space in which it lies. For want of memory all stays as it
    /// was.
    ///
    /// # Errors
    ///
    /// There is no memory for the object; all is as before then.
    pub fn put(&mut self, who: Who, body: Body) -> Result<(), NoMemory>
        requires empty { map.get self.old who ≡ None }
        requires leads { LeadsAmong self.old body }
        requires birth { (n : ℕ) → stored_birth body ≡ Some n → home_in self.old n ≡ None }
        requires younger { (n : ℕ) → stored_birth body ≡ Some n → who.space < n }
        requires known { AreKnown self.old }
        ensures ok { OnOk result (self.new ≡ map.insert self.old who body) }
        ensures err { OnErr result (self.new ≡ self.old) }
    {
        self.bodies.put(who, body)?;
        make_room(&mut self.frozen, &body);
        settle(&self.bodies, &mut self.frozen, &mut self.held, who, &body);
        Ok(())
    }

    /// Destroys an object in which nothing stands, with what it leads to, and frees all that leads there.
    pub fn kill(&mut self, who: Who)
        requires there { IsSome (map.get self.old who) }
        requires empty { (n : ℕ) (q : Who) → birth_in self.old who ≡ Some n → q.space ≡ n → map.get self.old q ≡ None }
        requires known { AreKnown self.old }
        ensures { (q : Who) → map.get self.new q
            ≡ if same_who q who then None else option_map (body_after (record { from = who; to = None }) q.space) (map.get self.old q) }
    {
        forget(&mut self.held, self.bodies.birth(who));
        self.bodies.kill(who);
    }

    /// Gives an object another slot of its space, which is free. What leads there follows.
    pub fn rename(&mut self, from: Who, to: Who)
        requires there { IsSome (map.get self.old from) }
        requires free { map.get self.old to ≡ None }
        requires space { to.space ≡ from.space }
        ensures { (q : Who) → map.get self.new q
            ≡ if same_who q to then option_map (body_after (record { from = from; to = Some to }) from.space) (map.get self.old from)
            else (if same_who q from then None else option_map (body_after (record { from = from; to = Some to }) q.space) (map.get self.old q)) }
    {
        self.bodies.rename(from, to);
    }

    /// An object that plays this part; nothing where none does.
    #[inline]
    pub fn first(&self, part: Part) -> Option<Who>
        ensures some { IfSome result (λ who. (b : Body) × (map.get self.now who ≡ Some b) × (plays part b ≡ true)) }
        ensures none { result ≡ None → (who : Who) (b : Body) → map.get self.now who ≡ Some b → plays part b ≡ false }
    {
        self.bodies.first(part)
    }

    /// How many pointers of one object lead to another.
    #[inline]
    pub fn hits(&self, from: Who, to: Who) -> u64
        ensures hits { result ≡ hits_in (body_hits to) (map.get self.now from) }
        ensures few { result ≤ 4 }
    {
        self.bodies.hits(from, to)
    }

    /// How many pointers of all bodies lead to an object.
    #[inline]
    pub fn pointers_at(&self, who: Who) -> u64
        ensures { result ≡ sum_by (λ e. body_hits who e.1) (entries self.now) }
    {
        self.bodies.pointers_at(who)
    }

    /// The objects whose pointers lead to an object, one for each pointer.
    #[inline]
    pub fn leaders(&self, who: Who) -> Leaders<'_>
        ensures all { result.1 ≡ true → (q : Who) (b : Body) → map.get self.now q ≡ Some b → body_hits who b ≢ 0 → IsIn q result.0 }
        ensures sums { result.1 ≡ true → (test : Who → Bool) → sum_by (λ q. one_if (test q)) result.0
            ≡ sum_by (λ e. if test e.0 then body_hits who e.1 else 0) (entries self.now) }
        ensures few { length result.0 ≤ 5497558138880 }
        ensures whole { result.1 ≡ true }
    {
        self.bodies.leaders(who)
    }

    /// A mapping or a region may be in this group of 16 slots of a space.
    #[inline]
    pub fn may_hold_pages(&self, space: u32, group: u8) -> bool
        requires { group < 16 }
        ensures { result ≡ false → (k : ℕ) (b : Body) → k / 16 ≡ group → map.get self.now (at space k) ≡ Some b → marks_of.is_of_pages b ≡ false }
    {
        self.bodies.may_hold_pages(space, group)
    }

    /// Some space may be held.
    #[inline]
    pub fn is_any_held(&self) -> bool
        ensures { result ≡ false → (who : Who) (b : Body) → map.get self.now who ≡ Some b → held_by.is_held b ≡ false }
    {
        self.bodies.is_any_held()
    }

    /// A space may be held, or one in which it lies.
    #[inline]
    pub fn may_be_frozen(&self, space: u32) -> bool
        ensures { result ≡ false → (who : Who) → IsAbove self.now space who → is_held_at self.now who ≡ false }
    {
        self.frozen.at(space)
    }

    /// The birth numbers of all spaces that are held, and perhaps of some that were; nothing where there
    /// was no memory for them.
    #[inline]
    pub fn held(&self) -> Option<&[u32]>
        ensures { IfSome result (λ births. (who : Who) (n : ℕ) → birth_in self.now who ≡ Some n → is_held_at self.now who ≡ true → IsIn n births.now) }
    {
        self.held.all()
    }

    /// The first object after this one, by space and then by slot; the first of all where there is
    /// none.
    #[inline]
    pub fn after(&self, who: Option<Who>) -> Option<Who>
        ensures { IsFirstAfter who_cmp (λ k. IsSome (map.get self.now k)) who result }
    {
        self.bodies.after(who)
    }

    /// The first taken slot of a space.
    #[inline]
    pub fn first_in(&self, space: u32) -> Option<u8>
        ensures some { IfSome result (λ slot. IsSome (map.get self.now (at space slot)) × ((k : ℕ) → IsSome (map.get self.now (at space k)) → slot ≤ k)) }
        ensures none { result ≡ None → (k : ℕ) → map.get self.now (at space k) ≡ None }
    {
        self.bodies.first_in(space)
    }

    /// The first taken slot of a space from a slot on.
    #[inline]
    pub fn next_in(&self, space: u32, slot: u16) -> Option<u8>
        ensures some { IfSome result (λ next. IsSome (map.get self.now (at space next)) × (slot ≤ next) × ((k : ℕ) → IsSome (map.get self.now (at space k)) → slot ≤ k → next ≤ k)) }
        ensures none { result ≡ None → (k : ℕ) → IsSome (map.get self.now (at space k)) → k < slot }
    {
        self.bodies.next_in(space, slot)
    }

    /// A space has no more than 256 slots.
    pub fn slots(&self)
        ensures { (q : Who) (b : Body) → map.get self.now q ≡ Some b → q.slot < 256 }
    {
        self.bodies.slots();
    }

    /// The place of the space with this birth number.
    #[inline]
    pub fn home(&self, space: u32) -> Option<Who>
        ensures { result ≡ home_in self.now space }
    {
        self.bodies.home(space)
    }
}
