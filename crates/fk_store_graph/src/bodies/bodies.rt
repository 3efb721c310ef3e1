//! The bodies of all objects, by their names.
ghost use Rattle.std.specs.Prelude.{◌≡◌, ◌≢◌, ◌<◌, ◌≤◌, ◌+◌, ◌*◌, ◌/◌, ℕ, Bool, Option, OnOk, OnErr, IsSome, IfSome, Some, None, true, false, length};
ghost use Rattle.std.specs.Prelude.{if◌then◌else◌, option_map};
ghost use Rattle.std.specs.Option.{option_copied};
ghost use Rattle.std.specs.FinMap as map;
ghost use Rattle.std.specs.FinMap.{entries};
ghost use Rattle.std.specs.List.{sum_by};
ghost use Rattle.fk_model.specs.declared.names.Who.{Who};
ghost use Rattle.fk_model.specs.declared.body.Body.{Body};
ghost use Rattle.fk_model.specs.Objects.{and_then};
ghost use Rattle.fk_model.proofs.walks.Members.{IsIn};
ghost use Rattle.fk_model.specs.Objects.{holds};
ghost use Rattle.fk_store_graph.specs.Linked.Leads.{led};
ghost use Rattle.fk_store_graph.specs.Linked.Cells.{is_from};
ghost use Rattle.fk_store_graph.specs.Linked.Links.{AreRings};
ghost use Rattle.fk_store_graph.specs.Linked.Nodes.{is_head, node_of};
ghost use Rattle.fk_store_graph.specs.Linked.Shapes.{Entry};
ghost use Rattle.fk_store_graph.specs.Linked.Filed.{entry_under, name_under};
ghost use Rattle.fk_store_graph.specs.Linked.Edits.{Edits, Removes, on_body};
ghost use Rattle.fk_store_graph.specs.Linked.Bodied.{body_under, bodies, owner, HaveNodes};
ghost use Rattle.fk_store_graph.specs.Linked.Births.{stored_birth, home_in, birth_in};
ghost use Rattle.fk_store_graph.specs.Linked.Held as held_by;
ghost use Rattle.fk_store_graph.specs.Linked.Held.{one_if, held_in, IsCount};
ghost use Rattle.fk_store_graph.specs.Linked.Homes.{home_at};
ghost use Rattle.fk_model.specs.declared.body.Body.TheVariants.{Reference, Thread};
ghost use Rattle.fk_model.specs.declared.thread.Thread as threads_of;
ghost use Rattle.fk_store_graph.specs.Linked.Leading.{with_fault, IsThread, LeadsAmong, is_reference};
ghost use Rattle.fk_store_graph.specs.Linked.Marks as marks_of;
ghost use Rattle.fk_store_graph.specs.Linked.Names.{at, who_cmp, same_who};
ghost use Rattle.fk_store_graph.specs.Linked.Nudges.{nudged};
ghost use Rattle.fk_store_graph.specs.Bodies.Orders.{comes_after, IsFirstAfter};
ghost use Rattle.fk_store_graph.specs.Linked.Parts.{plays};
ghost use Rattle.fk_store_graph.specs.Linked.Pointers.{body_hits};
ghost use Rattle.fk_store_graph.specs.Linked.Sweeps.{body_after};
ghost use Rattle.fk_store_graph.specs.Bodies.Threads.{proceeded};

use crate::bodies::leaders::Leaders;
use crate::bodies::scans::{first_told, told_of_part};
use crate::leads::{Nudge, Part, Sweep, birth_of, counted, ends, is_held};
use crate::linked::{
    aim, free_all, home_of, leave, link_all, make_room, mark_again, mark_all, rename_all, replace,
    set_fault, settle, tell, tell_fault, unlink_all,
};
use crate::links::{Links, head_of};
use fk_model::{Body, Fault, Mode, NoMemory, Ptr, Who};
use fk_store_cells::objects::Objects;
use std::alloc::Global;
use std::marker::Model;

/// The bodies of all objects.
#[derive(Drop)]
pub struct Bodies {
    objects: Objects,
    /// The pointers that lead to each object.
    links: Links,
    /// For each birth number the key of the space's object.
    homes: Vec<u32>,
    /// How many spaces are held.
    held: u64,
}

impl Model for Bodies {
    ghost use Rattle.std.specs.FinMap.{FinMap};
    ghost use Rattle.std.specs.FinMap as finmap;
    ghost use Rattle.fk_model.specs.declared.body.Body.{Body};
    ghost use Rattle.fk_model.specs.contracts.body.Body as body;
    ghost use Rattle.fk_store_graph.specs.Linked.Bodied.{bodies, AreBodies};
    ghost use Rattle.fk_store_graph.specs.Linked.Names.{who_cmp, coded_who};

    ghost Value = { FinMap who_cmp Body };

    ghost coded = { finmap.code coded_who body.the_row.coded };

    ghost view = { λ s. bodies s.objects };

    ghost invariant = { λ s. AreBodies s.objects s.links s.homes.items s.held };
}

impl Bodies {
    /// No bodies.
    pub fn new(alloc: Global) -> Bodies
        ensures { result ≡ map.empty }
    {
        Bodies {
            objects: Objects::new(alloc),
            links: Links::new(alloc),
            homes: Vec::new(alloc),
            held: 0,
        }
    }

    /// The body of an object.
    #[inline]
    pub fn at(&self, who: Who) -> Option<&Body>
        ensures { option_copied result ≡ map.get self.now who }
    {
        self.objects.at(who)
    }

    /// The birth number of an object, if it is a space.
    pub fn birth(&self, who: Who) -> Option<u32>
        ensures { result ≡ and_then stored_birth (map.get self.now who) }
    {
        birth_of(self.at(who)?)
    }

    /// Gives a live object another body, which leads to what is there. A space keeps its birth number,
    /// and no mapping or region comes where none was.
    pub fn set(&mut self, who: Who, body: Body)
        requires there { IsSome (map.get self.old who) }
        requires leads { LeadsAmong self.old body }
        requires birth { birth_in self.old who ≡ stored_birth body }
        requires pages { (b : Body) → map.get self.old who ≡ Some b → marks_of.is_of_pages body ≡ true → marks_of.is_of_pages b ≡ true }
        ensures { self.new ≡ map.insert self.old who body }
    {
        self.objects.filed();
        if let Some(key) = self.objects.key(who) {
            replace(
                &mut self.objects,
                &mut self.links,
                &mut self.held,
                key,
                &body,
            );
            tell(&mut self.objects, key, &body);
            mark_all(&mut self.objects, who, &body);
        }
    }

    /// A reference leads elsewhere, to what is there.
    pub fn aim(&mut self, who: Who, to: Ptr)
        requires reference { holds is_reference (map.get self.old who) ≡ true }
        requires leads { LeadsAmong self.old (Reference to) }
        ensures { self.new ≡ map.insert self.old who (Reference to) }
    {
        self.objects.filed();
        if let Some(key) = self.objects.key(who) {
            let body = Body::Reference { to };
            aim(&mut self.objects, &mut self.links, key, to);
            tell(&mut self.objects, key, &body);
            mark_all(&mut self.objects, who, &body);
        }
    }

    /// A thread goes on with these registers, at this counter and in this mode. What is no thread
    /// stays as it is.
    pub fn proceed(&mut self, who: Who, registers: &[u64; 16], counter: u64, mode: Mode)
        ensures there { (b : Body) → map.get self.old who ≡ Some b → self.new ≡ map.insert self.old who (proceeded registers.now counter mode b) }
        ensures none { map.get self.old who ≡ None → self.new ≡ self.old }
    {
        self.objects.filed();
        if let Some(key) = self.objects.key(who) {
            self.objects.proceed(key, registers, counter, mode);
        }
    }

    /// A thread or a mutex changes a little. What is neither stays as it is.
    pub fn nudge(&mut self, who: Who, change: Nudge)
        ensures there { (b : Body) → map.get self.old who ≡ Some b → self.new ≡ map.insert self.old who (nudged change b) }
        ensures none { map.get self.old who ≡ None → self.new ≡ self.old }
    {
        self.objects.filed();
        if let Some(key) = self.objects.key(who) {
            nudge_under(&mut self.objects, key, change);
        }
    }

    /// A thread has this fault, or none, which leads to what is there.
    pub fn set_fault(&mut self, who: Who, fault: Option<Fault>)
        requires thread { IsThread (map.get self.old who) }
        requires leads { (t : threads_of.Thread) → map.get self.old who ≡ Some (Thread t) → LeadsAmong self.old (with_fault t fault) }
        ensures { (t : threads_of.Thread) → map.get self.old who ≡ Some (Thread t) → self.new ≡ map.insert self.old who (with_fault t fault) }
    {
        self.objects.filed();
        if let Some(key) = self.objects.key(who) {
            set_fault(&mut self.objects, &mut self.links, key, fault);
            tell_fault(&mut self.objects, key, fault);
        }
    }

    /// Puts an object in an empty slot, which leads to what is there. No other space has its birth
    /// number. For want of memory all stays as it was.
    ///
    /// # Errors
    ///
    /// There is no memory for the object; all is as before then.
    pub fn put(&mut self, who: Who, body: Body) -> Result<(), NoMemory>
        requires empty { map.get self.old who ≡ None }
        requires leads { LeadsAmong self.old body }
        requires birth { (n : ℕ) → stored_birth body ≡ Some n → home_in self.old n ≡ None }
        ensures ok { OnOk result (self.new ≡ map.insert self.old who body) }
        ensures err { OnErr result (self.new ≡ self.old) }
    {
        self.objects.filed();
        let birth = birth_of(&body);
        make_room(&mut self.homes, birth)?;
        make_nodes(&self.objects, &mut self.links)?;
        let key = self.objects.make(who, body)?;
        settle(&mut self.homes, birth, key);
        self.held = counted(self.held, false, is_held(&body));
        link_all(&self.objects, &mut self.links, key, &body);
        tell(&mut self.objects, key, &body);
        mark_all(&mut self.objects, who, &body);
        Ok(())
    }

    /// Destroys an object in which nothing stands, with what it leads to, and frees all that leads there.
    pub fn kill(&mut self, who: Who)
        requires there { IsSome (map.get self.old who) }
        requires empty { (n : ℕ) (q : Who) → birth_in self.old who ≡ Some n → q.space ≡ n → map.get self.old q ≡ None }
        ensures { (q : Who) → map.get self.new q
            ≡ if same_who q who then None else option_map (body_after (record { from = who; to = None }) q.space) (map.get self.old q) }
    {
        self.objects.filed();
        if let Some(key) = self.objects.key(who) {
            let sweep = Sweep {
                from: who,
                to: None,
            };
            let birth = birth_under(&self.objects, key);
            free_all(
                &mut self.objects,
                &mut self.links,
                &mut self.held,
                key,
                sweep,
            );
            take_away(&mut self.objects, &mut self.links, &mut self.held, key);
            leave(&mut self.objects, &mut self.homes, birth);
        }
    }

    /// Gives an object another slot of its space, which is free. What leads there follows.
    pub fn rename(&mut self, from: Who, to: Who)
        requires there { IsSome (map.get self.old from) }
        requires free { map.get self.old to ≡ None }
        requires space { to.space ≡ from.space }
        ensures { (q : Who) → map.get self.new q
            ≡ if same_who q to then option_map (body_after (record { from = from; to = Some to }) from.space) (map.get self.old from)
            else (if same_who q from then None else option_map (body_after (record { from = from; to = Some to }) q.space) (map.get self.old q)) }
    {
        self.objects.filed();
        if let Some(key) = self.objects.key(from) {
            let sweep = Sweep { from, to: Some(to) };
            rename_all(&mut self.objects, &self.links, key, sweep);
            self.objects.rename(key, to);
            mark_again(&mut self.objects, key);
        }
    }

    /// An object that plays this part; nothing where none does.
    pub fn first(&self, part: Part) -> Option<Who>
        ensures some { IfSome result (λ who. (b : Body) × (map.get self.now who ≡ Some b) × (plays part b ≡ true)) }
        ensures none { result ≡ None → (who : Who) (b : Body) → map.get self.now who ≡ Some b → plays part b ≡ false }
    {
        self.objects.filed();
        let key = self.objects.key(part.whose())?;
        first_told(&self.objects, part, told_of_part(&self.objects, part, key))
    }

    /// How many pointers of all bodies lead to an object.
    pub fn pointers_at(&self, who: Who) -> u64
        ensures { result ≡ sum_by (λ e. body_hits who e.1) (entries self.now) }
    {
        let mut leaders = self.leaders(who);
        let mut count = 0;
        while let Some(_from) = leaders.next() {
            count += 1;
        }
        count
    }

    /// The objects whose pointers lead to an object, one for each pointer.
    pub fn leaders(&self, who: Who) -> Leaders<'_>
        ensures all { result.1 ≡ true → (q : Who) (b : Body) → map.get self.now q ≡ Some b → body_hits who b ≢ 0 → IsIn q result.0 }
        ensures sums { result.1 ≡ true → (test : Who → Bool) → sum_by (λ q. one_if (test q)) result.0
            ≡ sum_by (λ e. if test e.0 then body_hits who e.1 else 0) (entries self.now) }
        ensures few { length result.0 ≤ 5497558138880 }
        ensures whole { result.1 ≡ true }
    {
        self.objects.filed();
        Leaders::new(&self.objects, &self.links, self.objects.key(who))
    }

    /// A mapping or a region may be in this group of 16 slots of a space.
    #[inline]
    pub fn may_hold_pages(&self, space: u32, group: u8) -> bool
        requires { group < 16 }
        ensures { result ≡ false → (k : ℕ) (b : Body) → k / 16 ≡ group → map.get self.now (at space k) ≡ Some b → marks_of.is_of_pages b ≡ false }
    {
        self.objects.is_marked(space, group)
    }

    /// Some space may be held.
    #[inline]
    pub fn is_any_held(&self) -> bool
        ensures { result ≡ false → (who : Who) (b : Body) → map.get self.now who ≡ Some b → held_by.is_held b ≡ false }
    {
        self.held > 0
    }

    /// The first object after this one, by space and then by slot; the first of all where there is
    /// none.
    pub fn after(&self, who: Option<Who>) -> Option<Who>
        ensures { IsFirstAfter who_cmp (λ k. IsSome (map.get self.now k)) who result }
    {
        self.objects.filed();
        let (space, slot) = start_after(who);
        self.objects.next_taken(space, slot)
    }

    /// The first taken slot of a space.
    pub fn first_in(&self, space: u32) -> Option<u8>
        ensures some { IfSome result (λ slot. IsSome (map.get self.now (at space slot)) × ((k : ℕ) → IsSome (map.get self.now (at space k)) → slot ≤ k)) }
        ensures none { result ≡ None → (k : ℕ) → map.get self.now (at space k) ≡ None }
    {
        self.objects.filed();
        self.objects.next_in(space, 0)
    }

    /// The first taken slot of a space from a slot on.
    pub fn next_in(&self, space: u32, slot: u16) -> Option<u8>
        ensures some { IfSome result (λ next. IsSome (map.get self.now (at space next)) × (slot ≤ next)
            × ((k : ℕ) → IsSome (map.get self.now (at space k)) → slot ≤ k → next ≤ k)) }
        ensures none { result ≡ None → (k : ℕ) → IsSome (map.get self.now (at space k)) → k < slot }
    {
        self.objects.filed();
        self.objects.next_in(space, slot)
    }

    /// A space has no more than 256 slots.
    pub fn slots(&self)
        ensures { (q : Who) (b : Body) → map.get self.now q ≡ Some b → q.slot < 256 }
    {
        self.objects.slots();
    }

    /// The place of the space with this birth number.
    pub fn home(&self, space: u32) -> Option<Who>
        ensures { result ≡ home_in self.now space }
    {
        self.objects.filed();
        home_under(&self.objects, &self.homes, space)
    }
}

/// The name of the space with a birth number.
fn home_under(objects: &Objects, homes: &Vec<u32>, space: u32) -> Option<Who>
    ensures { result ≡ and_then (name_under objects.now) (home_at homes.now.items space) }
{
    let key = home_of(homes, space)?;
    let entry = objects.entry(key)?;
    Some(entry.who)
}

/// The birth number of the object under a key, if it is a space.
fn birth_under(objects: &Objects, key: u32) -> Option<u32>
    ensures { result ≡ and_then stored_birth (body_under objects.now key) }
{
    let entry = objects.entry(key)?;
    birth_of(&entry.body)
}

/// The object under a key is a space that somebody holds.
fn is_held_under(objects: &Objects, key: u32) -> bool
    ensures { result ≡ holds held_by.is_held (body_under objects.now key) }
{
    match objects.entry(key) {
        None => false,
        Some(entry) => is_held(&entry.body),
    }
}

/// The pointers of the object under a key are among so many of its first fields.
fn ends_under(objects: &Objects, key: u32) -> u8
    ensures past { (b : Body) → body_under objects.now key ≡ Some b → (i : ℕ) → result ≤ i → i < 5 → led b i ≡ None }
    ensures few { result ≤ 5 }
{
    match objects.entry(key) {
        None => 0,
        Some(entry) => ends(&entry.body),
    }
}

/// Makes nodes for the object that comes next. For want of memory there may be more nodes, each alone.
fn make_nodes(objects: &Objects, links: &mut Links) -> Result<(), NoMemory>
    ensures rings { (owner : ℕ → Option ℕ) → AreRings links.old owner → AreRings links.new owner }
    ensures more { length links.old ≤ length links.new }
    ensures long { OnOk result (objects.now.vacant * 5 + 5 ≤ length links.new) }
{
    let Some(key) = objects.vacant() else {
        return Err(NoMemory);
    };
    links.room(key)?;
    Ok(())
}

/// What is under a key changes a little.
fn nudge_under(objects: &mut Objects, key: u32, change: Nudge)
    ensures { Edits objects.old objects.new key (on_body (nudged change)) }
{
    match change {
        Nudge::Counts(words) => objects.count(key, words),
        Nudge::Passes(turn) => objects.pass(key, turn),
        Nudge::Stops(stops) => objects.stop(key, stops),
        Nudge::Locks(locked) => objects.lock(key, locked),
    }
}

/// The object under a key, to which nothing leads, goes, and leads nowhere any more.
fn take_away(objects: &mut Objects, links: &mut Links, held: &mut u64, key: u32)
    requires there { IsSome (entry_under objects.old key) }
    requires rings { AreRings links.old (owner objects.old) }
    requires long { HaveNodes objects.old (length links.old) }
    requires alone { (n : ℕ) → is_head n ≡ false → owner objects.old n ≢ Some (node_of key 2) }
    requires held { IsCount (held_in (bodies objects.old)) held.old }
    ensures gone { (e : Entry) → entry_under objects.old key ≡ Some e → Removes objects.old objects.new key e }
    ensures rings { AreRings links.new (owner objects.new) }
    ensures long { length links.new ≡ length links.old }
    ensures held { IsCount (held_in (bodies objects.new)) held.new }
{
    objects.filed();
    let was = is_held_under(objects, key);
    *held = counted(*held, was, false);
    unlink_all(links, key, ends_under(objects, key));
    objects.remove(key);
}

/// The space and the slot from which on all come after an object; the first of all where there is
/// none.
fn start_after(who: Option<Who>) -> (u32, u16)
    ensures { (s k : ℕ) → is_from result.0 result.1 s k ≡ comes_after who_cmp who (at s k) }
{
    match who {
        None => (0, 0),
        Some(who) => (who.space, u16::from(who.slot) + 1),
    }
}
