//! The store of all objects and pages.
ghost use Rattle.std.specs.Prelude.{◌≡◌, IsTrue, false, ◌≢◌, ◌↔◌, ℕ, ◌<◌, ◌≤◌, ◌*◌, ◌∷◌, OnOk, OnErr, IsOk, Some, None, IsSome, IfSome, IfOk, option_map};
ghost use Rattle.std.specs.Option.{option_copied};
ghost use Rattle.fk_model.specs.Objects.{kind_of};
ghost use Rattle.fk_model.specs.World.{Edit, edited, apply};
ghost use Rattle.fk_model.specs.World.Change.{Alter, Make, Kill, Move, PutPage, DropPage};
ghost use Rattle.fk_model.specs.Valid.{kind_there};
ghost use Rattle.fk_model.specs.Searches.{depth, has_residents};
ghost use Rattle.fk_model.specs.Places.{Path, same_path};
ghost use Rattle.fk_model.specs.Who.{space_born};
ghost use Rattle.fk_model.specs.declared.names.Who.{Who};
ghost use Rattle.fk_model.specs.declared.body.Body.TheVariants.{Reference};
ghost use Rattle.fk_store.specs.Store.Names.{who_cmp, rank, at, same_who};
ghost use Rattle.fk_store.specs.Store.Orders.{IsFirstAfter};
ghost use Rattle.fk_store.specs.Store.Makes.{making, IsNext, next_by};
ghost use Rattle.fk_store.specs.Store.Paths.{path, IsAtHome, HasOwnPath};
ghost use Rattle.fk_store.specs.Store.Named.{OnNamed, OnPointer};
ghost use Rattle.fk_store.specs.Store.WellFormed.{IsSized};
ghost use Rattle.fk_store.specs.Store.World.{world, first_world, place_of, body_of, IsLive, IsSpace};

mod counting;
mod counts;
mod faulting;
mod holds;
mod proceeding;
mod residents;
mod served;
mod sizes;
mod words;

use crate::freezing::Tree;
use fk_model::{Body, NoMemory, Ptr, Who};
use fk_store_graph::bodies::Pages;
use std::alloc::Global;
use std::marker::Model;

/// Every object and every page, by the birth numbers of spaces.
#[derive(Drop)]
pub struct Store {
    bodies: Tree,
    pages: Pages,
    next: u32,
}

impl Model for Store {
    ghost use Rattle.fk_store.specs.Store.Contents.{Contents, coded_contents};
    ghost use Rattle.fk_store.specs.Store.WellFormed.{IsWellFormed};

    ghost Value = { Contents };

    ghost coded = { coded_contents };

    ghost view = { λ s. record { bodies = s.bodies; pages = s.pages; next = s.next } };

    ghost invariant = { λ s. IsWellFormed (record { bodies = s.bodies; pages = s.pages; next = s.next }) };
}

impl Store {
    /// The root alone.
    ///
    /// # Errors
    ///
    /// There is no memory for the root.
    pub fn new(alloc: Global) -> Result<Store, NoMemory>
        ensures { IfOk result (λ store. world store ≡ first_world) }
    {
        Ok(Store {
            bodies: Tree::new(alloc),
            pages: Pages::new(alloc),
            next: 1,
        })
    }

    /// The birth number of the next space.
    pub fn next_birth(&self) -> u32
        ensures { result ≡ (world self.now).next }
    {
        self.next
    }

    /// A space has no more than 256 slots.
    pub fn slots(&self)
        ensures { (k : ℕ) (s : Path) → IsSome (kind_there (world self.now) (k ∷ s)) → k < 256 }
    {
        self.bodies.slots();
    }

    /// The path of a space is the one that the world finds by its birth number, and these numbers are
    /// below 2^32.
    pub fn names(&self)
        ensures born { path self.now ≡ space_born (world self.now) }
        ensures few { (world self.now).next ≤ depth }
    {
        // What the store's type keeps is seen in this crate alone. By this call the others have it.
        let _below_2_32 = self.next;
    }

    /// The body of an object. The root has no name, and so no body here.
    #[inline]
    pub fn at(&self, who: Who) -> Option<&Body>
        ensures body { (world self.now).body (place_of self.now who)
            ≡ option_map (body_of self.now) (option_copied result) }
        ensures kind { kind_there (world self.now) (place_of self.now who)
            ≡ option_map (λ body. kind_of (body_of self.now body)) (option_copied result) }
        ensures space { IsSome result → IsSpace self.now who.space }
        ensures home { IfSome result (λ body. IsAtHome (path self.now) who body.now) }
        ensures named { IfSome result (λ body. OnNamed (IsLive self.now) body.now) }
        ensures sized { IfSome result (λ body. IsSized body.now) }
        ensures apart { IsSome result → HasOwnPath (path self.now) who }
    {
        self.bodies.at(who)
    }

    /// The first object after this one in the order of space and slot; the first of all where there
    /// is none.
    pub fn after(&self, who: Option<Who>) -> Option<Who>
        ensures first { IsFirstAfter who_cmp (IsLive self.now) who result }

        // So a scan of all objects comes to its end.
        ensures rises { IfSome result (λ next. rank who < rank (Some next)) }
        ensures ends { IfSome result (λ next. rank (Some next) ≤ (world self.now).next * 256) }

        // Every object but the root has a name.
        ensures named { (k : ℕ) (s : Path) → IsSome (kind_there (world self.now) (k ∷ s))
            → (other : Who) × (place_of self.now other ≡ k ∷ s) }
    {
        self.bodies.after(who)
    }

    /// The object that is the space with this birth number; nothing for the root, and where no such
    /// space is live.
    pub fn home(&self, space: u32) -> Option<Who>
        ensures some { IsSome result ↔ ((0 < space) × IsSpace self.now space) }
        ensures place { IfSome result (λ who. path self.now space ≡ place_of self.now who) }
        ensures older { IfSome result (λ who. who.space < space) }
    {
        self.bodies.home(space)
    }

    /// The space with this birth number is live.
    pub fn is_live(&self, space: u32) -> bool
        ensures { IsTrue result ↔ IsSpace self.now space }
    {
        space == 0 || self.bodies.home(space).is_some()
    }

    /// Gives an object another body of its kind. A space keeps its birth number, what the body names
    /// is there, and the pages of a mapping or a region are among 0 to 255.
    pub fn set(&mut self, who: Who, body: Body)
        requires kind { kind_there (world self.old) (place_of self.old who)
            ≡ Some (kind_of (body_of self.old body)) }
        requires home { IsAtHome (path self.old) who body }
        requires named { OnNamed (IsLive self.old) body }
        requires sized { IsSized body }
        ensures world { world self.new ≡ apply (Make (place_of self.old who) (body_of self.old body)) (world self.old) }
        ensures edits { (e : Edit)
            → option_map (edited e) ((world self.old).body (place_of self.old who))
            ≡ Some (body_of self.old body)
            → world self.new ≡ apply (Alter (place_of self.old who) e) (world self.old) }
        ensures kinds { kind_there (world self.new) ≡ kind_there (world self.old) }
        ensures paths { path self.new ≡ path self.old }
    {
        self.bodies.set(who, body);
    }

    /// A reference leads elsewhere, to what is there.
    pub fn aim(&mut self, who: Who, to: Ptr)
        requires kind { kind_there (world self.old) (place_of self.old who) ≡ Some (kind_of (body_of self.old (Reference to))) }
        requires to { OnPointer (IsLive self.old) to }
        ensures edits { (e : Edit)
            → option_map (edited e) ((world self.old).body (place_of self.old who))
            ≡ Some (body_of self.old (Reference to))
            → world self.new ≡ apply (Alter (place_of self.old who) e) (world self.old) }
        ensures kinds { kind_there (world self.new) ≡ kind_there (world self.old) }
        ensures paths { path self.new ≡ path self.old }
    {
        self.bodies.aim(who, to);
    }

    /// Puts a new object into an empty slot of a live space. A space has the next birth number,
    /// which is below 2^32 - 1, what the body names is there, and the pages of a mapping or a region
    /// are among 0 to 255. For want of memory all stays as it was.
    ///
    /// # Errors
    ///
    /// There is no memory for the object; all is as before then.
    pub fn make(&mut self, who: Who, body: Body) -> Result<(), NoMemory>
        requires space { IsSpace self.old who.space }
        requires empty { (world self.old).body (place_of self.old who) ≡ None }
        requires birth { IsNext (world self.old).next body }
        requires named { OnNamed (IsLive self.old) body }
        requires sized { IsSized body }
        ensures world { let change = making (place_of self.old who) (body_of self.old body) in
            OnOk result (world self.new ≡ apply change (world self.old)) }
        ensures home { OnOk result (IsAtHome (path self.new) who body) }
        ensures err { OnErr result (self.new ≡ self.old) }

        // What was there is of its kind still, and has its path.
        ensures kinds { (x : Path) → IsSome (kind_there (world self.old) x)
            → kind_there (world self.new) x ≡ kind_there (world self.old) x }
        ensures places { (other : Who) → IsLive self.old other → place_of self.new other ≡ place_of self.old other }
        ensures paths { (n : ℕ) → n ≢ (world self.old).next → path self.new n ≡ path self.old n }
    {
        self.bodies.put(who, body)?;
        self.next = next_after(self.next, &body);
        Ok(())
    }

    /// Destroys an object in which nothing stands, with its pages. Pointers to it are dead, what it
    /// held is free, its talks and its port's faults end, what it had taken is raised again, and no
    /// port is in it.
    pub fn kill(&mut self, who: Who)
        requires there { IsLive self.old who }
        requires empty { has_residents (world self.old) (place_of self.old who) ≡ false }
        ensures world { world self.new ≡ apply (Kill (place_of self.old who)) (world self.old) }
        ensures gone { kind_there (world self.new) (place_of self.old who) ≡ None }

        // All else is there still, of its kind, and each object and each space keeps its path.
        ensures kinds { (x : Path) → same_path x (place_of self.old who) ≡ false
            → kind_there (world self.new) x ≡ kind_there (world self.old) x }
        ensures lives { (other : Who) → IsLive self.old other → same_who other who ≡ false → IsLive self.new other }
        ensures places { (other : Who) → IsLive self.old other → place_of self.new other ≡ place_of self.old other }
        ensures paths { (n : ℕ) → path self.old n ≢ place_of self.old who → path self.new n ≡ path self.old n }
    {
        let space = self.bodies.birth(who);
        self.bodies.kill(who);
        self.pages.remove_all(space);
    }

    /// Gives an object in which nothing stands another slot of its space, which is empty. Everything
    /// that names it follows, as do the ports that are in it, and a space keeps its pages.
    pub fn move_to(&mut self, from: Who, to: u8)
        requires there { IsLive self.old from }
        requires empty { has_residents (world self.old) (place_of self.old from) ≡ false }
        requires free { (world self.old).body (to ∷ path self.old from.space) ≡ None }
        ensures world { world self.new ≡ apply (Move (place_of self.old from) to) (world self.old) }
        ensures left { kind_there (world self.new) (place_of self.old from) ≡ None }
        ensures moved { kind_there (world self.new) (to ∷ path self.old from.space)
            ≡ kind_there (world self.old) (place_of self.old from) }
        ensures target { place_of self.new (at from.space to) ≡ to ∷ path self.old from.space }
        ensures follows { (n : ℕ) → path self.old n ≡ place_of self.old from → path self.new n ≡ to ∷ path self.old from.space }

        // All else is there still, of its kind, and each name and each other space keeps its path.
        ensures kinds { (x : Path) → same_path x (place_of self.old from) ≡ false
            → same_path x (to ∷ path self.old from.space) ≡ false
            → kind_there (world self.new) x ≡ kind_there (world self.old) x }
        ensures lives { (other : Who) → IsLive self.old other → same_who other from ≡ false → IsLive self.new other }
        ensures places { (other : Who) → IsLive self.old other → place_of self.new other ≡ place_of self.old other }
        ensures paths { (n : ℕ) → path self.old n ≢ place_of self.old from → path self.new n ≡ path self.old n }
    {
        let target = Who {
            space: from.space,
            slot: to,
        };
        self.bodies.rename(from, target);
    }

    /// The words of a page of a space.
    #[inline]
    pub fn page(&self, space: u32, page: u8) -> Option<&[u64; 64]>
        ensures { option_copied result ≡ (world self.now).page (path self.now space) page }
    {
        self.pages.at(space, page)
    }

    /// Gives a live space a page with these words, or writes over the one that is there, which
    /// takes no memory. For want of memory all stays as it was.
    ///
    /// # Errors
    ///
    /// There is no memory for the page; all is as before then.
    pub fn put_page(&mut self, space: u32, page: u8, words: &[u64; 64]) -> Result<(), NoMemory>
        requires { IsSpace self.old space }
        ensures world { let change = PutPage (path self.old space) page words.now in
            OnOk result (world self.new ≡ apply change (world self.old)) }
        ensures there { IsSome ((world self.old).page (path self.old space) page) → IsOk result }
        ensures err { OnErr result (self.new ≡ self.old) }
        ensures kinds { kind_there (world self.new) ≡ kind_there (world self.old) }
        ensures paths { path self.new ≡ path self.old }
    {
        self.pages.put(space, page, words)
    }

    /// Takes a page away from a space, if it is there.
    pub fn drop_page(&mut self, space: u32, page: u8)
        ensures world { world self.new ≡ apply (DropPage (path self.old space) page) (world self.old) }
        ensures kinds { kind_there (world self.new) ≡ kind_there (world self.old) }
        ensures paths { path self.new ≡ path self.old }
    {
        self.pages.remove(space, page);
    }
}

/// The next birth number once an object is made.
fn next_after(next: u32, body: &Body) -> u32
    requires { IsNext next body.now }
    ensures { result ≡ next_by next body.now }
{
    match body {
        Body::Space { .. } => next + 1,
        _ => next,
    }
}
