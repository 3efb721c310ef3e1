//! Names in order.
ghost use Rattle.std.specs.Prelude.{◌≡◌, ◌≢◌, ◌+◌, ◌≤◌, ◌<◌, ◌^◌, ℕ, List, [], length, true, false, Some, None, IfOk, IfSome, IsSome, OnOk};
ghost use Rattle.std.specs.Prelude.{if◌then◌else◌, slice_index_or};
ghost use Rattle.std.specs.Bool.{OnTrue};
ghost use Rattle.fk_model.specs.declared.names.Who as names_of;
ghost use Rattle.fk_waits.specs.Causes.Names.{is_same, key_at, near_at, near_place, nobody, rank, AreNear, AreOnce, AreRight, HasRoom, IsRising};
ghost use Rattle.fk_waits.specs.declared.causes.names.Name as name_of;

use fk_model::{NoMemory, Who};
use std::alloc::Global;
use std::marker::Model;

/// So many more places of this kind are made than names, so that few names share one where there are few.
const FEW: usize = 14;

/// The rank that stands where no name was put.
const NOBODY: u64 = 1 << 62;

/// The rank that stands where it isn't known who was put.
const UNKNOWN: u64 = NOBODY + 1;

/// What a rank is mixed by: the golden section of the number below, so that ranks in a row lie far apart.
const MIX: u64 = 10_368_889;

/// So many mixed ranks there are.
const MIXED: u64 = 1 << 24;

/// A name, and the number that belongs to it.
#[derive(Clone, Copy)]
pub struct Name {
    pub who: Who,
    pub key: usize,
}

/// A name that was put or found, by its rank, and its number.
#[derive(Clone, Copy)]
pub struct Near {
    pub rank: u64,
    pub key: usize,
}

/// Names, each once, by rising rank, with their numbers.
#[derive(Drop)]
pub struct Names {
    alloc: Global,
    items: Vec<Name>,
    /// The names that were put or found last, each at its mixed rank. Who stands there is found by one look, and where nobody was put there is no name.
    near: Vec<Near>,
}

impl Model for Names {
    ghost use Rattle.std.specs.Prelude.{ℕ, List, vec_capacity};
    ghost use Rattle.fk_waits.specs.Causes.Names.{AreNear, AreRight, IsRising};
    ghost use Rattle.fk_waits.specs.declared.causes.names.Name.{Name};

    ghost Value = { List Name × ℕ };

    ghost view = { λ s. (s.items.items, vec_capacity s.items) };

    ghost invariant = { λ s. IsRising s.items.items × AreNear s.near.items s.items.items × AreRight s.near.items s.items.items };
}

/// The place of a name in the order of spaces and slots.
fn rank(who: Who) -> u64
    ensures place { result ≡ rank who }
    ensures few { rank who < 2 ^ 40 }
    ensures slot { who.slot < 256 }
{
    u64::from(who.space) * 256 + u64::from(who.slot)
}

/// How many names come before one.
fn place_of(items: &[Name], who: Who) -> usize
    requires { IsRising items.now }
    ensures slot { who.slot < 256 }
    ensures within { result ≤ length items.now }
    ensures before { (k : ℕ) (d : Name) → k < result → rank (slice_index_or items.now k d).who < rank who }
    ensures behind { (k : ℕ) (d : Name) → result ≤ k → k < length items.now → rank who ≤ rank (slice_index_or items.now k d).who }
{
    // Names mostly come in order.
    if comes_last(items, who) {
        return items.len();
    }
    place_within(items, who)
}

/// All names come before one.
fn comes_last(items: &[Name], who: Who) -> bool
    requires { IsRising items.now }
    ensures slot { who.slot < 256 }
    ensures last { OnTrue result ((k : ℕ) (d : Name) → k < length items.now → rank (slice_index_or items.now k d).who < rank who) }
{
    let own = rank(who);
    let many = items.len();
    if many == 0 {
        return true;
    }
    if rank(items[many - 1].who) < own {
        return true;
    }
    false
}

/// The place of a name among names that are in order, or where it would go, by halving.
fn place_within(items: &[Name], who: Who) -> usize
    requires { IsRising items.now }
    ensures slot { who.slot < 256 }
    ensures within { result ≤ length items.now }
    ensures before { (k : ℕ) (d : Name) → k < result → rank (slice_index_or items.now k d).who < rank who }
    ensures behind { (k : ℕ) (d : Name) → result ≤ k → k < length items.now → rank who ≤ rank (slice_index_or items.now k d).who }
{
    let own = rank(who);
    let mut low = 0;
    let mut high = items.len();
    while low < high {
        let middle = low + (high - low) / 2;
        if rank(items[middle].who) < own {
            low = middle + 1;
        } else {
            high = middle;
        }
    }
    low
}

/// The number of a name, where the name is at a place.
#[inline]
fn key_in(items: &[Name], at: usize, who: Who) -> Option<usize>
    ensures there { IfSome result (λ key. (at < length items.now)
        × ((d : Name) → (is_same (slice_index_or items.now at d).who who ≡ true) × ((slice_index_or items.now at d).key ≡ key))) }
    ensures none { result ≡ None → (d : Name) → at < length items.now → is_same (slice_index_or items.now at d).who who ≡ false }
{
    let name = items.get(at)?;
    if name.who == who {
        Some(name.key)
    } else {
        None
    }
}

/// Which of so many places is a name's.
#[inline]
fn place_near(many: usize, who: Who) -> usize
    ensures { result ≡ near_place many who }
{
    let mixed = rank(who) * MIX % MIXED;
    (mixed.wrapping_mul(many as u64) / MIXED) as usize
}

/// What stands at the place of a name.
#[inline]
fn near_in(near: &[Near], who: Who) -> Near
    ensures { result ≡ near_at near.now who }
{
    let place = place_near(near.len(), who);
    if place < near.len() {
        near[place]
    } else {
        Near {
            rank: UNKNOWN,
            key: 0,
        }
    }
}

/// A name with this number was put or found.
fn note(near: &mut Vec<Near>, who: Who, key: usize)
    ensures mine { (near_at near.new.items who).rank ≢ nobody }
    ensures others { (l : List name_of.Name) → AreNear near.old.items l → AreNear near.new.items l }
    ensures right { (l : List name_of.Name) → AreRight near.old.items l → key_at l who ≡ Some key → AreRight near.new.items l }
{
    let place = place_near(near.len(), who);
    let own = rank(who);
    if place < near.len() {
        near[place] = Near { rank: own, key };
    }
}

/// A name goes.
fn forget(near: &mut Vec<Near>, who: Who)
    ensures others { (l : List name_of.Name) → AreNear near.old.items l → AreNear near.new.items l }
    ensures right { (k l : List name_of.Name) → AreRight near.old.items k
        → ((other : names_of.Who) → key_at l other ≡ (if is_same who other then None else key_at k other)) → AreRight near.new.items l }
{
    let place = place_near(near.len(), who);
    if place < near.len() {
        near[place] = Near {
            rank: UNKNOWN,
            key: 0,
        };
    }
}

/// So many places, for these names.
fn places_for(alloc: Global, many: usize, items: &[Name]) -> Result<Vec<Near>, NoMemory>
    requires { IsRising items.now }
    ensures near { IfOk result (λ near. AreNear near.items items.now) }
    ensures right { IfOk result (λ near. AreRight near.items items.now) }
{
    let mut near = Vec::new(alloc);
    near.resize(
        many,
        Near {
            rank: NOBODY,
            key: 0,
        },
    )?;
    let mut at = items.len();
    while at > 0 {
        at -= 1;
        note(&mut near, items[at].who, items[at].key);
    }
    Ok(near)
}

impl Names {
    /// No names, and no room yet.
    pub fn new(alloc: Global) -> Names
        ensures { result.0 ≡ [] }
    {
        Names {
            alloc,
            items: Vec::new(alloc),
            near: Vec::new(alloc),
        }
    }

    /// How many names there are.
    pub fn len(&self) -> usize
        ensures { result ≡ length self.now.0 }
    {
        self.items.len()
    }

    /// Each name is there once. What the type keeps is seen where it is made alone; by this call it is had above.
    pub fn once(&self)
        ensures { AreOnce self.now.0 }
    {
        let _many = self.items.len();
    }

    /// The name at a place, with its number.
    pub fn entry(&self, place: usize) -> Name
        requires { place < length self.now.0 }
        ensures name { (d : Name) → slice_index_or self.now.0 place d ≡ result }
        ensures number { key_at self.now.0 result.who ≡ Some result.key }
    {
        self.items[place]
    }

    /// Makes room for so many more names. For want of memory there may be no more room than before.
    ///
    /// # Errors
    ///
    /// There is no memory for so many.
    pub fn reserve(&mut self, more: usize) -> Result<(), NoMemory>
        ensures entries { self.new.0 ≡ self.old.0 }
        ensures room { OnOk result (HasRoom self.new more) }
        ensures kept { self.old.1 ≤ self.new.1 }
    {
        match self.items.reserve(more) {
            Ok(()) => self.reserve_near(more),
            Err(_) => Err(NoMemory),
        }
    }

    /// Makes places for so many names.
    fn reserve_near(&mut self, more: usize) -> Result<(), NoMemory>
        ensures { self.new ≡ self.old }
    {
        if more.saturating_add(FEW) <= self.near.len() {
            return Ok(());
        }
        let many = more.saturating_add(more / 2).saturating_add(FEW);
        self.near = places_for(self.alloc, many, &self.items)?;
        Ok(())
    }

    /// The number of a name.
    #[inline]
    pub fn find(&self, who: Who) -> Option<usize>
        ensures { result ≡ key_at self.now.0 who }
    {
        let near = near_in(&self.near, who);
        let own = rank(who);
        if near.rank == own {
            return Some(near.key);
        }
        if near.rank == NOBODY {
            return None;
        }
        self.seek(who)
    }

    /// The number of a name, by halving.
    #[inline(never)]
    fn seek(&self, who: Who) -> Option<usize>
        ensures { result ≡ key_at self.now.0 who }
    {
        key_in(&self.items, place_of(&self.items, who), who)
    }

    /// The number of a name; where it is found by halving it is found by one look from then on.
    #[inline]
    pub fn find_near(&mut self, who: Who) -> Option<usize>
        ensures found { result ≡ key_at self.old.0 who }
        ensures same { self.new ≡ self.old }
    {
        let near = near_in(&self.near, who);
        let own = rank(who);
        if near.rank == own {
            return Some(near.key);
        }
        if near.rank == NOBODY {
            return None;
        }
        self.find_far(who)
    }

    /// The number of a name that one look hasn't found, by halving.
    #[inline(never)]
    fn find_far(&mut self, who: Who) -> Option<usize>
        ensures found { result ≡ key_at self.old.0 who }
        ensures same { self.new ≡ self.old }
    {
        let key = self.seek(who)?;
        note(&mut self.near, who, key);
        Some(key)
    }

    /// Puts in a name that isn't there, with a number.
    pub fn put(&mut self, who: Who, key: usize)
        requires new { key_at self.old.0 who ≡ None }
        requires room { HasRoom self.old 1 }
        ensures put { (other : names_of.Who) → key_at self.new.0 other ≡ (if is_same who other then Some key else key_at self.old.0 other) }
        ensures len { length self.new.0 ≡ length self.old.0 + 1 }
        ensures kept { self.old.1 ≤ self.new.1 }
    {
        let at = place_of(&self.items, who);
        match self.items.insert(at, Name { who, key }) {
            Ok(()) => {}
            Err(_) => unreachable!(),
        }
        note(&mut self.near, who, key);
    }

    /// Takes a name out, and gives its number.
    pub fn take(&mut self, who: Who) -> Option<usize>
        ensures taken { result ≡ key_at self.old.0 who }
        ensures left { (other : names_of.Who) → key_at self.new.0 other ≡ (if is_same who other then None else key_at self.old.0 other) }
        ensures len { IsSome result → length self.new.0 + 1 ≡ length self.old.0 }
        ensures same { result ≡ None → self.new ≡ self.old }
        ensures kept { self.old.1 ≡ self.new.1 }
    {
        let near = near_in(&self.near, who);
        if near.rank == NOBODY {
            return None;
        }
        let at = place_of(&self.items, who);
        match key_in(&self.items, at, who) {
            Some(key) => {
                self.items.remove(at);
                forget(&mut self.near, who);
                Some(key)
            }
            None => None,
        }
    }
}
