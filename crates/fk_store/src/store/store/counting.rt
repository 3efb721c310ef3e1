//! How many pointers lead to an object from outside a space.
ghost use Rattle.std.specs.Prelude.{◌≡◌, ◌≤◌, ◌&&◌, IfSome, is_some, if◌then◌else◌};
ghost use Rattle.fk_model.specs.ObjectRows as rows;
ghost use Rattle.fk_model.specs.Places as places;
ghost use Rattle.fk_model.specs.Places.{same_path};
ghost use Rattle.fk_model.specs.Searches.{pointers_to};
ghost use Rattle.fk_store.specs.Freezing.Held.{one_if};
ghost use Rattle.fk_store.specs.Store.Paths.{path};
ghost use Rattle.fk_store.specs.Store.World.{world, place_of, IsLive, IsSpace};

use crate::store::Store;
use fk_model::Who;
use fk_model::limits::{FIRST_SCRATCH_SLOT, LAST_SCRATCH_SLOT};

impl Store {
    /// How many pointers lead to an object from outside a base space: of objects that neither are
    /// this space nor lie beneath it. The scratch of a nester is left out.
    pub fn pointers_outside(&self, base: u32, nester: u32, who: Who) -> u64
        requires base { IsSpace self.now base }
        requires nester { IsSpace self.now nester }
        ensures { result ≡ rows.pointer_count (world self.now) (path self.now base) (path self.now nester) (place_of self.now who) }
    {
        match self.count_leaders(base, nester, who) {
            Some(count) => count,
            None => self.count_all(base, nester, who),
        }
    }

    /// How many pointers lead to a space from outside a base space. Nothing leads to the root.
    pub fn pointers_outside_to_space(&self, base: u32, nester: u32, space: u32) -> u64
        requires base { IsSpace self.now base }
        requires nester { IsSpace self.now nester }
        requires space { IsSpace self.now space }
        ensures { result ≡ rows.pointer_count (world self.now) (path self.now base) (path self.now nester) (path self.now space) }
    {
        match self.bodies.home(space) {
            None => 0,
            Some(who) => self.pointers_outside(base, nester, who),
        }
    }

    /// How many pointers lead to an object from outside a base space, where those whose pointers lead there are all known: it looks at them alone.
    fn count_leaders(&self, base: u32, nester: u32, who: Who) -> Option<u64>
        requires base { IsSpace self.now base }
        requires nester { IsSpace self.now nester }
        ensures { IfSome result (λ n. n ≡ rows.pointer_count (world self.now) (path self.now base) (path self.now nester) (place_of self.now who)) }
    {
        let _below_2_32 = self.next;
        let mut leaders = self.bodies.leaders(who);
        let mut count = 0;
        while let Some(from) = leaders.next() {
            count += self.weight(base, nester, from);
        }
        if leaders.are_all() { Some(count) } else { None }
    }

    /// How many pointers lead to an object from outside a base space, by a look at all objects.
    fn count_all(&self, base: u32, nester: u32, who: Who) -> u64
        requires base { IsSpace self.now base }
        requires nester { IsSpace self.now nester }
        ensures { result ≡ rows.pointer_count (world self.now) (path self.now base) (path self.now nester) (place_of self.now who) }
    {
        let _below_2_32 = self.next;
        let mut count = 0;
        let mut at = self.after(None);
        while let Some(from) = at {
            count += self.counted(base, nester, from, who);
            at = self.after(Some(from));
        }
        count
    }

    /// What a pointer of an object counts: 1 if the object is there, and one of those that count.
    fn weight(&self, base: u32, nester: u32, from: Who) -> u64
        requires base { IsSpace self.now base }
        requires nester { IsSpace self.now nester }
        ensures one { result ≡ one_if (is_some ((world self.now).body (place_of self.now from))
            && rows.counts_from (path self.now base) (path self.now nester) (place_of self.now from)) }
        ensures few { result ≤ 1 }
    {
        match self.at(from) {
            Some(_) => one(self.counts(base, nester, from)),
            None => 0,
        }
    }

    /// An object is one of those that count.
    fn counts(&self, base: u32, nester: u32, from: Who) -> bool
        requires live { IsLive self.now from }
        requires base { IsSpace self.now base }
        requires nester { IsSpace self.now nester }
        ensures { result ≡ rows.counts_from (path self.now base) (path self.now nester) (place_of self.now from) }
    {
        !(self.lies_in(base, from) || self.is_scratch(nester, from))
    }

    /// How many pointers of an object lead to another, if it is one of those that count.
    fn counted(&self, base: u32, nester: u32, from: Who, to: Who) -> u64
        requires live { IsLive self.now from }
        requires base { IsSpace self.now base }
        requires nester { IsSpace self.now nester }
        ensures hits { result ≡ if rows.counts_from (path self.now base) (path self.now nester) (place_of self.now from)
            then pointers_to (place_of self.now to) ((world self.now).body (place_of self.now from)) else 0 }
        ensures few { result ≤ 4 }
    {
        if self.counts(base, nester, from) {
            self.hits(from, to)
        } else {
            0
        }
    }

    /// How many pointers of an object lead to another.
    fn hits(&self, from: Who, to: Who) -> u64
        ensures hits { result ≡ pointers_to (place_of self.now to) ((world self.now).body (place_of self.now from)) }
        ensures few { result ≤ 4 }
    {
        self.bodies.hits(from, to)
    }

    /// An object is one of the scratch of a nester.
    fn is_scratch(&self, nester: u32, who: Who) -> bool
        requires live { IsLive self.now who }
        requires nester { IsSpace self.now nester }
        ensures { result ≡ rows.is_scratch (path self.now nester) (place_of self.now who) }
    {
        let slot = u64::from(who.slot);
        self.is_same(who.space, nester) && FIRST_SCRATCH_SLOT <= slot && slot <= LAST_SCRATCH_SLOT
    }

    /// Two spaces are one.
    fn is_same(&self, space: u32, other: u32) -> bool
        requires other { IsSpace self.now other }
        ensures { result ≡ same_path (path self.now space) (path self.now other) }
    {
        let _below_2_32 = self.next;
        space == other
    }

    /// An object is a space, or lies beneath it.
    #[tactic(auto, using(crate::proofs::InStore::finding::Within::within_above))]
    fn lies_in(&self, base: u32, who: Who) -> bool
        requires live { IsLive self.now who }
        requires base { IsSpace self.now base }
        ensures { result ≡ places.is_within (path self.now base) (place_of self.now who) }
    {
        let _below_2_32 = self.next;
        self.is_home(base, who) || self.is_beneath(base, who.space)
    }

    /// An object is the space with this birth number.
    fn is_home(&self, base: u32, who: Who) -> bool
        requires live { IsLive self.now who }
        requires base { IsSpace self.now base }
        ensures { result ≡ same_path (place_of self.now who) (path self.now base) }
    {
        match self.bodies.home(base) {
            None => false,
            Some(home) => who == home,
        }
    }

    /// A space is another one, or lies beneath it.
    fn is_beneath(&self, base: u32, space: u32) -> bool
        requires base { IsSpace self.now base }
        requires space { IsSpace self.now space }
        ensures { result ≡ places.is_within (path self.now base) (path self.now space) }
    {
        let mut at = space;
        while at != base {
            match self.bodies.home(at) {
                None => return false,
                Some(who) => at = who.space,
            }
        }
        true
    }
}

/// 1 if it is so.
fn one(is: bool) -> u64
    ensures one { result ≡ one_if is }
    ensures few { result ≤ 1 }
{
    if is { 1 } else { 0 }
}
