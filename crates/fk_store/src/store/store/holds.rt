//! Who holds a space, and who decides over what is held.
ghost use Rattle.std.specs.Prelude.{◌≡◌, ◌<◌, ℕ, Some, IsSome, IfSome, true, false, option_map, nat_eq, ◌&&◌};
ghost use Rattle.fk_model.specs.Places.{Path};
ghost use Rattle.fk_model.specs.Places.Ptr.{At};
ghost use Rattle.fk_model.proofs.walks.Members.{IsIn};
ghost use Rattle.fk_model.specs.Holds as holds;
ghost use Rattle.fk_model.specs.World.{apply};
ghost use Rattle.fk_model.specs.World.Change.{Alter};
ghost use Rattle.fk_model.specs.World.Edit.{SetHolder};
ghost use Rattle.fk_model.specs.Valid.{kind_there};
ghost use Rattle.fk_store.specs.Store.Paths.{path, place, HasOwnPath};
ghost use Rattle.fk_store.specs.Store.Named.{Each};
ghost use Rattle.fk_store.specs.Store.World.{world, place_of, IsLive, IsSpace};

use crate::store::Store;
use crate::store::edits::with_holder;
use fk_model::{Body, Who};

impl Store {
    /// The thread that decides over an object: the holder of the outermost hold on it or on a space
    /// above it.
    #[inline(always)]
    pub fn decider(&self, object: Who) -> Option<Who>
        ensures decider { option_map (λ who. At (place_of self.now who)) result
            ≡ holds.decider (world self.now) (place_of self.now object) }
        ensures live { Each (IsLive self.now) result }
        ensures apart { Each (HasOwnPath (path self.now)) result }
    {
        if self.bodies.is_any_held() {
            self.decider_held(object)
        } else {
            None
        }
    }

    /// The thread that decides over an object, where some space may be held. Where none above the object is, there is no walk.
    #[inline(never)]
    fn decider_held(&self, object: Who) -> Option<Who>
        ensures decider { option_map (λ who. At (place_of self.now who)) result
            ≡ holds.decider (world self.now) (place_of self.now object) }
        ensures live { Each (IsLive self.now) result }
        ensures apart { Each (HasOwnPath (path self.now)) result }
    {
        if self.bodies.may_be_frozen(object.space) {
            self.decider_above(object)
        } else {
            self.holder(object)
        }
    }

    /// The thread that decides over an object, by a walk up to the root.
    #[inline(never)]
    fn decider_above(&self, object: Who) -> Option<Who>
        ensures decider { option_map (λ who. At (place_of self.now who)) result
            ≡ holds.decider (world self.now) (place_of self.now object) }
        ensures live { Each (IsLive self.now) result }
        ensures apart { Each (HasOwnPath (path self.now)) result }
    {
        let mut holder = self.holder(object);
        let mut at = object.space;
        for _above in 0..object.space {
            match self.bodies.home(at) {
                None => return holder,
                Some(who) => {
                    holder = self.holder(who).or(holder);
                    at = who.space;
                }
            }
        }
        holder
    }

    /// Some space may be held; nothing is frozen where none is.
    pub fn is_any_held(&self) -> bool
        ensures { result ≡ false → (x : Path) → holds.decider (world self.now) x ≡ None }
    {
        self.bodies.is_any_held()
    }

    /// A space that is held has a birth number, by which its place is known.
    pub fn held_births(&self)
        ensures { (x : Path) → IsSome (holds.holder_of ((world self.now).body x))
            → (n : ℕ) × (n < (world self.now).next) × (0 < n) × IsSpace self.now n × (path self.now n ≡ x) }
    {
        let _below_2_32 = self.next;
    }

    /// The birth numbers of all spaces that are held, and perhaps of some that were; nothing where there
    /// was no memory for them.
    pub fn held(&self) -> Option<&[u32]>
        ensures { IfSome result (λ births. (x : Path) → IsSome (holds.holder_of ((world self.now).body x))
            → (n : ℕ) × IsIn n births.now × (0 < n) × IsSpace self.now n × (path self.now n ≡ x)) }
    {
        self.bodies.held()
    }

    /// A space is held, or one above it.
    #[inline]
    pub fn is_frozen(&self, space: u32) -> bool
        ensures { result ≡ holds.is_frozen (world self.now) (path self.now space) }
    {
        if self.bodies.may_be_frozen(space) {
            self.is_decided(space)
        } else {
            false
        }
    }

    /// Whether a space is held, or one above it, by a look at who decides there.
    fn is_decided(&self, space: u32) -> bool
        ensures { result ≡ holds.is_frozen (world self.now) (path self.now space) }
    {
        match self.bodies.home(space) {
            None => false,
            Some(who) => self.decider(who).is_some(),
        }
    }

    /// An object is held, or a space above it, and somebody else than this thread decides there.
    pub fn frozen_for(&self, me: Who, object: Who) -> bool
        ensures { result ≡ holds.is_frozen_for (world self.now) (place_of self.now me) (place_of self.now object) }
    {
        if self.holds_the_only(me) {
            return false;
        }
        match self.decider(object) {
            None => false,
            Some(holder) => holder != me,
        }
    }

    /// One space alone is held, and by this thread: so it decides wherever anybody does, and nobody has to walk up to
    /// see it.
    #[inline(always)]
    pub fn holds_the_only(&self, me: Who) -> bool
        ensures { result ≡ true → (x : Path) → holds.is_frozen_for (world self.now) (place_of self.now me) x ≡ false }
    {
        if self.bodies.is_any_held() {
            self.is_holder(me)
        } else {
            false
        }
    }

    /// Whether one space alone is held, and by this thread, where some space may be held.
    #[inline(never)]
    fn is_holder(&self, me: Who) -> bool
        ensures { result ≡ true → (x : Path) → holds.is_frozen_for (world self.now) (place_of self.now me) x ≡ false }
    {
        match self.only_held() {
            None => false,
            Some(who) => match self.holder(who) {
                None => false,
                Some(holder) => holder == me,
            },
        }
    }

    /// Where the one space stands that is held; nothing where others may be.
    fn only_held(&self) -> Option<Who>
        ensures { IfSome result (λ who. (x : Path) → IsSome (holds.holder_of ((world self.now).body x)) → place_of self.now who ≡ x) }
    {
        let births = self.held()?;
        if births.len() == 1 {
            self.home(births[0])
        } else {
            None
        }
    }

    /// A space is held by a thread, or by nobody. What is no space stays as it is.
    #[tactic(auto, using(crate::proofs::InStore::changing::EditLaws::alter_nothing))]
    pub fn set_holder(&mut self, space: Who, holder: Option<Who>)
        requires holder { Each (IsLive self.old) holder }
        ensures world { world
            self.new ≡ apply (Alter (place (path self.old) space) (SetHolder (option_map (λ who. At (place (path self.old) who)) holder))) (world self.old) }
        ensures kinds { kind_there (world self.new) ≡ kind_there (world self.old) }
        ensures paths { path self.new ≡ path self.old }
    {
        if let Some(&body) = self.at(space) {
            self.set(space, with_holder(body, holder));
        }
    }

    /// The holder of an object, if it is a space that is held.
    fn holder(&self, object: Who) -> Option<Who>
        ensures holder { option_map (λ who. At (place_of self.now who)) result
            ≡ holds.holder_of ((world self.now).body (place_of self.now object)) }
        ensures live { Each (IsLive self.now) result }
    {
        match self.at(object) {
            Some(Body::Space { holder, .. }) => *holder,
            _ => None,
        }
    }
}
