//! Where the pointers of mappings, regions and references lead.
ghost use Rattle.std.specs.Prelude.{◌≡◌};
ghost use Rattle.fk_model.specs.Holds as holds;
ghost use Rattle.fk_model.specs.World.{apply};
ghost use Rattle.fk_model.specs.World.Change.{Alter};
ghost use Rattle.fk_model.specs.World.Edit.{SetPointer};
ghost use Rattle.fk_model.specs.Valid.{kind_there};
ghost use Rattle.fk_store.specs.Store.Paths.{path, place};
ghost use Rattle.fk_store.specs.Store.Bodies.{pointer_by};
ghost use Rattle.fk_store.specs.Store.Named.{OnPointer};
ghost use Rattle.fk_store.specs.Store.World.{world, IsLive};

use crate::store::edits::with_pointer;
use crate::store::store::Store;
use fk_model::{Body, Ptr, Who};

impl Store {
    /// The pointer of a mapping, a region or a reference leads elsewhere. What is none of them stays
    /// as it is.
    #[tactic(auto, using(crate::proofs::InStore::changing::EditLaws::alter_nothing))]
    pub fn point(&mut self, who: Who, to: Ptr)
        requires to { OnPointer (IsLive self.old) to }
        ensures world { world self.new ≡ apply (Alter (place (path self.old) who) (SetPointer (pointer_by (path self.old) to))) (world self.old) }
        ensures kinds { kind_there (world self.new) ≡ kind_there (world self.old) }
        ensures paths { path self.new ≡ path self.old }
    {
        match self.at(who) {
            None => {}
            Some(Body::Reference { .. }) => self.aim(who, to),
            Some(&body) => self.set(who, with_pointer(body, to)),
        }
    }

    /// A pointer leads to what is frozen for a thread.
    pub fn leads_to_frozen(&self, me: Who, to: Ptr) -> bool
        ensures { result ≡ holds.leads_to_frozen (world self.now) (place (path self.now) me) (pointer_by (path self.now) to) }
    {
        match to {
            Ptr::At(who) => self.frozen_for(me, who),
            Ptr::Null | Ptr::Dead => false,
        }
    }
}
