//! A thread gets another fault where it stands.
ghost use Rattle.std.specs.Prelude.{◌≡◌, Some, option_map};
ghost use Rattle.fk_model.specs.World.{Edit, apply, edited};
ghost use Rattle.fk_model.specs.World.Change.{Alter};
ghost use Rattle.fk_model.specs.World.Edit.{SetFault};
ghost use Rattle.fk_model.specs.Valid.{kind_there};
ghost use Rattle.fk_model.specs.declared.names.Kind.TheVariants as kinds;
ghost use Rattle.fk_store.specs.Store.Paths.{path, place};
ghost use Rattle.fk_store.specs.Store.Bodies.{fault_by};
ghost use Rattle.fk_store.specs.Store.Named.{Each, OnFault};
ghost use Rattle.fk_store.specs.Store.World.{world, IsLive};

use crate::store::Store;
use fk_model::{Fault, Who};

impl Store {
    /// A thread has this fault, or none, which names what is there. It is what any edit makes of the thread that makes that of it.
    pub fn put_fault(&mut self, who: Who, fault: Option<Fault>)
        requires kind { kind_there (world self.old) (place (path self.old) who) ≡ Some kinds.Thread }
        requires named { Each (OnFault (IsLive self.old)) fault }
        ensures edits { let there = (world self.old).body (place (path self.old) who) in (e : Edit)
            → option_map (edited e) there ≡ option_map (edited (SetFault (option_map (fault_by (path self.old)) fault))) there
            → world self.new ≡ apply (Alter (place (path self.old) who) e) (world self.old) }
        ensures kinds { kind_there (world self.new) ≡ kind_there (world self.old) }
        ensures paths { path self.new ≡ path self.old }
    {
        self.bodies.set_fault(who, fault);
    }
}
