//! A thread goes on where it stands, and a mutex is set there.
ghost use Rattle.std.specs.Prelude.{◌≡◌};
ghost use Rattle.fk_model.specs.World.{apply};
ghost use Rattle.fk_model.specs.World.Change.{Alter};
ghost use Rattle.fk_model.specs.World.Edit.{Proceed};
ghost use Rattle.fk_model.specs.Valid.{kind_there};
ghost use Rattle.fk_store.specs.Store.Paths.{path, place};
ghost use Rattle.fk_store.specs.Store.Bodies.{mode_by};
ghost use Rattle.fk_store.specs.Store.Nudges.{edit_of};
ghost use Rattle.fk_store.specs.Store.WellFormed.{HasCall};
ghost use Rattle.fk_store.specs.Store.World.{world};

use crate::store::Store;
use fk_model::{Mode, Who};
use fk_store_graph::leads::Nudge;

impl Store {
    /// A thread goes on with these registers, at this counter and in this mode. Where it calls, the
    /// first register holds a call's code. What is no thread stays as it is.
    pub fn proceed(&mut self, me: Who, registers: &[u64; 16], counter: u64, mode: Mode)
        requires call { HasCall mode registers.now }
        ensures world { world self.new ≡ apply (Alter (place (path self.old) me) (Proceed (mode_by mode registers.now) counter)) (world self.old) }
        ensures kinds { kind_there (world self.new) ≡ kind_there (world self.old) }
        ensures paths { path self.new ≡ path self.old }
    {
        self.bodies.proceed(me, registers, counter, mode);
    }

    /// A thread or a mutex changes a little. What is neither stays as it is.
    pub fn nudge(&mut self, who: Who, change: Nudge)
        ensures world { world self.new ≡ apply (Alter (place (path self.old) who) (edit_of change)) (world self.old) }
        ensures kinds { kind_there (world self.new) ≡ kind_there (world self.old) }
        ensures paths { path self.new ≡ path self.old }
    {
        self.bodies.nudge(who, change);
    }
}
