//! What moves do to mutexes.
ghost use Rattle.std.specs.Prelude.{◌≡◌};
ghost use Rattle.fk_model.specs.Objects.{and_then, mutex_of};
ghost use Rattle.fk_model.specs.World.{apply};
ghost use Rattle.fk_model.specs.World.Change.{Alter};
ghost use Rattle.fk_model.specs.World.Edit.{SetLocked};
ghost use Rattle.fk_model.specs.Valid.{kind_there};
ghost use Rattle.fk_store.specs.Store.Paths.{path, place};
ghost use Rattle.fk_store.specs.Store.World.{world};

use crate::store::store::Store;
use fk_model::{Body, Who};
use fk_store_graph::leads::Nudge;

impl Store {
    /// Whether a mutex is locked; nothing where no mutex is there.
    pub fn mutex(&self, who: Who) -> Option<bool>
        ensures { result ≡ and_then mutex_of ((world self.now).body (place (path self.now) who)) }
    {
        match self.at(who) {
            Some(Body::Mutex { locked }) => Some(*locked),
            Some(
                Body::Cond
                | Body::Mapping { .. }
                | Body::Region { .. }
                | Body::Port { .. }
                | Body::Portset
                | Body::Space { .. }
                | Body::Thread(_)
                | Body::Reference { .. },
            )
            | None => None,
        }
    }

    /// Locks a mutex, or unlocks it. What is no mutex stays as it is.
    pub fn set_locked(&mut self, who: Who, locked: bool)
        ensures world { world self.new ≡ apply (Alter (place (path self.old) who) (SetLocked locked)) (world self.old) }
        ensures kinds { kind_there (world self.new) ≡ kind_there (world self.old) }
        ensures paths { path self.new ≡ path self.old }
    {
        self.nudge(who, Nudge::Locks(locked));
    }
}
