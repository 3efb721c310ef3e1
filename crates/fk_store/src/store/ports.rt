//! Which set a port is in.
ghost use Rattle.std.specs.Prelude.{◌≡◌};
ghost use Rattle.fk_model.specs.World.{apply};
ghost use Rattle.fk_model.specs.World.Change.{Alter};
ghost use Rattle.fk_model.specs.World.Edit.{SetMember};
ghost use Rattle.fk_model.specs.Valid.{kind_there};
ghost use Rattle.fk_store.specs.Store.Paths.{path, place};
ghost use Rattle.fk_store.specs.Store.World.{world};

use crate::store::edits::with_set;
use crate::store::store::Store;
use fk_model::Who;

impl Store {
    /// A port is in the port set in this slot of its space, or in none. What is no port stays as it
    /// is.
    #[tactic(auto, using(crate::proofs::InStore::changing::EditLaws::alter_nothing))]
    pub fn set_member(&mut self, port: Who, set: Option<u8>)
        ensures world { world self.new ≡ apply (Alter (place (path self.old) port) (SetMember set)) (world self.old) }
        ensures kinds { kind_there (world self.new) ≡ kind_there (world self.old) }
        ensures paths { path self.new ≡ path self.old }
    {
        if let Some(&body) = self.at(port) {
            self.set(port, with_set(body, set));
        }
    }
}
