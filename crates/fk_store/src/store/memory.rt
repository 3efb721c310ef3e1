//! Which pages mappings and regions are of.
ghost use Rattle.std.specs.Prelude.{◌≡◌, true};
ghost use Rattle.fk_model.specs.World.{apply};
ghost use Rattle.fk_model.specs.World.Change.{Alter};
ghost use Rattle.fk_model.specs.World.Edit.{SetWindow, SetExtent};
ghost use Rattle.fk_model.specs.Valid.{kind_there};
ghost use Rattle.fk_store.specs.Store.Paths.{path, place};
ghost use Rattle.fk_store.specs.Store.World.{world};
ghost use Rattle.fk_model.specs.Records.{is_page_range};

use crate::store::edits::{with_extent, with_window};
use crate::store::store::Store;
use fk_model::Who;

impl Store {
    /// A mapping is of `count` pages of its space, from 1 to 256, from `first` on. They lead to the
    /// pages of its region from `offset` on. What is no mapping stays as it is.
    #[tactic(auto, using(crate::proofs::InStore::changing::EditLaws::alter_nothing))]
    pub fn set_window(&mut self, mapping: Who, first: u8, count: u16, offset: u8, write: bool)
        requires sized { is_page_range first count ≡ true }
        ensures world { world self.new ≡ apply (Alter (place (path self.old) mapping) (SetWindow first count offset write)) (world self.old) }
        ensures kinds { kind_there (world self.new) ≡ kind_there (world self.old) }
        ensures paths { path self.new ≡ path self.old }
    {
        if let Some(&body) = self.at(mapping) {
            self.set(mapping, with_window(body, first, count, offset, write));
        }
    }

    /// A region is of `count` pages of its space, from 1 to 256, from `first` on. What is no region
    /// stays as it is.
    #[tactic(auto, using(crate::proofs::InStore::changing::EditLaws::alter_nothing))]
    pub fn set_extent(&mut self, region: Who, first: u8, count: u16, write: bool)
        requires sized { is_page_range first count ≡ true }
        ensures world { world self.new ≡ apply (Alter (place (path self.old) region) (SetExtent first count write)) (world self.old) }
        ensures kinds { kind_there (world self.new) ≡ kind_there (world self.old) }
        ensures paths { path self.new ≡ path self.old }
    {
        if let Some(&body) = self.at(region) {
            self.set(region, with_extent(body, first, count, write));
        }
    }
}
