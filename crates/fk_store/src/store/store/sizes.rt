//! What every store has: its lists are as long as they are to be, and its pointers lead somewhere in it, or nowhere.
ghost use Rattle.std.specs.Prelude.{◌≡◌, Bool, false, length, Some};
ghost use Rattle.std.specs.List.{list_any};
ghost use Rattle.fk_model.specs.Freezing.{body_pointers};
ghost use Rattle.fk_model.specs.Objects.{Thread, registers_of, thread_of, and_then};
ghost use Rattle.fk_model.specs.Places.{Path, Ptr};
ghost use Rattle.fk_model.specs.Places.Ptr.{Null, Dead, At};
ghost use Rattle.fk_model.specs.Shapes.{IsShapedMode};
ghost use Rattle.fk_model.specs.Whole.{HasFullPages};
ghost use Rattle.fk_store.specs.Store.World.{world};

use crate::store::Store;

impl Store {
    /// Every page has its 64 words, and every thread its 16 registers: those of a calling thread hold
    /// the stages of a call, and the rest beside them.
    pub fn sizes(&self)
        ensures pages { HasFullPages (world self.now) }
        ensures registers { (x : Path) (t : Thread) → and_then thread_of ((world self.now).body x) ≡ Some t → length (registers_of t.mode) ≡ 16 }
        ensures shaped { (x : Path) (t : Thread) → and_then thread_of ((world self.now).body x) ≡ Some t → IsShapedMode t.mode }
    {
        let _next = self.next;
    }

    /// Every pointer leads somewhere in the store, or nowhere: what holds of no such pointer holds of
    /// none. So a store's world is nobody's cut.
    pub fn leads(&self)
        ensures { (test : Ptr → Bool) → test Null ≡ false → test Dead ≡ false → ((x : Path) → test (At x) ≡ false)
            → (x : Path) → list_any test (body_pointers ((world self.now).body x)) ≡ false }
    {
        let _next = self.next;
    }
}
