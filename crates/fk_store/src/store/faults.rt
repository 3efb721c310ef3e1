//! What moves do to the fault of a thread.
ghost use Rattle.std.specs.Prelude.{◌≡◌, Some, option_map, IsSome};
ghost use Rattle.fk_model.specs.World.{apply};
ghost use Rattle.fk_model.specs.World.Change.{Alter};
ghost use Rattle.fk_model.specs.World.Edit.{SetFault, SetTaker};
ghost use Rattle.fk_model.specs.Valid.{kind_there};
ghost use Rattle.fk_model.specs.declared.names.Kind.TheVariants as kinds;
ghost use Rattle.fk_store.specs.Store.Paths.{path, place};
ghost use Rattle.fk_store.specs.Store.Bodies.{fault_by, peer_by};
ghost use Rattle.fk_store.specs.Store.Named.{Each, OnFault, OnPeer};
ghost use Rattle.fk_store.specs.Store.World.{world, IsLive};
ghost use Rattle.fk_model.specs.Places.Ptr.{At};
ghost use Rattle.fk_model.specs.Readers.{fault_on};
ghost use Rattle.fk_model.specs.Searches.{fault_at};

use crate::store::store::Store;
use fk_model::{Fault, Peer, Who};

impl Store {
    /// A thread has a fault on a page that is missing, which the port's server may take. What is no
    /// thread stays as it is.
    pub fn raise(&mut self, me: Who, page: u8, write: bool, port: Who)
        requires port { IsLive self.old port }
        ensures world { world self.new ≡ apply (fault_on (place (path self.old) me) page write (At (place (path self.old) port))) (world self.old) }
        ensures kinds { kind_there (world self.new) ≡ kind_there (world self.old) }
        ensures paths { path self.new ≡ path self.old }
    {
        let fault = Fault {
            page,
            write,
            port,
            taker: None,
        };
        self.set_fault(me, Some(fault));
    }

    /// The fault of a thread begins or ends. What is no thread stays as it is.
    #[tactic(auto, using(crate::proofs::InStore::changing::ThreadLaws::kind_thread, crate::proofs::InStore::changing::EditLaws::fault_nobody))]
    pub fn set_fault(&mut self, who: Who, fault: Option<Fault>)
        requires fault { Each (OnFault (IsLive self.old)) fault }
        ensures world { world self.new ≡ apply (Alter (place (path self.old) who) (SetFault (option_map (fault_by (path self.old)) fault))) (world self.old) }
        ensures kinds { kind_there (world self.new) ≡ kind_there (world self.old) }
        ensures paths { path self.new ≡ path self.old }
    {
        if let Some(_thread) = self.thread(who) {
            self.put_fault(who, fault);
        }
    }

    /// The fault of a thread has this taker, or is raised again. What has no fault stays as it is.
    pub fn set_taker(&mut self, who: Who, taker: Option<Peer>)
        requires taker { Each (OnPeer (IsLive self.old)) taker }
        ensures world { world self.new ≡ apply (Alter (place (path self.old) who) (SetTaker (option_map (peer_by (path self.old)) taker))) (world self.old) }
        ensures kinds { kind_there (world self.new) ≡ kind_there (world self.old) }
        ensures paths { path self.new ≡ path self.old }
    {
        if let Some(fault) = self.fault_of(who) {
            self.put_fault(who, Some(Fault { taker, ..fault }));
        }
    }

    /// The fault of a thread.
    fn fault_of(&self, who: Who) -> Option<Fault>
        ensures fault { option_map (fault_by (path self.now)) result ≡ fault_at (world self.now) (place (path self.now) who) }
        ensures named { Each (OnFault (IsLive self.now)) result }
        ensures kind { IsSome result → kind_there (world self.now) (place (path self.now) who) ≡ Some kinds.Thread }
    {
        self.thread(who)?.fault
    }
}
