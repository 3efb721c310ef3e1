//! What moves do to the talk that a thread has as a client.
ghost use Rattle.std.specs.Prelude.{◌≡◌, option_map};
ghost use Rattle.fk_model.specs.World.{apply};
ghost use Rattle.fk_model.specs.World.Change.{Alter};
ghost use Rattle.fk_model.specs.World.Edit.{SetTalk, CountMoved, PassTurn, SetPeer};
ghost use Rattle.fk_model.specs.Valid.{kind_there};
ghost use Rattle.fk_store.specs.Store.Paths.{path, place};
ghost use Rattle.fk_store.specs.Store.Bodies.{talk_by, peer_by};
ghost use Rattle.fk_store.specs.Store.Named.{Each, OnTalk, OnPeer};
ghost use Rattle.fk_store.specs.Store.World.{world, IsLive};

use crate::store::store::Store;
use fk_model::{Body, Peer, Talk, Thread, Turn, Who};
use fk_store_graph::leads::Nudge;

impl Store {
    /// The talk of a client begins or ends. What is no thread stays as it is.
    #[tactic(auto, using(crate::proofs::InStore::changing::ThreadLaws::kind_thread, crate::proofs::InStore::changing::EditLaws::talk_nobody), unfolding(fk_model::specs::World::edited))]
    pub fn set_talk(&mut self, client: Who, talk: Option<Talk>)
        requires talk { Each (OnTalk (IsLive self.old)) talk }
        ensures world { world self.new ≡ apply (Alter (place (path self.old) client) (SetTalk (option_map (talk_by (path self.old)) talk))) (world self.old) }
        ensures kinds { kind_there (world self.new) ≡ kind_there (world self.old) }
        ensures paths { path self.new ≡ path self.old }
    {
        if let Some(&thread) = self.thread(client) {
            self.set(client, Body::Thread(Thread { talk, ..thread }));
        }
    }

    /// It is the turn of a side of a client's talk, and no words have been moved in it. What is in
    /// no talk as a client stays as it is.
    pub fn pass_turn(&mut self, client: Who, turn: Turn)
        ensures world { world self.new ≡ apply (Alter (place (path self.old) client) (PassTurn turn)) (world self.old) }
        ensures kinds { kind_there (world self.new) ≡ kind_there (world self.old) }
        ensures paths { path self.new ≡ path self.old }
    {
        self.nudge(client, Nudge::Passes(turn));
    }

    /// The talk of a thread as a client has moved so many words more. What is in no talk stays as it
    /// is.
    pub fn count_moved(&mut self, client: Who, count: u8)
        ensures world { world self.new ≡ apply (Alter (place (path self.old) client) (CountMoved count)) (world self.old) }
        ensures kinds { kind_there (world self.new) ≡ kind_there (world self.old) }
        ensures paths { path self.new ≡ path self.old }
    {
        self.nudge(client, Nudge::Counts(count));
    }

    /// A client's talk has this peer. What is in no talk as a client stays as it is.
    #[tactic(auto, using(crate::proofs::InStore::changing::ThreadLaws::kind_thread, crate::proofs::InStore::changing::EditLaws::peer_nobody), unfolding(fk_model::specs::World::edited))]
    pub fn set_peer(&mut self, client: Who, peer: Peer)
        requires peer { OnPeer (IsLive self.old) peer }
        ensures world { world self.new ≡ apply (Alter (place (path self.old) client) (SetPeer (peer_by (path self.old) peer))) (world self.old) }
        ensures kinds { kind_there (world self.new) ≡ kind_there (world self.old) }
        ensures paths { path self.new ≡ path self.old }
    {
        if let Some(&thread) = self.thread(client) {
            let talk = match thread.talk {
                None => None,
                Some(talk) => Some(Talk { peer, ..talk }),
            };
            self.set(client, Body::Thread(Thread { talk, ..thread }));
        }
    }
}
