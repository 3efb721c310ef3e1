//! The far side over its kernel.
ghost use Rattle.std.specs.Prelude.{◌≡◌, ◌↔◌, ◌≤◌, [], IsTrue, IfNone, IfSome, OnErr, OnOk, length, map, option_map};
ghost use Rattle.std.specs.List.{slice_get};
ghost use Rattle.fk_migrate.specs.Parts.{far_seen, FarLands};
ghost use Rattle.fk_migrate.specs.Turns.{given_in, heard_by, HasFarMove, IsFarMove, IsKept};
ghost use Rattle.fk_migrate.specs.Turns.{is_porters as moves_porter};
ghost use Rattle.fk_model.specs.declared.limits.TheConstants.{LAST_USER_SLOT};
ghost use Rattle.fk_model.specs.declared.moves.Move as moves;
ghost use Rattle.fk_served.specs.Acts.{IsReadyAsked};
ghost use Rattle.fk_served.specs.Kernels.{world_of as world};
ghost use Rattle.fk_served.specs.Served.{AllFit};
ghost use Rattle.fk_sides.specs.Fars.{IsFar};
ghost use Rattle.fk_sides.specs.Kept.{is_moved};
ghost use Rattle.fk_sides.specs.Sides.{FarSide, both, far_call, far_heard, packet_of};
ghost use Rattle.laws_handover.specs.FarSide.Far.{Listens};
ghost use Rattle.laws_handover.specs.Handover.{far_told};
ghost use Rattle.laws_handover.specs.Sent.{sent_far};

use crate::hearing::{answer_of, is_porters, look};
use fk_host::Host;
use fk_model::{Ask, Move, NoMemory, Said};
use fk_natives::Service;
use fk_packets::Packet;
use fk_responders::Table;
use fk_sides::Far;
use std::alloc::Global;

/// A kernel with its servers, and the side of a migration that makes what is sent in a slot of its root.
#[derive(Drop)]
pub struct Receiver<S: Service + Drop> {
    host: Host<S>,
    far: Far,
}

/// Where the root's porter has made a call, its side hears the answer.
fn hear(far: &mut Far, is_porters: bool, said: &Said)
    ensures slot { far.new.slot ≡ far.old.slot }
    ensures heard { (f : FarSide) → IsFar far.old.makes f → IsFar far.new.makes (heard_by is_porters (far_heard far.old.slot f) f said.now) }
{
    if is_porters {
        far.answer(&answer_of(said));
    }
}

impl<S: Service + Drop> Receiver<S> {
    /// A kernel with its servers, to a slot of whose root a subtree is to come.
    pub fn new(alloc: Global, host: Host<S>, slot: u8) -> Receiver<S>
        requires { slot ≤ LAST_USER_SLOT }
        ensures host { result.host ≡ host }
        ensures slot { result.far.slot ≡ slot }
        ensures state { IsFar result.far.makes (Listens []) }
    {
        Receiver {
            host,
            far: Far::new(alloc, slot),
        }
    }

    /// The kernel with its servers.
    pub fn host(&self) -> &Host<S>
        ensures { result.now ≡ self.now.host }
    {
        &self.host
    }

    /// A ready move of a user or a server; none exactly where there is none.
    pub fn choose(&mut self) -> Option<Move>
        ensures ready { IfSome result (λ m. IsReadyAsked (far_seen self.old).servers (far_seen self.old).world m) }
        ensures none { IfNone result ((m : moves.Move) → IsReadyAsked (far_seen self.old).servers (far_seen self.old).world m → ⊥) }
        ensures same { far_seen self.new ≡ far_seen self.old }
        ensures far { self.new.far ≡ self.old.far }
    {
        self.host.choose()
    }

    /// Whether a move is that of the root's porter.
    pub fn is_porters(&self, m: &Move) -> bool
        ensures { result ≡ moves_porter (far_seen self.now).world m.now }
    {
        is_porters(self.host.kernel(), m)
    }

    /// What is handed in with a move: the call for which its side asks, to the root's porter; everybody else runs.
    fn ask(&self, m: &Move) -> Option<Ask>
        ensures { (f : FarSide) → IsFar self.now.far.makes f → result ≡ given_in (world self.now.host.kernel) (far_call self.now.far.slot f) m.now }
    {
        if !is_porters(self.host.kernel(), m) {
            return Some(Ask::Run);
        }
        if m.pick.is_some() {
            return None;
        }
        let mut words = [0; 64];
        let stage = self.far.next(&mut words)?;
        Some(Ask::Call { stage, words })
    }

    /// Whether a move is ready: of a user or a server, or the call for which its side asks of the root's porter.
    pub fn ready(&self, m: &Move) -> bool
        ensures ready { (f : FarSide) → IsFar self.now.far.makes f → (IsTrue result ↔ IsFarMove self.now.far.slot (far_seen self.now) f m.now) }
        ensures kept { IsKept (far_seen self.now).servers (far_seen self.now).world m.now.who }
    {
        look(&self.host, m);
        match self.ask(m) {
            Some(ask) => self.host.ready(m, &ask),
            None => false,
        }
    }

    /// Makes a move, which is ready and fit. A call of the root's porter is answered to its side. For want of memory all is as before.
    ///
    /// # Errors
    ///
    /// There is no memory for what the move makes or for an answer; all is as before.
    pub fn turn(&mut self, table: &Table, m: &Move) -> Result<(), NoMemory>
        requires ready { HasFarMove self.old.far.slot (far_seen self.old) self.old.far.makes m.now }
        requires fits { AllFit (map (λ r. r.rule) table.now.list.items) self.old.host.services.list }
        ensures lands { OnOk result (FarLands self.old.far.slot (far_seen self.old) self.old.far.makes m.now (far_seen self.new) self.new.far.makes) }
        ensures slot { self.new.far.slot ≡ self.old.far.slot }
        ensures fits { AllFit (map (λ r. r.rule) table.now.list.items) self.new.host.services.list }
        ensures lacking { OnErr result (far_seen self.new ≡ far_seen self.old) }
        ensures lacking_side { OnErr result (self.new.far ≡ self.old.far) }
    {
        let Some(ask) = self.ask(m) else {
            unreachable!()
        };
        let is_own = is_porters(self.host.kernel(), m);
        let said = self.host.turn(table, m, &ask)?;
        hear(&mut self.far, is_own, &said);
        Ok(())
    }

    /// Takes a packet, of whatever kind, and however often it has come. Pieces may come in any order. For want of memory all is as before.
    ///
    /// # Errors
    ///
    /// There is no memory for the packet; all is as before.
    pub fn take(&mut self, packet: &Packet) -> Result<(), NoMemory>
        ensures same { far_seen self.new ≡ far_seen self.old }
        ensures slot { self.new.far.slot ≡ self.old.far.slot }
        ensures services { self.new.host.services.list ≡ self.old.host.services.list }
        ensures told { OnOk result ((f : FarSide) → IsFar self.old.far.makes f
            → IsFar self.new.far.makes (far_told (both self.old.far.slot) f (packet_of packet.now))) }
        ensures lacking { OnErr result ((f : FarSide) → IsFar self.old.far.makes f → IsFar self.new.far.makes f) }
    {
        self.far.take(packet)
    }

    /// The packet with a number, counted from 0 in the order of sending. It is made of what the side has come to.
    pub fn packet(&self, number: u64) -> Option<Packet>
        ensures { (f : FarSide) → IsFar self.now.far.makes f → option_map packet_of result ≡ slice_get (sent_far f) number }
    {
        self.far.packet(number)
    }

    /// How many packets it has sent: one at most.
    pub fn sent(&self) -> u64
        ensures { (f : FarSide) → IsFar self.now.far.makes f → result ≡ length (sent_far f) }
    {
        if self.far.packet(0).is_some() {
            return 1;
        }
        0
    }

    /// Whether the copy is let go.
    pub fn has_moved(&self) -> bool
        ensures { (f : FarSide) → IsFar self.now.far.makes f → result ≡ is_moved f }
    {
        self.far.has_moved()
    }
}
