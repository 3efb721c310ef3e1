//! The near side over its kernel.
ghost use Rattle.std.specs.Prelude.{◌≡◌, ◌↔◌, IsTrue, IfNone, IfSome, IfOk, OnErr, OnOk, length, map, option_map};
ghost use Rattle.std.specs.List.{slice_get};
ghost use Rattle.fk_migrate.specs.Parts.{near_seen, told_near, given_up, NearLands};
ghost use Rattle.fk_migrate.specs.Turns.{given_in, heard_by, IsKept, IsNearFit, IsNearMove};
ghost use Rattle.fk_migrate.specs.Turns.{is_porters as moves_porter};
ghost use Rattle.fk_model.specs.declared.moves.Move as moves;
ghost use Rattle.fk_served.specs.Acts.{IsReadyAsked};
ghost use Rattle.fk_served.specs.Kernels.{world_of as world};
ghost use Rattle.fk_served.specs.Served.{AllFit};
ghost use Rattle.fk_sides.specs.Kept.{pieces_of, reason_of, why_kept};
ghost use Rattle.fk_sides.specs.Nears.{has_room_in, saves_of};
ghost use Rattle.fk_sides.specs.Sides.{near_call, near_heard, packet_of};
ghost use Rattle.laws_checkpoint.specs.Checkpoint.State.{Holds};
ghost use Rattle.laws_handover.specs.NearSide.Near.{Saves as AtWork};
ghost use Rattle.laws_handover.specs.Sent.{sent_near};
ghost use Rattle.laws_migrate.specs.Images.{image_codec};
ghost use Rattle.laws_migrate.specs.Migration.{may_give_up};

use crate::hearing::{answer_of, is_porters, look};
use fk_host::Host;
use fk_model::{Ask, Move, NoMemory, Said};
use fk_natives::Service;
use fk_packets::Packet;
use fk_responders::Table;
use fk_sides::{Near, Reason};
use std::alloc::Global;

/// A kernel with its servers, and the side of a migration that sends what stands in a slot of its root.
#[derive(Drop)]
pub struct Sender<S: Service + Drop> {
    host: Host<S>,
    near: Near,
}

/// Where the root's porter has made a call, its side hears the answer.
fn hear(near: &mut Near, is_porters: bool, said: &Said)
    requires { has_room_in near.old.saves }
    ensures slot { near.new.slot ≡ near.old.slot }
    ensures heard { saves_of near.new.saves ≡ heard_by is_porters (near_heard near.old.slot (saves_of near.old.saves)) (saves_of near.old.saves) said.now }
{
    if is_porters {
        near.answer(&answer_of(said));
    }
}

impl<S: Service + Drop> Sender<S> {
    /// A kernel with its servers, from a slot of whose root a subtree is to go.
    pub fn new(alloc: Global, host: Host<S>, slot: u8) -> Sender<S>
        ensures host { result.host ≡ host }
        ensures slot { result.near.slot ≡ slot }
        ensures state { saves_of result.near.saves ≡ AtWork Holds }
    {
        Sender {
            host,
            near: Near::new(alloc, slot),
        }
    }

    /// The kernel with its servers.
    pub fn host(&self) -> &Host<S>
        ensures { result.now ≡ self.now.host }
    {
        &self.host
    }

    /// A ready move of a user or a server; none exactly where there is none.
    pub fn choose(&mut self) -> Option<Move>
        ensures ready { IfSome result (λ m. IsReadyAsked (near_seen self.old).servers (near_seen self.old).world m) }
        ensures none { IfNone result ((m : moves.Move) → IsReadyAsked (near_seen self.old).servers (near_seen self.old).world m → ⊥) }
        ensures same { near_seen self.new ≡ near_seen self.old }
        ensures near { self.new.near ≡ self.old.near }
    {
        self.host.choose()
    }

    /// Whether a move is that of the root's porter.
    pub fn is_porters(&self, m: &Move) -> bool
        ensures { result ≡ moves_porter (near_seen self.now).world m.now }
    {
        is_porters(self.host.kernel(), m)
    }

    /// What is handed in with a move: the call for which its side asks, to the root's porter; everybody else runs.
    fn ask(&self, m: &Move) -> Option<Ask>
        ensures { result ≡ given_in (world self.now.host.kernel) (near_call self.now.near.slot (saves_of self.now.near.saves)) m.now }
    {
        if !is_porters(self.host.kernel(), m) {
            return Some(Ask::Run);
        }
        if m.pick.is_some() {
            return None;
        }
        let stage = self.near.next()?;
        Some(Ask::Call {
            stage,
            words: [0; 64],
        })
    }

    /// Whether a move is ready: of a user or a server, or the call for which its side asks of the root's porter.
    pub fn ready(&self, m: &Move) -> bool
        ensures ready { IsTrue result ↔ IsNearMove self.now.near.slot (near_seen self.now) m.now }
        ensures kept { IsKept (near_seen self.now).servers (near_seen self.now).world m.now.who }
    {
        look(&self.host, m);
        match self.ask(m) {
            Some(ask) => self.host.ready(m, &ask),
            None => false,
        }
    }

    /// Makes a move, which is ready and fit. A call of the root's porter is answered to its side. For want of memory all is as before.
    ///
    /// # Errors
    ///
    /// There is no memory for what the move makes or for an answer; all is as before.
    pub fn turn(&mut self, table: &Table, m: &Move) -> Result<(), NoMemory>
        requires ready { IsNearMove self.old.near.slot (near_seen self.old) m.now }
        requires fit { IsNearFit self.old.near.slot (near_seen self.old) m.now }
        requires fits { AllFit (map (λ r. r.rule) table.now.list.items) self.old.host.services.list }
        ensures lands { OnOk result (NearLands self.old.near.slot (near_seen self.old) m.now (near_seen self.new)) }
        ensures slot { self.new.near.slot ≡ self.old.near.slot }
        ensures fits { AllFit (map (λ r. r.rule) table.now.list.items) self.new.host.services.list }
        ensures lacking { OnErr result (near_seen self.new ≡ near_seen self.old) }
    {
        let Some(ask) = self.ask(m) else {
            unreachable!()
        };
        let is_own = is_porters(self.host.kernel(), m);
        self.near.reserve()?;
        let said = self.host.turn(table, m, &ask)?;
        hear(&mut self.near, is_own, &said);
        Ok(())
    }

    /// Takes a packet, of whatever kind, and however often it has come. For want of memory all is as before.
    ///
    /// # Errors
    ///
    /// There is no memory for the bytes of its image; all is as before.
    pub fn take(&mut self, packet: Packet) -> Result<(), NoMemory>
        ensures told { OnOk result (near_seen self.new ≡ told_near self.old.near.slot (near_seen self.old) packet) }
        ensures slot { self.new.near.slot ≡ self.old.near.slot }
        ensures services { self.new.host.services.list ≡ self.old.host.services.list }
        ensures lacking { OnErr result (near_seen self.new ≡ near_seen self.old) }
    {
        self.near.take(packet)?;
        Ok(())
    }

    /// Whether it waits: its image is gathered, and nothing was decided.
    pub fn waits(&self) -> bool
        ensures { IsTrue result ↔ may_give_up (near_seen self.now).side }
    {
        self.near.waits()
    }

    /// Gives up waiting: the subtree stays. For want of memory all is as before.
    ///
    /// # Errors
    ///
    /// There is no memory for the bytes of its image; all is as before.
    pub fn give_up(&mut self) -> Result<(), NoMemory>
        ensures told { OnOk result (near_seen self.new ≡ given_up self.old.near.slot (near_seen self.old)) }
        ensures slot { self.new.near.slot ≡ self.old.near.slot }
        ensures services { self.new.host.services.list ≡ self.old.host.services.list }
        ensures lacking { OnErr result (near_seen self.new ≡ near_seen self.old) }
    {
        self.near.give_up()?;
        Ok(())
    }

    /// The packet with a number, counted from 0 in the order of sending. It is made of what the side has come to.
    ///
    /// # Errors
    ///
    /// There is no memory for the bytes of its image or for the packet.
    pub fn packet(&mut self, number: u64) -> Result<Option<Packet>, NoMemory>
        ensures same { near_seen self.new ≡ near_seen self.old }
        ensures slot { self.new.near.slot ≡ self.old.near.slot }
        ensures services { self.new.host.services.list ≡ self.old.host.services.list }
        ensures packet { IfOk result (λ packet. option_map packet_of packet ≡ slice_get (sent_near image_codec (near_seen self.old).side) number) }
    {
        self.near.packet(number)
    }

    /// How many packets it has sent.
    ///
    /// # Errors
    ///
    /// There is no memory for the bytes of its image.
    pub fn sent(&mut self) -> Result<u64, NoMemory>
        ensures same { near_seen self.new ≡ near_seen self.old }
        ensures slot { self.new.near.slot ≡ self.old.near.slot }
        ensures services { self.new.host.services.list ≡ self.old.host.services.list }
        ensures sent { IfOk result (λ many. many ≡ length (sent_near image_codec (near_seen self.old).side)) }
    {
        self.near.spell()?;
        match self.near.sent() {
            Some(many) => Ok(many),
            None => unreachable!(),
        }
    }
    /// How many pieces it has sent.
    ///
    /// # Errors
    ///
    /// There is no memory for the bytes of its image; all is as before.
    pub fn pieces(&mut self) -> Result<u64, NoMemory>
        ensures same { near_seen self.new ≡ near_seen self.old }
        ensures slot { self.new.near.slot ≡ self.old.near.slot }
        ensures pieces { IfOk result (λ many. many ≡ pieces_of (near_seen self.old).side) }
    {
        self.near.pieces()
    }

    /// Why the original is kept and let go, once it is.
    pub fn kept(&self) -> Option<Reason<'_>>
        ensures { option_map reason_of result ≡ why_kept (near_seen self.now).side }
    {
        self.near.kept()
    }
}
