//! The far side.
ghost use Rattle.std.specs.Prelude.{◌≡◌, ◌≤◌, [], ℕ, List, length, option_map, take, IfOk, OnErr, OnOk};
ghost use Rattle.std.specs.List.{slice_get};
ghost use Rattle.fk_model.specs.declared.limits.TheConstants.{LAST_USER_SLOT};
ghost use Rattle.fk_restore.specs.Restore.Restores.{Restoring as restores, end_of};
ghost use Rattle.fk_sides.specs.Cames.{IsCome};
ghost use Rattle.fk_sides.specs.declared.far.Stand.TheVariants as stands;
ghost use Rattle.fk_sides.specs.Fars.{fails_so, gone_on, look_of, refusal_of, slot_in, stand_of, Begins, IsFar};
ghost use Rattle.fk_sides.specs.Kept.{is_moved};
ghost use Rattle.fk_sides.specs.Sides.{FarSide, both, call_with, far_call, far_heard, option_list, packet_of, why_of};
ghost use Rattle.laws_handover.specs.FarSide.Far.{Listens};
ghost use Rattle.laws_handover.specs.Handover.{far_told};
ghost use Rattle.laws_handover.specs.Pieces.{Piece};
ghost use Rattle.laws_handover.specs.Sent.{sent_far};
ghost use Rattle.laws_jobs.specs.Machines.{no_words};
ghost use Rattle.laws_migrate.specs.Migration.{made, made_end, of_job};

use crate::blocks::Block;
use crate::came::Came;
use crate::restoring::Restoring;
use fk_finish::ValidImage;
use fk_model::limits::OWN_SPACE;
use fk_model::{Answer, NoMemory, Stage};
use fk_packets::{Packet, Why};
use fk_restore::RestoreEnd;
use std::alloc::Global;

/// Why there is no copy.
#[derive(Clone, Copy)]
pub enum Refusal {
    /// The slot is taken.
    Occupied,
    /// There is no port in this slot.
    NoPort(u8),
    /// The restore was released, which it never is.
    Never,
}

/// Where a restore stands after an answer.
#[derive(Clone, Copy)]
pub enum Look {
    Goes,
    /// Only its release is left.
    Builds,
    Fails(Refusal),
}

/// What the far side has come to since its restore began.
#[derive(Clone, Copy)]
pub enum Stand {
    /// The restore is at work.
    Works,
    /// The copy is built.
    Built,
    /// The original is gone: it releases the copy.
    Releases,
    /// The copy is released.
    Moved,
    /// The restore has ended without a copy.
    Refuses(Refusal),
    /// The original is kept: the restore goes on, and then the copy is destroyed.
    Undoes,
    /// It destroys the copy, which was ready or not, in so many more than one stages.
    Clears { more: u128, ready: bool },
    /// Nothing is left of the copy, which was ready or not.
    Ended { ready: bool },
}

/// What the far side has come to.
#[derive(Drop)]
pub enum Makes {
    /// These pieces have come.
    Listens(Came),
    /// The original was kept before all had come.
    Never,
    /// The image is read.
    Restores { restore: Restoring, stand: Stand },
}

/// The far side of a migration to a slot.
#[derive(Drop)]
pub struct Far {
    alloc: Global,
    slot: u8,
    makes: Makes,
    ghost low: { slot ≤ LAST_USER_SLOT },
    ghost same: { slot_in slot makes ≡ slot },
}

/// Why there is no copy, by how a restore has ended.
fn refusal_in(end: &RestoreEnd) -> Refusal
    ensures { made_end (end_of end.now) ≡ fails_so result }
{
    match end {
        RestoreEnd::Done => Refusal::Never,
        RestoreEnd::Occupied => Refusal::Occupied,
        RestoreEnd::NoPort(port) => Refusal::NoPort(*port),
    }
}

/// Where a restore stands.
fn seen_at(restore: &Restoring) -> Look
    ensures { of_job restore.now.image (made restore.now.state) ≡ look_of restore.now result }
{
    if restore.built() {
        return Look::Builds;
    }
    match restore.end() {
        None => Look::Goes,
        Some(end) => Look::Fails(refusal_in(end)),
    }
}

/// A restore at work takes an answer.
fn go_on(restore: &mut Restoring, answer: &Answer) -> Stand
    ensures slot { restore.new.slot ≡ restore.old.slot }
    ensures heard { stand_of restore.new result
        ≡ far_heard restore.old.slot (stand_of restore.old stands.Works) answer.now.status (take answer.now.len answer.now.words) }
{
    restore.absorb(answer);
    match seen_at(restore) {
        Look::Goes => Stand::Works,
        Look::Builds => Stand::Built,
        Look::Fails(why) => Stand::Refuses(why),
    }
}

/// One that is to be undone takes an answer.
fn undo(restore: &mut Restoring, answer: &Answer) -> Stand
    ensures slot { restore.new.slot ≡ restore.old.slot }
    ensures heard { stand_of restore.new result
        ≡ far_heard restore.old.slot (stand_of restore.old stands.Undoes) answer.now.status (take answer.now.len answer.now.words) }
{
    restore.absorb(answer);
    match seen_at(restore) {
        Look::Goes => Stand::Undoes,
        Look::Builds => Stand::Clears {
            more: restore.objects(),
            ready: false,
        },
        Look::Fails(_) => Stand::Ended { ready: false },
    }
}

/// What comes of a stage of destroying.
fn cleared(more: u128, ready: bool) -> Stand
    ensures { (r : restores) (slot status : ℕ) (words : List ℕ)
        → stand_of r result ≡ far_heard slot (stand_of r (stands.Clears more ready)) status words }
{
    if more == 0 {
        Stand::Ended { ready }
    } else {
        Stand::Clears {
            more: more - 1,
            ready,
        }
    }
}

/// What comes of an answer.
fn answer_in(restore: &mut Restoring, stand: Stand, answer: &Answer) -> Stand
    ensures slot { restore.new.slot ≡ restore.old.slot }
    ensures heard { stand_of restore.new result
        ≡ far_heard restore.old.slot (stand_of restore.old stand) answer.now.status (take answer.now.len answer.now.words) }
{
    match stand {
        Stand::Works => go_on(restore, answer),
        Stand::Undoes => undo(restore, answer),
        Stand::Releases => Stand::Moved,
        Stand::Clears { more, ready } => cleared(more, ready),
        Stand::Built | Stand::Moved | Stand::Refuses(_) | Stand::Ended { .. } => stand,
    }
}

/// The call for which it asks once the image is read, with its words over zeros.
fn next_in(slot: u8, restore: &Restoring, stand: Stand, words: &mut [u64; 64]) -> Option<Stage>
    requires slot { restore.now.slot ≡ slot }
    requires zeros { words.old ≡ no_words }
    ensures { call_with result words.new ≡ far_call slot (stand_of restore.now stand) }
{
    let x = u64::from(slot);
    match stand {
        Stand::Works | Stand::Undoes => restore.next(words),
        Stand::Releases => Some(Stage::SpaceRelease { s: OWN_SPACE, x }),
        Stand::Clears { .. } => Some(Stage::Destroy { s: OWN_SPACE, x }),
        Stand::Built | Stand::Moved | Stand::Refuses(_) | Stand::Ended { .. } => None,
    }
}

/// What comes of a packet once the image is read.
fn told(restore: &Restoring, stand: Stand, packet: &Packet) -> Stand
    ensures { (slot : ℕ) → stand_of restore.now result ≡ far_told (both slot) (stand_of restore.now stand) (packet_of packet.now) }
{
    match stand {
        Stand::Works => told_works(packet),
        Stand::Built => told_built(restore, packet),
        other => other,
    }
}

fn told_works(packet: &Packet) -> Stand
    ensures { (r : restores) (slot : ℕ) → stand_of r result ≡ far_told (both slot) (stand_of r stands.Works) (packet_of packet.now) }
{
    match packet {
        Packet::Cancel => Stand::Undoes,
        _ => Stand::Works,
    }
}

fn told_built(restore: &Restoring, packet: &Packet) -> Stand
    ensures { (slot : ℕ) → stand_of restore.now result ≡ far_told (both slot) (stand_of restore.now stands.Built) (packet_of packet.now) }
{
    match packet {
        Packet::Gone => Stand::Releases,
        Packet::Cancel => Stand::Clears {
            more: restore.objects(),
            ready: true,
        },
        _ => Stand::Built,
    }
}

/// What comes of a packet while pieces come, if it goes on to something else.
fn listen(
    alloc: Global,
    slot: u8,
    came: &mut Came,
    packet: &Packet,
) -> Result<Option<Makes>, NoMemory>
    requires { slot ≤ LAST_USER_SLOT }
    ensures told { IfOk result (λ next. (got : List Piece) → IsCome came.old got
        → IsFar (gone_on came.new next) (far_told (both slot) (Listens got) (packet_of packet.now))) }
    ensures slot { IfOk result (λ next. slot_in slot (gone_on came.new next) ≡ slot) }
    ensures lacking { OnErr result ((got : List Piece) → IsCome came.old got → IsCome came.new got) }
{
    match packet {
        Packet::Piece {
            number,
            total,
            bytes,
            len,
        } => {
            let block = Block {
                bytes: *bytes,
                len: *len,
            };
            let image = came.take(*number, *total, block)?;
            Ok(begin(alloc, slot, image))
        }
        Packet::Cancel => Ok(Some(Makes::Never)),
        Packet::Ready => Ok(None),
        Packet::Refused(_) => Ok(None),
        Packet::Gone => Ok(None),
    }
}

/// The restore of an image, if there is one.
fn begin(alloc: Global, slot: u8, image: Option<ValidImage>) -> Option<Makes>
    requires { slot ≤ LAST_USER_SLOT }
    ensures { Begins result slot image }
{
    let image = image?;
    Some(Makes::Restores {
        restore: Restoring::new(alloc, slot, image),
        stand: Stand::Works,
    })
}

/// Why there is no copy, as a packet says it.
fn why(refusal: Refusal) -> Why
    ensures { why_of result ≡ refusal_of refusal }
{
    match refusal {
        Refusal::Occupied => Why::Occupied,
        Refusal::NoPort(port) => Why::NoPort(port),
        Refusal::Never => Why::GaveUp,
    }
}

/// Whether the copy is let go.
fn has_moved(stand: Stand) -> bool
    ensures { (r : restores) → result ≡ is_moved (stand_of r stand) }
{
    match stand {
        Stand::Moved => true,
        Stand::Works => false,
        Stand::Built => false,
        Stand::Releases => false,
        Stand::Refuses(_) => false,
        Stand::Undoes => false,
        Stand::Clears { .. } => false,
        Stand::Ended { .. } => false,
    }
}

/// What it has sent since its restore began: one packet at most.
fn packet_in(stand: Stand) -> Option<Packet>
    ensures { (r : restores) → option_list (option_map packet_of result) ≡ sent_far (stand_of r stand) }
{
    match stand {
        Stand::Built | Stand::Releases | Stand::Moved => Some(Packet::Ready),
        Stand::Refuses(refusal) => Some(Packet::Refused(why(refusal))),
        Stand::Clears { ready, .. } | Stand::Ended { ready } => if ready {
            Some(Packet::Ready)
        } else {
            None
        },
        Stand::Works | Stand::Undoes => None,
    }
}

impl Far {
    /// The far side, to which nothing has come.
    pub fn new(alloc: Global, slot: u8) -> Far
        requires { slot ≤ LAST_USER_SLOT }
        ensures slot { result.slot ≡ slot }
        ensures state { IsFar result.makes (Listens []) }
    {
        Far {
            alloc,
            slot,
            makes: Makes::Listens(Came::new(alloc)),
        }
    }

    /// The call for which it asks, whose words it writes over zeros.
    pub fn next(&self, words: &mut [u64; 64]) -> Option<Stage>
        requires { words.old ≡ no_words }
        ensures { (f : FarSide) → IsFar self.now.makes f → call_with result words.new ≡ far_call self.now.slot f }
    {
        match &self.makes {
            Makes::Restores { restore, stand } => next_in(self.slot, restore, *stand, words),
            Makes::Listens(_) | Makes::Never => None,
        }
    }

    /// Takes the answer to the call for which it asks. It takes no memory.
    pub fn answer(&mut self, answer: &Answer)
        ensures slot { self.new.slot ≡ self.old.slot }
        ensures heard { (f : FarSide) → IsFar self.old.makes f
            → IsFar self.new.makes (far_heard self.old.slot f answer.now.status (take answer.now.len answer.now.words)) }
    {
        if let Makes::Restores { restore, stand } = &mut self.makes {
            *stand = answer_in(restore, *stand, answer);
        }
    }

    /// Takes a packet, of whatever kind, and however often it has come. Pieces may come in any order.
    ///
    /// # Errors
    ///
    /// There is no memory for the packet; all is as before.
    pub fn take(&mut self, packet: &Packet) -> Result<(), NoMemory>
        ensures slot { self.new.slot ≡ self.old.slot }
        ensures told { OnOk result ((f : FarSide) → IsFar self.old.makes f
            → IsFar self.new.makes (far_told (both self.old.slot) f (packet_of packet.now))) }
        ensures lacking { OnErr result ((f : FarSide) → IsFar self.old.makes f → IsFar self.new.makes f) }
    {
        match &mut self.makes {
            Makes::Listens(came) => {
                let next = listen(self.alloc, self.slot, came, packet)?;
                match next {
                    Some(makes) => {
                        self.makes = makes;
                        Ok(())
                    }
                    None => Ok(()),
                }
            }
            Makes::Never => Ok(()),
            Makes::Restores { restore, stand } => {
                *stand = told(restore, *stand, packet);
                Ok(())
            }
        }
    }

    /// The packet with a number, counted from 0 in the order in which it has sent them. It is made of what the side has come to.
    pub fn packet(&self, number: u64) -> Option<Packet>
        ensures { (f : FarSide) → IsFar self.now.makes f → option_map packet_of result ≡ slice_get (sent_far f) number }
    {
        match &self.makes {
            Makes::Restores { stand, .. } if number == 0 => packet_in(*stand),
            _ => None,
        }
    }
    /// Whether the copy is let go.
    pub fn has_moved(&self) -> bool
        ensures { (f : FarSide) → IsFar self.now.makes f → result ≡ is_moved f }
    {
        match &self.makes {
            Makes::Restores { stand, .. } => has_moved(*stand),
            Makes::Listens(_) => false,
            Makes::Never => false,
        }
    }
}
