//! The near side.
ghost use Rattle.std.specs.Prelude.{◌≡◌, ◌↔◌, ◌≤◌, ℕ, List, IsTrue, IfNone, IfOk, IfSome, OnErr, OnOk, is_some, length, option_map, take};
ghost use Rattle.std.specs.List.{slice_get};
ghost use Rattle.fk_checkpoint.specs.Checkpoint.Checkpoints.{gathered_in};
ghost use Rattle.fk_checkpoint.specs.Checkpoint.Phases.{state_of, HasRoom};
ghost use Rattle.fk_image.specs.declared.image.image.Image.{Image as images};
ghost use Rattle.fk_sides.specs.Kept.{pieces_of, reason_of, why_kept};
ghost use Rattle.fk_sides.specs.Nears.{has_room_in, last_of, saves_of, since_of, slot_in, IsSpelled, IsStillIn};
ghost use Rattle.fk_sides.specs.declared.near.Since.TheVariants as sinces;
ghost use Rattle.fk_sides.specs.Sides.{bare, both, near_at, near_call, near_heard, option_list, packet_of};
ghost use Rattle.laws_checkpoint.specs.Checkpoint.State.{Holds};
ghost use Rattle.laws_handover.specs.Handover.{gives_up, near_told};
ghost use Rattle.laws_handover.specs.NearSide.Near.{Saves as AtWork};
ghost use Rattle.laws_handover.specs.Sent.{sent_near};
ghost use Rattle.laws_migrate.specs.Images.{image_codec};
ghost use Rattle.laws_migrate.specs.Migration.{may_give_up};

use crate::counting::count_objects;
use crate::kept::{Reason, failed, kept_since};
use crate::spelled::Spelled;
use fk_checkpoint::Checkpoint;
use fk_model::limits::OWN_SPACE;
use fk_model::{Answer, NoMemory, Stage};
use fk_packets::{Packet, Why};
use std::alloc::Global;
use std::mem;

/// What it has come to since its image was gathered.
#[derive(Drop)]
pub enum Since {
    /// It waits for what the other side has to say.
    Waits,
    /// There is a copy: it destroys its own, in so many more than one stages.
    Clears { more: u128 },
    /// Nothing is left of it.
    Cleared,
    /// It keeps its own, and releases it.
    Cancels(Why),
    /// It has released it.
    Cancelled(Why),
}

/// What the near side has come to.
#[derive(Drop)]
pub enum Saves {
    /// Its checkpoint is at work, or has ended without an image. Or its image is gathered, and its bytes are still to be written.
    Works(Checkpoint),
    /// Its image is gathered and spelled.
    Gathered { spelled: Spelled, since: Since },
}

/// The near side of a migration from a slot.
#[derive(Drop)]
pub struct Near {
    alloc: Global,
    slot: u8,
    saves: Saves,
    ghost same: { slot_in slot saves ≡ slot },
}

/// Whether a checkpoint has gathered its image.
fn has_image(checkpoint: &Checkpoint) -> bool
    ensures { result ≡ is_some (gathered_in (state_of checkpoint.now)) }
{
    checkpoint.gathered().is_some()
}

/// The next call of a checkpoint that has no image yet.
fn next_saved(checkpoint: &Checkpoint) -> Option<Stage>
    ensures { option_map bare result ≡ near_call checkpoint.now.slot (near_at (state_of checkpoint.now)) }
{
    if has_image(checkpoint) {
        None
    } else {
        checkpoint.next()
    }
}

/// The next call once the image is gathered.
fn next_since(slot: u8, since: &Since) -> Option<Stage>
    ensures { (i : images) → option_map bare result ≡ near_call slot (since_of i since.now) }
{
    let x = u64::from(slot);
    match since {
        Since::Clears { .. } => Some(Stage::Destroy { s: OWN_SPACE, x }),
        Since::Cancels(_) => Some(Stage::SpaceRelease { s: OWN_SPACE, x }),
        Since::Waits | Since::Cleared | Since::Cancelled(_) => None,
    }
}

/// A checkpoint that has no image yet takes the answer to its next call.
fn answer_saved(checkpoint: &mut Checkpoint, answer: &Answer)
    requires { HasRoom checkpoint.old }
    ensures slot { checkpoint.new.slot ≡ checkpoint.old.slot }
    ensures heard { near_at (state_of checkpoint.new)
        ≡ near_heard checkpoint.old.slot (near_at (state_of checkpoint.old)) answer.now.status (take answer.now.len answer.now.words) }
{
    if has_image(checkpoint) {
        return;
    }
    checkpoint.absorb(answer);
}

/// What comes of a stage of destroying.
fn cleared(more: u128) -> Since
    ensures { (i : images) (slot status : ℕ) (words : List ℕ) → since_of i result ≡ near_heard slot (since_of i (sinces.Clears more)) status words }
{
    if more == 0 {
        Since::Cleared
    } else {
        Since::Clears { more: more - 1 }
    }
}

/// What comes of the answer to the next call once the image is gathered.
fn answered_since(since: Since) -> Since
    ensures { (i : images) (slot status : ℕ) (words : List ℕ) → since_of i result ≡ near_heard slot (since_of i since) status words }
{
    match since {
        Since::Clears { more } => cleared(more),
        Since::Cancels(why) => Since::Cancelled(why),
        Since::Waits => Since::Waits,
        Since::Cleared => Since::Cleared,
        Since::Cancelled(why) => Since::Cancelled(why),
    }
}

/// What comes of a packet while it waits.
fn decided(spelled: &Spelled, packet: Packet) -> Since
    ensures { (slot : ℕ) → since_of spelled.now result ≡ near_told (both slot) (since_of spelled.now sinces.Waits) (packet_of packet) }
{
    match packet {
        Packet::Ready => Since::Clears {
            more: count_objects(spelled.image()),
        },
        Packet::Refused(why) => Since::Cancels(why),
        Packet::Piece { .. } | Packet::Gone | Packet::Cancel => Since::Waits,
    }
}

/// What comes of a packet once the image is gathered.
fn told_since(spelled: &Spelled, since: Since, packet: Packet) -> Since
    ensures { (slot : ℕ) → since_of spelled.now result ≡ near_told (both slot) (since_of spelled.now since) (packet_of packet) }
{
    match since {
        Since::Waits => decided(spelled, packet),
        Since::Clears { more } => Since::Clears { more },
        Since::Cleared => Since::Cleared,
        Since::Cancels(kept) => Since::Cancels(kept),
        Since::Cancelled(kept) => Since::Cancelled(kept),
    }
}

/// What comes of giving up.
fn given_up(since: Since) -> Since
    ensures { (i : images) (slot : ℕ) → since_of i result ≡ gives_up (both slot) (since_of i since) }
{
    match since {
        Since::Waits => Since::Cancels(Why::GaveUp),
        Since::Clears { more } => Since::Clears { more },
        Since::Cleared => Since::Cleared,
        Since::Cancels(why) => Since::Cancels(why),
        Since::Cancelled(why) => Since::Cancelled(why),
    }
}

/// Whether it waits once the image is gathered.
fn is_waiting(since: &Since) -> bool
    ensures { (i : images) → (IsTrue result ↔ may_give_up (since_of i since.now)) }
{
    match since {
        Since::Waits => true,
        Since::Clears { .. } | Since::Cleared | Since::Cancels(_) | Since::Cancelled(_) => false,
    }
}

/// What is sent behind the pieces, if anything is.
fn last_since(since: &Since) -> Option<Packet>
    ensures { option_map packet_of result ≡ last_of since.now }
{
    match since {
        Since::Cleared => Some(Packet::Gone),
        Since::Cancels(_) | Since::Cancelled(_) => Some(Packet::Cancel),
        Since::Waits | Since::Clears { .. } => None,
    }
}

/// How many packets are sent behind the pieces.
fn count_last(since: &Since) -> u64
    ensures count { result ≡ length (option_list (last_of since.now)) }
    ensures small { result ≤ 1 }
{
    match since {
        Since::Waits | Since::Clears { .. } => 0,
        Since::Cleared | Since::Cancels(_) | Since::Cancelled(_) => 1,
    }
}

/// The packet with a number once the image is gathered.
fn packet_since(spelled: &Spelled, since: &Since, number: u64) -> Option<Packet>
    ensures { option_map packet_of result ≡ slice_get (sent_near image_codec (since_of spelled.now since.now)) number }
{
    let total = spelled.total();
    if number < total {
        return spelled.piece(number);
    }
    if number > total {
        return None;
    }
    last_since(since)
}

/// How many packets were sent once the image is gathered.
fn count_since(spelled: &Spelled, since: &Since) -> u64
    ensures { result ≡ length (sent_near image_codec (since_of spelled.now since.now)) }
{
    spelled.total() + count_last(since)
}

/// The image that a checkpoint has gathered, if any, with its bytes.
fn spell_saved(alloc: Global, checkpoint: &Checkpoint) -> Result<Option<Spelled>, NoMemory>
    ensures { IfOk result (λ spelled. spelled ≡ gathered_in (state_of checkpoint.now)) }
{
    match checkpoint.gathered() {
        Some(image) => Ok(Some(Spelled::new(alloc, image)?)),
        None => Ok(None),
    }
}

/// The image that is gathered, with its bytes, where these are still to be written.
fn spell_new(alloc: Global, saves: &Saves) -> Result<Option<Spelled>, NoMemory>
    ensures { IfOk result (λ spelled. IsStillIn saves.now spelled) }
{
    match saves {
        Saves::Works(checkpoint) => spell_saved(alloc, checkpoint),
        Saves::Gathered { .. } => Ok(None),
    }
}

impl Near {
    /// The near side, before its first call.
    pub fn new(alloc: Global, slot: u8) -> Near
        ensures slot { result.slot ≡ slot }
        ensures state { saves_of result.saves ≡ AtWork Holds }
    {
        Near {
            alloc,
            slot,
            saves: Saves::Works(Checkpoint::new(alloc, slot)),
        }
    }

    /// The call for which it asks, which goes with no words.
    pub fn next(&self) -> Option<Stage>
        ensures { option_map bare result ≡ near_call self.now.slot (saves_of self.now.saves) }
    {
        match &self.saves {
            Saves::Works(checkpoint) => next_saved(checkpoint),
            Saves::Gathered { since, .. } => next_since(self.slot, since),
        }
    }

    /// Makes room for one answer, and changes nothing else.
    ///
    /// # Errors
    ///
    /// There is no memory for one answer.
    pub fn reserve(&mut self) -> Result<(), NoMemory>
        ensures slot { self.new.slot ≡ self.old.slot }
        ensures same { saves_of self.new.saves ≡ saves_of self.old.saves }
        ensures room { OnOk result (has_room_in self.new.saves) }
    {
        match &mut self.saves {
            Saves::Works(checkpoint) => checkpoint.reserve(),
            Saves::Gathered { .. } => Ok(()),
        }
    }

    /// Takes the answer to the call for which it asks. That uses up its room.
    pub fn answer(&mut self, answer: &Answer)
        requires { has_room_in self.old.saves }
        ensures slot { self.new.slot ≡ self.old.slot }
        ensures heard { saves_of self.new.saves
            ≡ near_heard self.old.slot (saves_of self.old.saves) answer.now.status (take answer.now.len answer.now.words) }
    {
        match &mut self.saves {
            Saves::Works(checkpoint) => answer_saved(checkpoint, answer),
            Saves::Gathered { since, .. } => {
                let was = mem::replace(since, Since::Waits);
                *since = answered_since(was);
            }
        }
    }

    /// Writes the bytes of its image, where that is gathered, and changes nothing else.
    ///
    /// # Errors
    ///
    /// There is no memory for the bytes.
    pub fn spell(&mut self) -> Result<(), NoMemory>
        ensures slot { self.new.slot ≡ self.old.slot }
        ensures same { saves_of self.new.saves ≡ saves_of self.old.saves }
        ensures spelled { OnOk result (IsSpelled self.new.saves) }
    {
        match spell_new(self.alloc, &self.saves)? {
            Some(spelled) => {
                self.saves = Saves::Gathered {
                    spelled,
                    since: Since::Waits,
                };
                Ok(())
            }
            None => Ok(()),
        }
    }

    /// Takes a packet, of whatever kind, and however often it has come. For want of memory all is as before.
    ///
    /// # Errors
    ///
    /// There is no memory for the bytes of its image.
    pub fn take(&mut self, packet: Packet) -> Result<(), NoMemory>
        ensures slot { self.new.slot ≡ self.old.slot }
        ensures told { OnOk result (saves_of self.new.saves ≡ near_told (both self.old.slot) (saves_of self.old.saves) (packet_of packet)) }
        ensures lacking { OnErr result (saves_of self.new.saves ≡ saves_of self.old.saves) }
    {
        self.spell()?;
        match &mut self.saves {
            Saves::Works(_) => Ok(()),
            Saves::Gathered { spelled, since } => {
                let was = mem::replace(since, Since::Waits);
                *since = told_since(spelled, was, packet);
                Ok(())
            }
        }
    }

    /// Whether it waits: its image is gathered, and nothing was decided.
    pub fn waits(&self) -> bool
        ensures { IsTrue result ↔ may_give_up (saves_of self.now.saves) }
    {
        match &self.saves {
            Saves::Works(checkpoint) => has_image(checkpoint),
            Saves::Gathered { since, .. } => is_waiting(since),
        }
    }

    /// Gives up waiting: it keeps its own. For want of memory all is as before.
    ///
    /// # Errors
    ///
    /// There is no memory for the bytes of its image.
    pub fn give_up(&mut self) -> Result<(), NoMemory>
        ensures slot { self.new.slot ≡ self.old.slot }
        ensures told { OnOk result (saves_of self.new.saves ≡ gives_up (both self.old.slot) (saves_of self.old.saves)) }
        ensures lacking { OnErr result (saves_of self.new.saves ≡ saves_of self.old.saves) }
    {
        self.spell()?;
        match &mut self.saves {
            Saves::Works(_) => Ok(()),
            Saves::Gathered { since, .. } => {
                let was = mem::replace(since, Since::Waits);
                *since = given_up(was);
                Ok(())
            }
        }
    }

    /// The packet with a number, counted from 0 in the order in which it has sent them. It is made of what the side has come to.
    ///
    /// # Errors
    ///
    /// There is no memory for the bytes of its image or for the packet.
    pub fn packet(&mut self, number: u64) -> Result<Option<Packet>, NoMemory>
        ensures slot { self.new.slot ≡ self.old.slot }
        ensures same { saves_of self.new.saves ≡ saves_of self.old.saves }
        ensures packet { IfOk result (λ packet. option_map packet_of packet ≡ slice_get (sent_near image_codec (saves_of self.old.saves)) number) }
    {
        self.spell()?;
        match &self.saves {
            Saves::Works(_) => Ok(None),
            Saves::Gathered { spelled, since } => Ok(packet_since(spelled, since, number)),
        }
    }

    /// How many packets it has sent. Nothing while the bytes of its image are still to be written.
    pub fn sent(&self) -> Option<u64>
        ensures some { IfSome result (λ many. many ≡ length (sent_near image_codec (saves_of self.now.saves))) }
        ensures none { IfNone result (IsSpelled self.now.saves → ⊥) }
    {
        match &self.saves {
            Saves::Works(checkpoint) => if has_image(checkpoint) { None } else { Some(0) },
            Saves::Gathered { spelled, since } => Some(count_since(spelled, since)),
        }
    }
    /// How many pieces it has sent, none before its image is gathered. There may be no memory for the bytes of the image.
    pub fn pieces(&mut self) -> Result<u64, NoMemory>
        ensures slot { self.new.slot ≡ self.old.slot }
        ensures same { saves_of self.new.saves ≡ saves_of self.old.saves }
        ensures pieces { IfOk result (λ many. many ≡ pieces_of (saves_of self.old.saves)) }
    {
        self.spell()?;
        match &self.saves {
            Saves::Works(_) => Ok(0),
            Saves::Gathered { spelled, .. } => Ok(spelled.total()),
        }
    }

    /// Why its own is kept and let go, once it is.
    pub fn kept(&self) -> Option<Reason<'_>>
        ensures { option_map reason_of result ≡ why_kept (saves_of self.now.saves) }
    {
        match &self.saves {
            Saves::Works(checkpoint) => failed(checkpoint),
            Saves::Gathered { since, .. } => kept_since(since),
        }
    }
}
