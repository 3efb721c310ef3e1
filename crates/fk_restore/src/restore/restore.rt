//! The restore, phase by phase.
ghost use Rattle.std.specs.Prelude.{◌≡◌, true, ℕ, List, IfSome, IfNone, IsOk};
ghost use Rattle.laws_jobs.specs.Machines.{no_words, IsAtCall};
ghost use Rattle.laws_jobs.specs.Machines.Head.{Asks, Stops};
ghost use Rattle.laws_restore.specs.Restore.Restore.State.{Makes};
ghost use Rattle.laws_restore.specs.Rooms.Restoring.{bound_by, IsRestoreJob, restore_of};
ghost use Rattle.fk_image.specs.Image.Valid.{is_valid};
ghost use Rattle.laws_restore.specs.Restore.Restore as machine;
ghost use Rattle.laws_restore.specs.Restore.Rooms.{Room};
ghost use Rattle.laws_restore.specs.Sites.Orders.{is_port_in};
ghost use Rattle.fk_image.specs.declared.image.image.SpaceRec as records;
ghost use Rattle.fk_model.specs.declared.stage.Stage.TheVariants as stages;
ghost use Rattle.fk_restore.specs.Orders.Left.{image_of};
ghost use Rattle.fk_restore.specs.Positions.Positions.{rest, IsPosition};
ghost use Rattle.fk_restore.specs.declared.restore.restore.Phase.TheVariants as phases;
ghost use Rattle.fk_restore.specs.Restore.Restores.{answered, clears, missing, goes_on, end_of, phase_of, HasEnded, IsSoundPhase, is_built};

use crate::orders::{Look, first, is_over, look_at, settled_from, words_at};
use crate::positions::{Position, next_of, stage_at};
use crate::restore::counting::{count_objects, lowest_bound};
use crate::restore::end::RestoreEnd;
use fk_finish::ValidImage;
use fk_image::{Image, SpaceRec};
use fk_model::kind::PORT;
use fk_model::limits::{FIRST_SCRATCH_SLOT, OWN_SPACE};
use fk_model::status::OK;
use fk_model::{Answer, List, NoMemory, Stage};
use std::marker::Model;
use std::mem;

/// How many scratch references a restore makes.
const SCRATCH: u8 = 4;

/// What a restore is at.
#[derive(Drop)]
pub enum Phase {
    /// It makes the new space.
    Makes,
    /// It gives the orders from a place of the script on, and then it releases.
    Works(Position),
    /// A port is missing: so many of its scratch references are gone, and so many stages of destroying are left.
    Clears { dropped: u8, more: u128, port: u8 },
    /// It has ended.
    Over(RestoreEnd),
}

/// The restore of a valid image in a slot of its nester, whose slots pairs bind. It is in a state that its machine may be in.
#[derive(Drop)]
pub struct Restore {
    slot: u8,
    image: ValidImage,
    pairs: List<(u8, u8)>,
    phase: Phase,
}

impl Model for Restore {
    ghost use Rattle.laws_restore.specs.Rooms.Restoring.{IsRestoreJob};
    ghost use Rattle.fk_restore.specs.Restore.Restores as restores;

    ghost Value = { restores.Restoring };

    ghost view = { λ s. record {
      slot = s.slot;
      image = s.image;
      pairs = s.pairs;
      state = restores.phase_of s.image.spaces s.slot s.pairs s.phase;
    } };

    ghost invariant = { λ s. IsRestoreJob s.slot s.image s.pairs × restores.IsSoundPhase s.image.spaces s.slot s.pairs s.phase };
}

/// The words that an answer has.
fn words_of(answer: &Answer) -> &[u64]
    ensures { result.now ≡ answered answer.now }
{
    &answer.words[..usize::from(answer.len).min(64)]
}

/// Whether words tell the port in this slot of the nester.
fn tells_port(port: u8, words: &[u64]) -> bool
    ensures { result ≡ is_port_in port words.now }
{
    match words {
        [slot, deeper, kind] => *slot == u64::from(port) && *deeper == 0 && *kind == PORT,
        _ => false,
    }
}

/// The port that an answer says is missing.
fn missing(look: Look, status: u8, words: &[u64]) -> Option<u8>
    ensures { result ≡ missing look status words.now }
{
    match look {
        Look::Plain => None,
        Look::Pins(port) => { if status == OK { None } else { Some(port) } }
        Look::Checks(port) => {
            if status == OK && tells_port(port, words) {
                None
            } else {
                Some(port)
            }
        }
    }
}

/// The phase where an order was given: the next one, or clearing, where a port is missing.
fn goes_on(
    spaces: &[SpaceRec],
    slot: u8,
    pairs: &[(u8, u8)],
    next: Position,
    port: Option<u8>,
) -> Phase
    requires valid { is_valid (image_of spaces.now) ≡ true }
    requires place { IsPosition spaces.now slot (bound_by pairs.now) next }
    ensures sound { IsSoundPhase spaces.now slot pairs.now result }
    ensures state { phase_of spaces.now slot pairs.now result ≡ goes_on spaces.now pairs.now (rest spaces.now slot (bound_by pairs.now) next) port }
{
    match port {
        None => Phase::Works(settled_from(spaces, slot, pairs, next)),
        Some(port) => Phase::Clears {
            dropped: 0,
            more: count_objects(spaces) + 1,
            port: lowest_bound(spaces, pairs, port),
        },
    }
}

/// The phase after the answer to the call at a position.
fn worked(
    spaces: &[SpaceRec],
    slot: u8,
    pairs: &[(u8, u8)],
    at: Position,
    status: u8,
    words: &[u64],
) -> Phase
    requires valid { is_valid (image_of spaces.now) ≡ true }
    requires sound { IsSoundPhase spaces.now slot pairs.now (phases.Works at) }
    ensures sound { IsSoundPhase spaces.now slot pairs.now result }
    ensures state { phase_of spaces.now slot pairs.now result
        ≡ (restore_of slot (image_of spaces.now) pairs.now).next (phase_of spaces.now slot pairs.now (phases.Works at)) status words.now }
{
    if is_over(spaces, slot, pairs, at) {
        return Phase::Over(RestoreEnd::Done);
    }
    let port = missing(look_at(spaces, pairs, at), status, words);
    goes_on(spaces, slot, pairs, next_of(spaces, slot, pairs, at), port)
}

/// The phase after a stage of clearing.
fn cleared(dropped: u8, more: u128, port: u8) -> Phase
    ensures sound { (ss : List records.SpaceRec) (slot : ℕ) (pairs : List (ℕ × ℕ)) → IsSoundPhase ss slot pairs result }
    ensures state { (ss : List records.SpaceRec) (slot : ℕ) (pairs : List (ℕ × ℕ)) (bind : ℕ → ℕ) (rooms : List Room) (status : ℕ) (words : List ℕ)
        → phase_of ss slot pairs result ≡ machine.next slot bind rooms (clears dropped more port) status words }
{
    if dropped < SCRATCH {
        Phase::Clears {
            dropped: dropped + 1,
            more,
            port,
        }
    } else if more > 0 {
        Phase::Clears {
            dropped,
            more: more - 1,
            port,
        }
    } else {
        Phase::Over(RestoreEnd::NoPort(port))
    }
}

/// The phase after the space was made, or not.
fn made(spaces: &[SpaceRec], slot: u8, pairs: &[(u8, u8)], status: u8) -> Phase
    requires valid { is_valid (image_of spaces.now) ≡ true }
    ensures sound { IsSoundPhase spaces.now slot pairs.now result }
    ensures state { (words : List ℕ) → phase_of spaces.now slot pairs.now result
        ≡ (restore_of slot (image_of spaces.now) pairs.now).next (phase_of spaces.now slot pairs.now phases.Makes) status words }
{
    if status == OK {
        Phase::Works(settled_from(spaces, slot, pairs, first()))
    } else {
        Phase::Over(RestoreEnd::Occupied)
    }
}

/// The phase after an answer.
fn after(
    spaces: &[SpaceRec],
    slot: u8,
    pairs: &[(u8, u8)],
    phase: Phase,
    status: u8,
    words: &[u64],
) -> Phase
    requires valid { is_valid (image_of spaces.now) ≡ true }
    requires sound { IsSoundPhase spaces.now slot pairs.now phase }
    ensures sound { IsSoundPhase spaces.now slot pairs.now result }
    ensures state { phase_of spaces.now slot pairs.now result
        ≡ (restore_of slot (image_of spaces.now) pairs.now).next (phase_of spaces.now slot pairs.now phase) status words.now }
{
    match phase {
        Phase::Makes => made(spaces, slot, pairs, status),
        Phase::Works(at) => worked(spaces, slot, pairs, at, status, words),
        Phase::Clears {
            dropped,
            more,
            port,
        } => cleared(dropped, more, port),
        Phase::Over(end) => Phase::Over(end),
    }
}

/// The call at a position, that of the order there, or the release, with its words over zeros.
fn worked_call(
    spaces: &[SpaceRec],
    slot: u8,
    pairs: &[(u8, u8)],
    at: Position,
    words: &mut [u64; 64],
) -> Stage
    requires valid { is_valid (image_of spaces.now) ≡ true }
    requires sound { IsSoundPhase spaces.now slot pairs.now (phases.Works at) }
    requires zeros { words.old ≡ no_words }
    ensures { machine.head slot (phase_of spaces.now slot pairs.now (phases.Works at)) ≡ Asks result words.new }
{
    match stage_at(spaces, slot, pairs, at) {
        None => releases(slot),
        Some(stage) => {
            words_at(spaces, at, words);
            stage
        }
    }
}

/// The release of the new space.
fn releases(slot: u8) -> Stage
    ensures { result ≡ stages.SpaceRelease 256 slot }
{
    Stage::SpaceRelease {
        s: OWN_SPACE,
        x: u64::from(slot),
    }
}

/// A stage of clearing.
fn clearing(slot: u8, dropped: u8) -> Stage
    ensures { (more port : ℕ) → machine.head slot (clears dropped more port) ≡ Asks result no_words }
{
    if dropped < SCRATCH {
        Stage::Destroy {
            s: OWN_SPACE,
            x: FIRST_SCRATCH_SLOT + u64::from(dropped),
        }
    } else {
        Stage::Destroy {
            s: OWN_SPACE,
            x: u64::from(slot),
        }
    }
}

/// The next call in a phase, with its words over zeros.
fn call(
    spaces: &[SpaceRec],
    slot: u8,
    pairs: &[(u8, u8)],
    phase: &Phase,
    words: &mut [u64; 64],
) -> Option<Stage>
    requires valid { is_valid (image_of spaces.now) ≡ true }
    requires sound { IsSoundPhase spaces.now slot pairs.now phase.now }
    requires zeros { words.old ≡ no_words }
    ensures asks { IfSome result (λ stage. machine.head slot (phase_of spaces.now slot pairs.now phase.now) ≡ Asks stage words.new) }
    ensures none { IfNone result (HasEnded (phase_of spaces.now slot pairs.now phase.now)) }
{
    match phase {
        Phase::Makes => Some(Stage::SpaceMakeHeld { x: u64::from(slot) }),
        Phase::Works(at) => Some(worked_call(spaces, slot, pairs, *at, words)),
        Phase::Clears { dropped, .. } => Some(clearing(slot, *dropped)),
        Phase::Over(_) => None,
    }
}

/// The next call of a restore, with its words over zeros.
fn called(
    image: &Image,
    slot: u8,
    pairs: &List<(u8, u8)>,
    phase: &Phase,
    words: &mut [u64; 64],
) -> Option<Stage>
    requires valid { is_valid image.now ≡ true }
    requires sound { IsSoundPhase image.now.spaces slot pairs.now phase.now }
    requires zeros { words.old ≡ no_words }
    ensures asks { IfSome result (λ stage. machine.head slot (phase_of image.now.spaces slot pairs.now phase.now) ≡ Asks stage words.new) }
    ensures none { IfNone result (HasEnded (phase_of image.now.spaces slot pairs.now phase.now)) }
{
    let spaces = image.spaces.as_slice();
    let bound = pairs.as_slice();
    call(spaces, slot, bound, phase, words)
}

/// The phase of a restore after an answer.
fn answered_in(
    image: &Image,
    slot: u8,
    pairs: &List<(u8, u8)>,
    phase: Phase,
    answer: &Answer,
) -> Phase
    requires valid { is_valid image.now ≡ true }
    requires sound { IsSoundPhase image.now.spaces slot pairs.now phase }
    ensures sound { IsSoundPhase image.now.spaces slot pairs.now result }
    ensures state { phase_of image.now.spaces slot pairs.now result
        ≡ (restore_of slot image.now pairs.now).next (phase_of image.now.spaces slot pairs.now phase) answer.now.status (answered answer.now) }
{
    let spaces = image.spaces.as_slice();
    let bound = pairs.as_slice();
    let words = words_of(answer);
    after(spaces, slot, bound, phase, answer.status, words)
}

impl Restore {
    /// A restore that is about to begin.
    pub fn new(slot: u8, image: ValidImage, pairs: List<(u8, u8)>) -> Restore
        requires { IsRestoreJob slot image pairs }
        ensures slot { result.slot ≡ slot }
        ensures image { result.image ≡ image }
        ensures pairs { result.pairs ≡ pairs }
        ensures state { result.state ≡ Makes }
    {
        Restore {
            slot,
            image,
            pairs,
            phase: Phase::Makes,
        }
    }

    /// Its next call, whose words it writes over zeros. It has none where it has ended. It stands apart, so that its room isn't cleared at a
    /// checkpoint's calls.
    #[inline(never)]
    pub fn next(&self, words: &mut [u64; 64]) -> Option<Stage>
        requires zeros { words.old ≡ no_words }
        ensures asks { IfSome result (λ stage. machine.head self.now.slot self.now.state ≡ Asks stage words.new) }
        ensures none { IfNone result (HasEnded self.now.state) }
    {
        called(self.image.get(), self.slot, &self.pairs, &self.phase, words)
    }

    /// Whether all of the image is built, and only the release is left of a restore that will be done.
    pub fn built(&self) -> bool
        ensures { result ≡ is_built self.now.state }
    {
        match &self.phase {
            Phase::Works(at) => {
                let spaces = self.image.get().spaces.as_slice();
                let bound = self.pairs.as_slice();
                is_over(spaces, self.slot, bound, *at)
            }
            _ => false,
        }
    }

    /// Makes room for one answer, which takes none.
    ///
    /// # Errors
    ///
    /// None comes: it takes no memory.
    pub fn reserve(&mut self) -> Result<(), NoMemory>
        ensures same { self.new ≡ self.old }
        ensures done { IsOk result }
    {
        Ok(())
    }

    /// Takes the answer to its next call. It stands apart too.
    #[inline(never)]
    pub fn absorb(&mut self, answer: &Answer)
        ensures slot { self.new.slot ≡ self.old.slot }
        ensures image { self.new.image ≡ self.old.image }
        ensures pairs { self.new.pairs ≡ self.old.pairs }
        ensures state { self.new.state
            ≡ (restore_of self.old.slot self.old.image self.old.pairs).next self.old.state answer.now.status (answered answer.now) }
    {
        let phase = mem::replace(&mut self.phase, Phase::Makes);
        self.phase = answered_in(self.image.get(), self.slot, &self.pairs, phase, answer);
    }

    /// How it has ended; nothing while it has a call to make.
    pub fn end(&self) -> Option<&RestoreEnd>
        ensures some { IfSome result (λ end. machine.head self.now.slot self.now.state ≡ Stops (end_of end.now)) }
        ensures none { IfNone result (IsAtCall (restore_of self.now.slot self.now.image self.now.pairs) self.now.state) }
    {
        match &self.phase {
            Phase::Over(end) => Some(end),
            _ => None,
        }
    }

    /// How it has ended, handed out; nothing while it has a call to make.
    pub fn finish(self) -> Option<RestoreEnd>
        ensures some { IfSome result (λ end. machine.head self.slot self.state ≡ Stops (end_of end)) }
        ensures none { IfNone result (IsAtCall (restore_of self.slot self.image self.pairs) self.state) }
    {
        match self.phase {
            Phase::Over(end) => Some(end),
            _ => None,
        }
    }
}
