//! The checkpoint, phase by phase.
ghost use Rattle.std.specs.Prelude.{◌≡◌, [], OnOk, IfOk, IfNone, IfSome, option_map};
ghost use Rattle.fk_checkpoint.specs.declared.checkpoint.checkpoint.Phase.TheVariants as phases;
ghost use Rattle.fk_model.specs.declared.stage.Stage.TheVariants as stages;
ghost use Rattle.laws_checkpoint.specs.Checkpoint.State.{Holds, Over};
ghost use Rattle.laws_checkpoint.specs.Assembly.{spaces_met};
ghost use Rattle.laws_checkpoint.specs.Contents as reads;
ghost use Rattle.laws_checkpoint.specs.Contents.State.{Over as WasRead};
ghost use Rattle.laws_jobs.specs.Machines.{no_words, IsAtCall};
ghost use Rattle.laws_jobs.specs.Machines.Head.{Asks, Stops};
ghost use Rattle.laws_checkpoint.specs.Checkpoint as machine;
ghost use Rattle.laws_checkpoint.specs.Checkpoint.{checkpoint};
ghost use Rattle.fk_checkpoint.specs.Seeking.Seeking.{answered, mets_of};
ghost use Rattle.fk_checkpoint.specs.Gathering.Gathering as gathering;
ghost use Rattle.fk_checkpoint.specs.Checkpoint.Checkpoints.{end_of, gathered_in};
ghost use Rattle.fk_checkpoint.specs.Checkpoint.Phases.{slot_of, made_after, dropped_after, phase_of, over_of, state_of, heard_by};
ghost use Rattle.fk_checkpoint.specs.Checkpoint.Phases.{IsBrief, IsOpened, IsOver, HasHeard, HasRoomIn, HasRoom};

use crate::checkpoint::end::CheckpointEnd;
use crate::checkpoint::ending::{Ending, make};
use crate::checkpoint::left::spaces_left;
use crate::gathering::{Content, Gather, Read};
use crate::seeking::{Seek, Sought, Walk, words_of};
use fk_finish::ValidImage;
use fk_model::kind::REFERENCE;
use fk_model::limits::{FIRST_SCRATCH_SLOT, OWN_SPACE};
use fk_model::status::OK;
use fk_model::{Answer, NoMemory, Stage};
use std::alloc::Global;
use std::mem;

/// A scratch reference: to the space in which an object lies, to what its field leads to, to the space down to which a descent has come.
#[derive(Clone, Copy)]
pub enum Scratch {
    Places,
    Targets,
    Steps,
}

/// What a checkpoint is at.
#[derive(Drop)]
pub enum Phase {
    /// It holds the subtree.
    Holds,
    /// It makes a scratch reference.
    Readies(Scratch),
    /// It meets the objects.
    Walks(Walk),
    /// It seeks the first place where the subtree isn't closed.
    Seeks {
        walk: Walk,
        seek: Seek,
    },
    /// The subtree is closed: its spaces are read next.
    Closed(Walk),
    /// It reads the spaces.
    Reads(Read),
    /// It gathers the pointers.
    Gathers {
        contents: Vec<Content>,
        gather: Gather,
    },
    /// It has seen how it ends. That is made next, and then the scratch references go.
    Ends(Ending),
    /// It destroys a scratch reference.
    Drops {
        scratch: Scratch,
        end: CheckpointEnd,
    },
    /// It releases the subtree.
    Releases(CheckpointEnd),
    /// It has ended.
    Over(CheckpointEnd),
}

/// A checkpoint of the subtree in a slot of its nester.
#[derive(Drop)]
pub struct Checkpoint {
    alloc: Global,
    slot: u8,
    phase: Phase,
}

/// The slot of a scratch reference.
fn slot_of(scratch: Scratch) -> u64
    ensures { result ≡ slot_of scratch }
{
    match scratch {
        Scratch::Places => FIRST_SCRATCH_SLOT,
        Scratch::Targets => FIRST_SCRATCH_SLOT + 1,
        Scratch::Steps => FIRST_SCRATCH_SLOT + 2,
    }
}

/// A scratch reference is made: the next one, or the walk.
fn readied(alloc: Global, scratch: Scratch) -> Phase
    ensures { (slot : _) → phase_of slot result ≡ machine.readied slot (made_after scratch) }
{
    match scratch {
        Scratch::Places => Phase::Readies(Scratch::Targets),
        Scratch::Targets => Phase::Readies(Scratch::Steps),
        Scratch::Steps => Phase::Walks(Walk::new(alloc)),
    }
}

/// A scratch reference is destroyed: the next one, or the release.
fn dropped(scratch: Scratch, end: CheckpointEnd) -> Phase
    ensures { (slot : _) → phase_of slot result ≡ machine.dropped (dropped_after scratch) (end_of end) }
{
    match scratch {
        Scratch::Steps => Phase::Drops {
            scratch: Scratch::Targets,
            end,
        },
        Scratch::Targets => Phase::Drops {
            scratch: Scratch::Places,
            end,
        },
        Scratch::Places => Phase::Releases(end),
    }
}

/// What a phase makes of an answer where it stands.
#[derive(Clone, Copy)]
enum Heard {
    /// It goes on.
    GoesOn,
    /// Its part has come to its end.
    IsOver,
    /// It is as it was.
    Waits,
}

/// What a part makes of an answer.
fn part(is_over: bool) -> Heard
    ensures { result ≡ heard_by is_over }
{
    if is_over {
        Heard::IsOver
    } else {
        Heard::GoesOn
    }
}

/// The search hears an answer where it stands, where it goes on. It stands apart, since what it may come to takes room that is cleared at entry.
#[inline(never)]
fn hear_brief(slot: u8, phase: &mut Phase, answer: &Answer) -> Heard
    requires { IsBrief phase.old }
    ensures { HasHeard slot result phase.old phase.new (machine.next slot (phase_of slot phase.old) answer.now.status (answered answer.now)) }
{
    match phase {
        Phase::Seeks { walk, seek } => {
            match seek.absorb(slot, walk.mets(), answer.status, words_of(answer)) {
                Sought::Goes(next) => {
                    *seek = next;
                    Heard::GoesOn
                }
                _ => Heard::Waits,
            }
        }
        _ => Heard::Waits,
    }
}

/// A part that is long hears an answer where it stands, and so does the search where it goes on.
fn hear(slot: u8, phase: &mut Phase, answer: &Answer) -> Heard
    requires { HasRoomIn phase.old }
    ensures { HasHeard slot result phase.old phase.new (machine.next slot (phase_of slot phase.old) answer.now.status (answered answer.now)) }
{
    match phase {
        Phase::Walks(walk) => part(walk.absorb(answer.status, words_of(answer))),
        Phase::Reads(read) => part(read.absorb(answer)),
        Phase::Gathers { contents, gather } => part(gather.absorb(contents.as_slice(), answer)),
        _ => hear_brief(slot, phase, answer),
    }
}

/// The search hears an answer.
fn sought(slot: u8, walk: Walk, seek: Seek, answer: &Answer) -> Phase
    ensures { phase_of slot result ≡ machine.next slot (phase_of slot (phases.Seeks walk seek)) answer.now.status (answered answer.now) }
{
    match seek.absorb(slot, walk.mets(), answer.status, words_of(answer)) {
        Sought::Goes(seek) => Phase::Seeks { walk, seek },
        Sought::Closed => Phase::Closed(walk),
        Sought::Open { field } => Phase::Ends(Ending::Foreign {
            walk,
            at: seek.at,
            field,
        }),
    }
}

/// The spaces are read.
fn gathers(alloc: Global, contents: Vec<Content>) -> Phase
    ensures { (slot : _) → phase_of slot result
        ≡ machine.reads_on slot (WasRead (gathering.contents_of contents.items)) (Stops (gathering.contents_of contents.items)) }
{
    match Gather::new(alloc, contents.as_slice()) {
        Some(gather) => Phase::Gathers { contents, gather },
        None => Phase::Ends(Ending::Done {
            contents,
            leads: Vec::new(alloc),
        }),
    }
}

/// The phase behind one whose part has come to its end.
fn behind(alloc: Global, phase: Phase) -> Phase
    ensures { (slot : _) → phase_of slot result ≡ over_of slot phase }
{
    match phase {
        Phase::Walks(walk) => Phase::Seeks {
            walk,
            seek: Seek::new(),
        },
        Phase::Reads(read) => gathers(alloc, read.into_contents()),
        Phase::Gathers { contents, gather } => Phase::Ends(Ending::Done {
            contents,
            leads: gather.into_leads(),
        }),
        other => other,
    }
}

/// The phase after an answer, where it isn't a long part.
fn after(alloc: Global, slot: u8, phase: Phase, answer: &Answer) -> Phase
    requires room { HasRoomIn phase }
    requires brief { IsBrief phase }
    ensures { phase_of slot result ≡ machine.next slot (phase_of slot phase) answer.now.status (answered answer.now) }
{
    match phase {
        Phase::Holds if answer.status == OK => Phase::Readies(Scratch::Places),
        Phase::Holds => Phase::Over(CheckpointEnd::Gone),
        Phase::Readies(scratch) => readied(alloc, scratch),
        Phase::Seeks { walk, seek } => sought(slot, walk, seek, answer),
        Phase::Walks(_)
        | Phase::Closed(_)
        | Phase::Reads(_)
        | Phase::Gathers { .. }
        | Phase::Ends(_) => unreachable!(),
        Phase::Drops { scratch, end } => dropped(scratch, end),
        Phase::Releases(end) => Phase::Over(end),
        Phase::Over(end) => Phase::Over(end),
    }
}

/// The call that destroys a scratch reference.
fn destroys(scratch: Scratch) -> Stage
    ensures { result ≡ stages.Destroy 256 (slot_of scratch) }
{
    Stage::Destroy {
        s: OWN_SPACE,
        x: slot_of(scratch),
    }
}

/// The next call in a phase.
fn stage(slot: u8, phase: &Phase) -> Option<Stage>
    ensures asks { IfSome result (λ stage. machine.head slot (phase_of slot phase.now) ≡ Asks stage no_words) }
    ensures none { IfNone result (IsOver phase.now) }
{
    let x = u64::from(slot);
    Some(match phase {
        Phase::Holds => Stage::SpaceHold { s: OWN_SPACE, x },
        Phase::Readies(scratch) => Stage::Create {
            s: OWN_SPACE,
            x: slot_of(*scratch),
            kind: REFERENCE,
        },
        Phase::Walks(walk) => walk.next(slot),
        Phase::Seeks { walk, seek } => seek.next(slot, walk.mets()),
        Phase::Closed(_) => Stage::Search { s: x, from: 0 },
        Phase::Reads(read) => read.next(slot),
        Phase::Gathers { contents, gather } => gather.next(slot, contents.as_slice()),
        Phase::Ends(_) => destroys(Scratch::Steps),
        Phase::Drops { scratch, .. } => destroys(*scratch),
        Phase::Releases(_) => Stage::SpaceRelease { s: OWN_SPACE, x },
        Phase::Over(_) => return None,
    })
}

/// A part that has come to its end is left. It stands apart, since it is rare and takes room that is cleared at entry.
#[inline(never)]
fn leave(alloc: Global, phase: &mut Phase)
    ensures { (slot : _) → phase_of slot phase.new ≡ over_of slot phase.old }
{
    let left = mem::replace(phase, Phase::Holds);
    *phase = behind(alloc, left);
}

/// A brief phase takes an answer. It stands apart too.
#[inline(never)]
fn go_on(alloc: Global, slot: u8, phase: &mut Phase, answer: &Answer)
    requires room { HasRoomIn phase.old }
    requires brief { IsBrief phase.old }
    ensures { phase_of slot phase.new ≡ machine.next slot (phase_of slot phase.old) answer.now.status (answered answer.now) }
{
    let left = mem::replace(phase, Phase::Holds);
    *phase = after(alloc, slot, left, answer);
}

/// The reader of a closed subtree, whose spaces are listed.
fn reader_of(alloc: Global, walk: &Walk) -> Result<Read, NoMemory>
    ensures { IfOk result (λ read. (slot : _) → gathering.read_of slot read ≡ reads.begin slot (spaces_met (mets_of walk.now.mets.items)) []) }
{
    let most = walk.mets().len();
    let left = spaces_left(alloc, walk.mets())?;
    Ok(Read::new(alloc, left, most))
}

/// What needs more memory than room for one answer is made, and nothing else changes. It stands apart, since it takes room that is cleared at entry.
#[inline(never)]
fn open(alloc: Global, slot: u8, phase: &mut Phase) -> Result<(), NoMemory>
    ensures same { phase_of slot phase.new ≡ phase_of slot phase.old }
    ensures opened { OnOk result (IsOpened phase.new) }
{
    match phase {
        Phase::Closed(walk) => {
            let read = reader_of(alloc, walk)?;
            *phase = Phase::Reads(read);
        }
        Phase::Ends(ending) => {
            let end = make(alloc, slot, ending)?;
            // What was made last is dropped first.
            let scratch = Scratch::Steps;
            *phase = Phase::Drops { scratch, end };
        }
        _ => {}
    }
    Ok(())
}

/// Makes room in a phase for one answer, and changes nothing else.
fn ready(phase: &mut Phase) -> Result<(), NoMemory>
    requires { IsOpened phase.old }
    ensures same { (slot : _) → phase_of slot phase.new ≡ phase_of slot phase.old }
    ensures room { OnOk result (HasRoomIn phase.new) }
{
    match phase {
        Phase::Walks(walk) => walk.reserve(),
        Phase::Reads(read) => read.reserve(),
        Phase::Gathers { gather, .. } => gather.reserve(),
        _ => Ok(()),
    }
}

impl Checkpoint {
    /// A checkpoint that is about to begin, of the subtree in a slot of its nester.
    pub fn new(alloc: Global, slot: u8) -> Checkpoint
        ensures slot { result.slot ≡ slot }
        ensures state { state_of result ≡ Holds }
    {
        Checkpoint {
            alloc,
            slot,
            phase: Phase::Holds,
        }
    }

    /// Its next call, which goes with no words. It has none where it has ended.
    pub fn next(&self) -> Option<Stage>
        ensures asks { IfSome result (λ stage. machine.head self.now.slot (state_of self.now) ≡ Asks stage no_words) }
        ensures none { IfNone result (IsOver self.now.phase) }
    {
        stage(self.slot, &self.phase)
    }

    /// The image that it has gathered, where only the release is left of a checkpoint that will be done. Nothing elsewhere.
    pub fn gathered(&self) -> Option<&ValidImage>
        ensures { option_map (λ image. image.now) result ≡ gathered_in (state_of self.now) }
    {
        match &self.phase {
            Phase::Releases(end) => end.image(),
            _ => None,
        }
    }

    /// Makes room for one answer, and changes nothing else.
    ///
    /// # Errors
    ///
    /// There is no memory for one answer.
    pub fn reserve(&mut self) -> Result<(), NoMemory>
        ensures slot { self.new.slot ≡ self.old.slot }
        ensures same { state_of self.new ≡ state_of self.old }
        ensures room { OnOk result (HasRoom self.new) }
    {
        open(self.alloc, self.slot, &mut self.phase)?;
        ready(&mut self.phase)
    }

    /// Takes the answer to its next call. That uses up its room.
    pub fn absorb(&mut self, answer: &Answer)
        requires { HasRoom self.old }
        ensures slot { self.new.slot ≡ self.old.slot }
        ensures state { state_of self.new ≡ machine.next self.old.slot (state_of self.old) answer.now.status (answered answer.now) }
    {
        match hear(self.slot, &mut self.phase, answer) {
            Heard::GoesOn => {}
            Heard::IsOver => leave(self.alloc, &mut self.phase),
            Heard::Waits => go_on(self.alloc, self.slot, &mut self.phase, answer),
        }
    }

    /// How it has ended; nothing while it has a call to make.
    pub fn end(&self) -> Option<&CheckpointEnd>
        ensures some { IfSome result (λ end. machine.head self.now.slot (state_of self.now) ≡ Stops (end_of end.now)) }
        ensures none { IfNone result (IsAtCall (checkpoint self.now.slot) (state_of self.now)) }
    {
        match &self.phase {
            Phase::Over(end) => Some(end),
            _ => None,
        }
    }

    /// How it has ended, handed out; nothing while it has a call to make.
    pub fn finish(self) -> Option<CheckpointEnd>
        ensures some { IfSome result (λ end. machine.head self.slot (state_of self) ≡ Stops (end_of end)) }
        ensures none { IfNone result (IsAtCall (checkpoint self.slot) (state_of self)) }
    {
        match self.phase {
            Phase::Over(end) => Some(end),
            _ => None,
        }
    }
}
