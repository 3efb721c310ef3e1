//! Room for what porters' calls tell, used for one call after the other.
ghost use Rattle.std.specs.Prelude.{◌≡◌, ◌≤◌, ◌-◌, true, IfOk, IfSome, IfNone, OnErr, replicate, drop};
ghost use Rattle.fk_model.specs.declared.limits.TheConstants.{PAGE_WORDS};
ghost use Rattle.fk_model.specs.declared.moves.Ask.TheVariants as asks;
ghost use Rattle.fk_model.specs.Endings.{has_ended};
ghost use Rattle.fk_model.specs.Who.{event_of, named};
ghost use Rattle.fk_store.specs.Store.Moves.{said_by};
ghost use Rattle.fk_plans.specs.Plans.Hearers.{says_to, says_to_who, IsPadded};
ghost use Rattle.fk_core.specs.Rounds.Rooms.{IsRoom};
ghost use Rattle.fk_core.specs.Rounds.Tried.{tried_of};
ghost use Rattle.fk_core.specs.Rounds.Kernels.{path_of, world_of};
ghost use Rattle.fk_core.specs.Rounds.Events.{is_fit_event, is_who, may_lack, IsReadyEvent, step_of};
ghost use Rattle.fk_core.specs.Cores.Rooms.{is_made};

use crate::cores::given::Given;
use fk_model::{Answer, Move, NoMemory, Said, Stage, Who};
use fk_served::{Kernel, Told};
use std::marker::Model;

/// Room for what a porter's call tells. What the call before told is cleared by its length, which is mostly short.
#[derive(Drop)]
pub(crate) struct Room {
    told: Told,
}

impl Model for Room {
    ghost use Rattle.fk_plans.specs.Plans.Hearers.{IsPadded};
    ghost use Rattle.fk_core.specs.Rounds.Tolds as tolds;

    ghost Value = { tolds.Told };

    ghost view = { λ room. room.told };

    ghost invariant = { λ room. IsPadded room.told.said };
}

/// An answer of zeros.
fn nothing() -> Answer
    ensures { result ≡ record { status = 0; words = replicate PAGE_WORDS 0; len = 0 } }
{
    Answer {
        status: 0,
        words: [0; 64],
        len: 0,
    }
}

/// Room that has zeros. It stands apart, since it is rare and takes much room.
#[inline(never)]
fn zeros() -> Told
    ensures { IsRoom result.said }
{
    Told {
        said: Said::Answer(nothing()),
        ended: None,
    }
}

/// Words that are zeros past a count are so throughout.
fn wipe(words: &mut [u64; 64], count: usize)
    requires few { count ≤ 64 }
    requires past { drop count words.old ≡ replicate (64 - count) 0 }
    ensures { words.new ≡ replicate 64 0 }
{
    words[..count].fill(0);
}

/// An answer is zeros again, as it is past its length.
fn clear_answer(answer: &mut Answer)
    requires { drop answer.old.len answer.old.words ≡ replicate (PAGE_WORDS - answer.old.len) 0 }
    ensures { answer.new ≡ record { status = 0; words = replicate PAGE_WORDS 0; len = 0 } }
{
    let len = usize::from(answer.len);
    if len > 64 {
        *answer = nothing();
        return;
    }
    wipe(&mut answer.words, len);
    answer.len = 0;
    answer.status = 0;
}

/// Room has zeros again, whatever it held. It stands apart, since it is rare and takes much room, which its caller would clear at entry.
#[inline(never)]
fn blank(told: &mut Told)
    ensures { IsRoom told.new.said }
{
    *told = zeros();
}

/// What is told is zeros again.
fn clear(told: &mut Told)
    requires { IsPadded told.old.said }
    ensures { IsRoom told.new.said }
{
    match &mut told.said {
        Said::Answer(answer) => clear_answer(answer),
        _ => blank(told),
    }
}

/// Whether a call was made.
fn is_made(called: &Result<bool, NoMemory>) -> bool
    ensures { result ≡ is_made called.now }
{
    match called {
        Ok(made) => *made,
        Err(_) => false,
    }
}

impl Room {
    /// Room for the first call.
    #[tactic(auto, using(crate::proofs::InCores::Rooms::padded))]
    pub(crate) fn new() -> Room {
        Room { told: zeros() }
    }

    /// What the last call told.
    pub(crate) fn told(&self) -> &Told
        ensures { result.now ≡ self.now }
    {
        &self.told
    }

    /// Makes a porter's call by a kernel where it is ready, as `Kernel::call` does, and answers whether it was; what it tells is in the room then.
    #[tactic(auto, using(crate::proofs::InCores::Lacking::lacks_tried))]
    pub(crate) fn call(
        &mut self,
        kernel: &mut Kernel,
        m: &Move,
        stage: &Stage,
        given: &Given,
    ) -> Result<bool, NoMemory>
        requires fit { is_fit_event (world_of kernel.old) (event_of (world_of kernel.old) (asks.Call stage.now given.now) m.now) ≡ true }
        ensures made { IfOk (tried_of result self.new) (λ tried. IfSome tried (λ told.
            IsReadyEvent (world_of kernel.old) (event_of (world_of kernel.old) (asks.Call stage.now given.now) m.now)
            × (step_of (world_of kernel.old) (event_of (world_of kernel.old) (asks.Call stage.now given.now) m.now)
            ≡ record { world = world_of kernel.new; said = said_by (path_of kernel.new) told.said }))) }
        ensures ended { IfOk (tried_of result self.new) (λ tried. IfSome tried (λ told. (port : Who) →
            has_ended (world_of kernel.old) (world_of kernel.new) (named (world_of kernel.old) port) ≡ is_who told.ended port)) }
        ensures told { IfOk (tried_of result self.new) (λ tried. IfSome tried (λ told. (port : Who) →
            says_to (step_of (world_of kernel.old) (event_of (world_of kernel.old) (asks.Call stage.now given.now) m.now)).said
            (named (world_of kernel.old) port) ≡ says_to_who told.said port)) }
        ensures unready { IfOk (tried_of result self.new) (λ tried. IfNone tried (
            (IsReadyEvent (world_of kernel.old) (event_of (world_of kernel.old) (asks.Call stage.now given.now) m.now) → ⊥)
            × (kernel.new ≡ kernel.old))) }
        ensures lacking { OnErr (tried_of result self.new) (kernel.new ≡ kernel.old) }
        ensures lacks { OnErr (tried_of result self.new) (may_lack (world_of kernel.old) (event_of (world_of kernel.old) (asks.Call stage.now given.now) m.now) ≡ true) }
    {
        clear(&mut self.told);
        let called = kernel.call(m, stage, given.words(), &mut self.told);
        if is_made(&called) {
            return called;
        }
        // Where it wasn't made the room may hold anything.
        blank(&mut self.told);
        called
    }
}
