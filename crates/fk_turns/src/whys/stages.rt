//! At which stage a thread is.
ghost use Rattle.std.specs.Prelude.{◌≡◌, ℕ, List, Some};
ghost use Rattle.fk_model.specs.Calls.{stages_of};
ghost use Rattle.fk_model.specs.Objects.Mode.{Calling};
ghost use Rattle.fk_model.specs.Places.{Path};
ghost use Rattle.fk_model.specs.Talks as talks;
ghost use Rattle.fk_store.specs.Store.Bodies.{calling_mode, thread_by};

use fk_model::{Mode, Stage, Thread, Todo};
use fk_stages::todo;

/// The stage that a thread in a call makes next.
pub fn first_stage(thread: &Thread) -> Option<Stage>
    ensures { (p : ℕ → Path) → result ≡ talks.first_stage (thread_by p thread.now).mode }
{
    match thread.mode {
        Mode::Calling => first_named(&thread.regs),
        Mode::Running | Mode::Halted(_) | Mode::Native => None,
    }
}

/// The first stage of the call that the registers name, if they name one.
fn first_named(registers: &[u64; 16]) -> Option<Stage>
    ensures { result ≡ talks.first_stage (calling_mode registers.now) }
{
    match todo(registers) {
        Some(stages) => Some(first_of(&stages)),
        None => None,
    }
}

/// The first of some stages.
fn first_of(stages: &Todo) -> Stage
    ensures { (rest : List ℕ) → talks.first_stage (Calling (stages_of stages.now) rest) ≡ Some result }
{
    match *stages {
        Todo::One(stage)
        | Todo::Two(stage, _)
        | Todo::Three(stage, _, _)
        | Todo::Four(stage, _, _, _) => stage,
    }
}
