//! What a thread does next.
ghost use Rattle.std.specs.Prelude.{◌≡◌, ℕ, [], Some, true};
ghost use Rattle.fk_model.specs.Calls.{todo_of};
ghost use Rattle.fk_model.specs.Places.{Path};
ghost use Rattle.fk_model.specs.Searches.{thread_at};
ghost use Rattle.fk_model.specs.World.{World};
ghost use Rattle.fk_store.specs.Store.Bodies.{thread_by};
ghost use Rattle.fk_store.specs.Store.Paths.{path, place};
ghost use Rattle.fk_store.specs.Store.Threads.{todo_at};
ghost use Rattle.fk_store.specs.Store.World.{world, IsSpace};
ghost use Rattle.fk_calls.specs.Calls.Doings.{IsDoing, is_free_porter_at, first_of};

use fk_model::{Mode, Stage, Thread, Todo, Who};
use fk_stages::todo;
use fk_store::Store;

/// What a user thread does next.
#[derive(Clone, Copy)]
pub enum Doing {
    /// One instruction.
    Instruction,
    /// This stage, the first of its call.
    Stage(Stage),
    /// It doesn't move: it is no user, or has halted, or its registers name no call.
    Nothing,
}

/// What the thread in a slot does next.
pub fn doing_of(store: &Store, who: Who) -> Doing
    ensures { IsDoing (world store.now) (place (path store.now) who) result }
{
    match store.thread(who) {
        Some(thread) => next_of(thread),
        None => Doing::Nothing,
    }
}

/// What a thread does next.
#[inline(always)]
pub fn next_of(thread: &Thread) -> Doing
    ensures { (w : World) (x : Path) (p : ℕ → Path) → Some (thread_by p thread.now) ≡ thread_at w x → IsDoing w x result }
{
    match thread.mode {
        Mode::Running => Doing::Instruction,
        Mode::Calling => match first_stage(&thread.regs) {
            Some(stage) => Doing::Stage(stage),
            None => Doing::Nothing,
        },
        Mode::Halted(_) | Mode::Native => Doing::Nothing,
    }
}

/// The first stage of the call that the registers name, if they name one.
#[inline(always)]
pub fn first_stage(registers: &[u64; 16]) -> Option<Stage>
    ensures { first_of (todo_of registers.now) ≡ result }
{
    match todo(registers)? {
        Todo::One(stage)
        | Todo::Two(stage, _)
        | Todo::Three(stage, _, _)
        | Todo::Four(stage, _, _, _) => Some(stage),
    }
}

/// A porter whose space isn't held is in the slot.
#[tactic(auto, unfolding(crate::specs::Calls::Doings::is_free_porter_at, fk_store::specs::Store::Threads::todo_at))]
pub fn is_free_porter(store: &Store, who: Who) -> bool
    ensures free { result ≡ is_free_porter_at (world store.now) (place (path store.now) who) }
    ensures space { result ≡ true → IsSpace store.now who.space }
    ensures idle { result ≡ true → todo_at (world store.now) (place (path store.now) who) ≡ [] }
{
    match store.thread(who) {
        None => false,
        Some(thread) => match thread.mode {
            Mode::Native => !store.is_frozen(who.space),
            Mode::Running | Mode::Calling | Mode::Halted(_) => false,
        },
    }
}
