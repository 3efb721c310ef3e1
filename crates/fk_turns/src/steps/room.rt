//! Room for a thread that a move may make.
ghost use Rattle.std.specs.Prelude.{◌≡◌, ℕ, [], true, Some, OnOk, OnErr, unwrap_or};
ghost use Rattle.std.specs.Bool.{OnTrue};
ghost use Rattle.fk_model.specs.Calls.{todo_of};
ghost use Rattle.fk_model.specs.Places.{Path};
ghost use Rattle.fk_model.specs.Searches.{thread_at};
ghost use Rattle.fk_model.specs.World.{World};
ghost use Rattle.fk_store.specs.Store.Bodies.{thread_by};
ghost use Rattle.fk_store.specs.Store.Paths.{path, place};
ghost use Rattle.fk_store.specs.Store.Threads.{todo_at};
ghost use Rattle.fk_store.specs.Store.World.{world};
ghost use Rattle.fk_turns.specs.Next.Judgements.{may_lack};
ghost use Rattle.fk_turns.specs.Next.Rows.{takes_memory};
ghost use Rattle.fk_waits.specs.Turns.Turns.{IsSound};
ghost use Rattle.fk_turns.specs.Steps.Steps as steps_of;
ghost use Rattle.fk_turns.specs.Steps.Steps.{first_makes, may_make, HasSeat, IsWider};

use fk_calls::first_stage;
use fk_model::{Ask, Mode, Move, NoMemory, Stage, Thread, Who};
use fk_store::Store;
use fk_waits::turns::Turns;

/// Makes room for one more thread, where a move may make something. The lists stay.
///
/// # Errors
///
/// There is no memory for one more, and the move makes an object or a page.
pub fn reserve_for(turns: &mut Turns, store: &Store, m: &Move, ask: &Ask) -> Result<(), NoMemory>
    requires sound { IsSound turns.old.waits turns.old.marks }
    ensures wider { IsWider turns.old.waits turns.old.marks turns.new.waits turns.new.marks }
    ensures room { OnOk result (may_make store.now m.now ask.now ≡ true → HasSeat turns.new.waits turns.new.marks) }
    ensures lacking { OnErr result (may_lack store.now m.now ask.now ≡ true) }
{
    reserve_where(turns, may_want(store, m, ask))
}

/// The same before a porter's call.
///
/// # Errors
///
/// There is no memory for one more, and the stage makes an object or a page.
pub fn reserve_for_stage(turns: &mut Turns, stage: &Stage) -> Result<(), NoMemory>
    requires sound { IsSound turns.old.waits turns.old.marks }
    ensures wider { IsWider turns.old.waits turns.old.marks turns.new.waits turns.new.marks }
    ensures room { OnOk result (steps_of.makes_object true stage.now ≡ true → HasSeat turns.new.waits turns.new.marks) }
    ensures lacking { OnErr result (takes_memory true stage.now ≡ true) }
{
    reserve_where(turns, makes_object(true, stage))
}

/// The same before the next move of the user in a slot, and whether there is room.
pub fn seat_for(turns: &mut Turns, store: &Store, who: Who) -> bool
    requires sound { IsSound turns.old.waits turns.old.marks }
    ensures wider { IsWider turns.old.waits turns.old.marks turns.new.waits turns.new.marks }
    ensures room { OnTrue result (first_makes (todo_at (world store.now) (place (path store.now) who)) ≡ true
        → HasSeat turns.new.waits turns.new.marks) }
{
    // Mostly there is, and then nobody is looked at.
    if turns.has_seat() {
        return true;
    }
    reserve_where(turns, user_wants(store, who)).is_ok()
}

/// Makes room where it is wanted.
fn reserve_where(turns: &mut Turns, wants: bool) -> Result<(), NoMemory>
    requires sound { IsSound turns.old.waits turns.old.marks }
    ensures wider { IsWider turns.old.waits turns.old.marks turns.new.waits turns.new.marks }
    ensures room { OnOk result (wants ≡ true → HasSeat turns.new.waits turns.new.marks) }
    ensures lacking { OnErr result (wants ≡ true) }
{
    if wants {
        return turns.reserve();
    }
    Ok(())
}

/// A move may make an object.
fn may_want(store: &Store, m: &Move, ask: &Ask) -> bool
    ensures { result ≡ may_make store.now m.now ask.now }
{
    match ask {
        Ask::Run => user_wants(store, m.who),
        Ask::Call { stage, .. } => makes_object(true, stage),
        Ask::Accept | Ask::Give { .. } | Ask::Over => false,
    }
}

/// So may the next move of the user in a slot.
#[tactic(auto, unfolding(fk_store::specs::Store::Threads::todo_at))]
fn user_wants(store: &Store, who: Who) -> bool
    ensures { result ≡ first_makes (todo_at (world store.now) (place (path store.now) who)) }
{
    match store.thread(who) {
        Some(thread) => thread_wants(thread),
        None => false,
    }
}

/// So may the next stage of a thread.
fn thread_wants(thread: &Thread) -> bool
    ensures { (w : World) (x : Path) (p : ℕ → Path) → Some (thread_by p thread.now) ≡ thread_at w x → result ≡ first_makes (todo_at w x) }
{
    match thread.mode {
        Mode::Calling => call_wants(&thread.regs),
        Mode::Running => false,
        Mode::Halted(_) => false,
        Mode::Native => false,
    }
}

/// So may the first stage of the call that the registers name.
fn call_wants(registers: &[u64; 16]) -> bool
    ensures { result ≡ first_makes (unwrap_or (todo_of registers.now) []) }
{
    match first_stage(registers) {
        Some(stage) => makes_object(false, &stage),
        None => false,
    }
}

/// A stage makes an object.
fn makes_object(is_porter: bool, stage: &Stage) -> bool
    ensures { result ≡ steps_of.makes_object is_porter stage.now }
{
    match stage {
        Stage::Create { .. } => true,
        Stage::SpaceMakeHeld { .. } => is_porter,
        _ => false,
    }
}
