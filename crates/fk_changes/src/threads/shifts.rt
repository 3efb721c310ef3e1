//! What a moved block makes of the threads at its ends.
ghost use Rattle.std.specs.Prelude.{◌≡◌, ◌<◌, ◌+◌, ◌-◌, ◌^◌, ℕ, true, is_some, slice_index};
ghost use Rattle.fk_model.specs.Calls.{todo_of};
ghost use Rattle.fk_model.specs.Objects.Body.{Thread_of};
ghost use Rattle.fk_model.specs.Places.{Path};
ghost use Rattle.fk_model.specs.Objects.{and_then};
ghost use Rattle.fk_model.specs.Talks.{first_stage, receive_on, awaited};
ghost use Rattle.fk_model.specs.World.{apply, edited};
ghost use Rattle.fk_model.specs.World.Change.{Alter};
ghost use Rattle.fk_model.specs.World.Edit.{Shift, CountMoved};
ghost use Rattle.fk_model.specs.Valid.{kind_there};
ghost use Rattle.fk_model.specs.declared.thread.Mode.TheVariants as modes;
ghost use Rattle.fk_store.specs.Store.Bodies.{mode_by, thread_by};
ghost use Rattle.fk_store.specs.Store.Paths.{path, place};
ghost use Rattle.fk_store.specs.Store.Threads.{todo_of_mode};
ghost use Rattle.fk_store.specs.Store.World.{world};
ghost use Rattle.fk_changes.specs.Threads.Shifted.{moving, address_in, address_of, awaited_in, shifted_registers, receive_code, receive_ref_code, is_receive, IsLow};

use fk_model::call::{
    CLIENT_RECEIVE, CLIENT_RECEIVE_REF, CLIENT_SEND, CLIENT_SEND_OVER_RECEIVE, SERVER_RECEIVE,
    SERVER_RECEIVE_REF, SERVER_SEND, SERVER_SEND_OVER_RECEIVE,
};
use fk_model::{Mode, Thread, Turn, Who};
use fk_store::Store;

/// What is left, or nothing.
fn less(a: u64, b: u64) -> u64
    ensures { result ≡ a - b }
{
    if a < b { 0 } else { a - b }
}

/// The first stage of the call in registers has moved so many words.
#[inline(always)]
fn shift(registers: &mut [u64; 16], count: u64)
    requires { address_in (moving (slice_index registers.old 0)) registers.old + count < 2 ^ 64 }
    ensures { registers.new ≡ shifted_registers count registers.old }
{
    match registers[0] {
        CLIENT_SEND_OVER_RECEIVE | CLIENT_SEND | SERVER_SEND | SERVER_SEND_OVER_RECEIVE => {
            registers[2] = registers[2] + count;
            registers[3] = less(registers[3], count);
        }
        CLIENT_RECEIVE | SERVER_RECEIVE | CLIENT_RECEIVE_REF | SERVER_RECEIVE_REF => {
            registers[4] = registers[4] + count;
            registers[5] = less(registers[5], count);
        }
        _ => {}
    }
}

/// The registers of a calling thread whose first stage has moved so many words.
#[inline(always)]
fn shifted(thread: &Thread, count: u64) -> [u64; 16]
    requires calling { thread.now.mode ≡ modes.Calling }
    requires low { address_of (todo_of_mode (mode_by thread.now.mode thread.now.regs)) + count < 2 ^ 64 }
    ensures call { is_some (todo_of thread.now.regs) ≡ true → is_some (todo_of result) ≡ true }
    ensures edit { (p : ℕ → Path) → edited (Shift count) (Thread_of (thread_by p thread.now))
        ≡ Thread_of (thread_by p (record thread.now { regs = result; mode = modes.Calling })) }
{
    let mut registers = thread.regs;
    shift(&mut registers, count);
    registers
}

/// The first stage of a thread's call has moved so many words. What is in no such stage stays as it
/// is.
#[tactic(auto, using(fk_store::proofs::InStore::changing::ThreadLaws::kind_thread, crate::proofs::InThreads::ShiftLaws::shift_nobody, crate::proofs::InThreads::ShiftLaws::low_there))]
pub fn advance(store: &mut Store, who: Who, count: u64)
    requires low { IsLow (world store.old) (place (path store.old) who) count }
    ensures world { world store.new ≡ apply (Alter (place (path store.old) who) (Shift count)) (world store.old) }
    ensures kinds { kind_there (world store.new) ≡ kind_there (world store.old) }
    ensures paths { path store.new ≡ path store.old }
{
    if let Some(thread) = store.thread(who) {
        if let Mode::Calling = thread.mode {
            let counter = thread.pc;
            let registers = shifted(thread, count);
            store.proceed(who, &registers, counter, Mode::Calling);
        }
    }
}

/// The talk of a thread as a client has moved so many words more. What is in no talk stays as it
/// is.
pub fn count_moved(store: &mut Store, client: Who, count: u8)
    ensures world { world store.new ≡ apply (Alter (place (path store.old) client) (CountMoved count)) (world store.old) }
    ensures kinds { kind_there (world store.new) ≡ kind_there (world store.old) }
    ensures paths { path store.new ≡ path store.old }
{
    store.count_moved(client, count);
}

/// The code of the call that is a Receive alone, on this side of a talk.
fn receive_code(side: Turn) -> u64
    ensures { result ≡ receive_code side }
{
    match side {
        Turn::Client => CLIENT_RECEIVE,
        Turn::Server => SERVER_RECEIVE,
    }
}

/// The code of the call that is a ReceiveRef, on this side of a talk.
fn receive_ref_code(side: Turn) -> u64
    ensures { result ≡ receive_ref_code side }
{
    match side {
        Turn::Client => CLIENT_RECEIVE_REF,
        Turn::Server => SERVER_RECEIVE_REF,
    }
}

/// The code is of a Receive alone, with a reference or without, on this side of a talk.
fn is_receive(side: Turn, code: u64) -> bool
    ensures { result ≡ is_receive side code }
{
    code == receive_code(side) || code == receive_ref_code(side)
}

/// The address and the room of the Receive at which a thread is, on this side of a talk, with a
/// reference or without.
pub fn receive_of(thread: &Thread, side: Turn) -> Option<(u64, u64)>
    ensures { (p : ℕ → Path) → result ≡ and_then (receive_on side) (first_stage (thread_by p thread.now).mode) }
{
    if let Mode::Calling = thread.mode {
        if is_receive(side, thread.regs[0]) {
            return Some((thread.regs[4], thread.regs[5]));
        }
    }
    None
}

/// The slot of the reference that is to take a pointer, of a call in registers.
fn awaited_in(regs: &[u64; 16]) -> Option<u64>
    ensures { result ≡ awaited_in regs.now }
{
    if regs[0] == CLIENT_RECEIVE_REF || regs[0] == SERVER_RECEIVE_REF {
        Some(regs[6])
    } else {
        None
    }
}

/// The slot of the reference that is to take a pointer, of a thread at a ReceiveRef.
pub fn awaited_by(thread: &Thread) -> Option<u64>
    ensures { (p : ℕ → Path) → result ≡ awaited (thread_by p thread.now).mode }
{
    if let Mode::Calling = thread.mode {
        awaited_in(&thread.regs)
    } else {
        None
    }
}
