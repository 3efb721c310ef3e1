//! A stage that is done, with its answers.
ghost use Rattle.std.specs.Prelude.{◌≡◌, ◌+◌, ◌%◌, ◌^◌, ℕ, true, Some, None, is_some, slice_index};
ghost use Rattle.fk_model.specs.Calls.{todo_of, with_answers};
ghost use Rattle.fk_model.specs.Objects.Body.{Thread_of};
ghost use Rattle.fk_model.specs.Places.{Path};
ghost use Rattle.fk_model.specs.Valid.{kind_there};
ghost use Rattle.fk_model.specs.World.{apply, edited};
ghost use Rattle.fk_model.specs.World.Change.{Alter};
ghost use Rattle.fk_model.specs.World.Edit.{End, Finish};
ghost use Rattle.fk_model.specs.declared.statuses.status.TheConstants.{OK};
ghost use Rattle.fk_model.specs.declared.thread.Mode.TheVariants as modes;
ghost use Rattle.fk_store.specs.Store.Bodies.{mode_by, thread_by};
ghost use Rattle.fk_store.specs.Store.Paths.{path, place};
ghost use Rattle.fk_store.specs.Store.Threads.{todo_of_mode, todo_at};
ghost use Rattle.fk_store.specs.Store.WellFormed.{HasCall};
ghost use Rattle.fk_store.specs.Store.World.{world};
ghost use Rattle.fk_changes.specs.Threads.Answers.{all_four, came_answers, listed, code_after, LeaveArguments};

use crate::threads::going::go_on;
use fk_model::call::{
    CLIENT_OVER_RECEIVE, CLIENT_RECEIVE, CLIENT_SEND_OVER_RECEIVE, CONNECT_SEND_OVER_RECEIVE,
    SERVER_OVER_RECEIVE, SERVER_RECEIVE, SERVER_SEND_OVER_RECEIVE, WAIT_RECEIVE,
};
use fk_model::{Mode, Thread, Who, status};
use fk_store::Store;

/// The answers of a stage.
#[derive(Clone, Copy)]
pub enum Answers {
    Nothing,
    One(u64),
    Two(u64, u64),
    Three(u64, u64, u64),
}

/// What a stage answers that awaits a pointer: whether one came.
pub fn answered(came: Option<bool>) -> Answers
    ensures { listed result ≡ came_answers came }
{
    match came {
        None => Answers::Nothing,
        Some(came) => Answers::One(u64::from(came)),
    }
}

/// The code of a call without its first stage; none where that is its last.
#[inline(always)]
fn code_after(code: u64) -> Option<u64>
    ensures { result ≡ code_after code }
{
    match code {
        CONNECT_SEND_OVER_RECEIVE => Some(CLIENT_SEND_OVER_RECEIVE),
        CLIENT_SEND_OVER_RECEIVE => Some(CLIENT_OVER_RECEIVE),
        CLIENT_OVER_RECEIVE => Some(CLIENT_RECEIVE),
        WAIT_RECEIVE => Some(SERVER_RECEIVE),
        SERVER_SEND_OVER_RECEIVE => Some(SERVER_OVER_RECEIVE),
        SERVER_OVER_RECEIVE => Some(SERVER_RECEIVE),
        _ => None,
    }
}

/// Answers come into registers, from the second one on.
#[inline(always)]
fn answer(registers: &mut [u64; 16], answers: Answers)
    ensures { registers.new ≡ with_answers (listed answers) registers.old }
{
    match answers {
        Answers::Nothing => {}
        Answers::One(a) => registers[1] = a,
        Answers::Two(a, b) => {
            registers[1] = a;
            registers[2] = b;
        }
        Answers::Three(a, b, c) => {
            registers[1] = a;
            registers[2] = b;
            registers[3] = c;
        }
    }
}

/// The registers of a calling thread that goes on at the stages with this code.
#[inline(always)]
fn at_next(thread: &Thread, code: u64, answers: Answers) -> [u64; 16]
    requires calling { thread.now.mode ≡ modes.Calling }
    requires after { Some code ≡ code_after (slice_index thread.now.regs 0) }
    requires apart { LeaveArguments answers (todo_of_mode (mode_by thread.now.mode thread.now.regs)) }
    ensures call { is_some (todo_of result) ≡ true }
    ensures edit { (p : ℕ → Path) → edited (Finish (listed answers)) (Thread_of (thread_by p thread.now))
        ≡ Thread_of (thread_by p (record thread.now { regs = result; mode = modes.Calling })) }
{
    let mut registers = thread.regs;
    answer(&mut registers, answers);
    registers[0] = code;
    registers
}

/// The registers of a calling thread whose last stage is done.
#[inline(always)]
fn ended_well(thread: &Thread, answers: Answers) -> [u64; 16]
    requires calling { thread.now.mode ≡ modes.Calling }
    requires last { None ≡ code_after (slice_index thread.now.regs 0) }
    ensures { (p : ℕ → Path) → edited (Finish (listed answers)) (Thread_of (thread_by p thread.now))
        ≡ Thread_of (thread_by p (record thread.now { regs = result; pc = (thread.now.pc + 1) % 2 ^ 64; mode = modes.Running })) }
{
    let mut registers = thread.regs;
    registers[0] = u64::from(status::OK);
    answer(&mut registers, answers);
    registers
}

/// The first stage of a thread's call is done, with answers that leave the arguments of its later
/// stages. The call ends where it was the last. What is in no call stays as it is.
#[tactic(auto, using(fk_store::proofs::InStore::changing::ThreadLaws::kind_thread, crate::proofs::InThreads::FinishLaws::finish_nobody))]
#[inline(always)]
pub fn finish(store: &mut Store, who: Who, answers: Answers)
    requires apart { LeaveArguments answers (todo_at (world store.old) (place (path store.old) who)) }
    ensures world { world store.new ≡ apply (Alter (place (path store.old) who) (Finish (listed answers))) (world store.old) }
    ensures kinds { kind_there (world store.new) ≡ kind_there (world store.old) }
    ensures paths { path store.new ≡ path store.old }
{
    if let Some(thread) = store.thread(who) {
        if let Mode::Calling = thread.mode {
            let counter = thread.pc;
            match code_after(thread.regs[0]) {
                Some(code) => {
                    let registers = at_next(thread, code, answers);
                    store.proceed(who, &registers, counter, Mode::Calling);
                }
                None => {
                    let registers = ended_well(thread, answers);
                    store.proceed(who, &registers, counter.wrapping_add(1), Mode::Running);
                }
            }
        }
    }
}

/// Four answers, with which a whole call ends.
#[derive(Clone, Copy)]
pub struct Four {
    pub first: u64,
    pub second: u64,
    pub third: u64,
    pub fourth: u64,
}

/// Registers with four answers, from the second register on.
fn answered_four(registers: [u64; 16], answers: Four) -> [u64; 16]
    ensures { result ≡ with_answers (all_four answers) registers }
{
    let mut written = registers;
    written[1] = answers.first;
    written[2] = answers.second;
    written[3] = answers.third;
    written[4] = answers.fourth;
    written
}

/// A calling thread whose call has ended well, with four answers.
fn ended_with(mut thread: Thread, answers: Four) -> Thread
    requires calling { thread.mode ≡ modes.Calling }
    ensures edit { (p : ℕ → Path) → edited (End OK (all_four answers)) (Thread_of (thread_by p thread)) ≡ Thread_of (thread_by p result) }
    ensures talk { result.talk ≡ thread.talk }
    ensures fault { result.fault ≡ thread.fault }
    ensures stops { result.stops ≡ thread.stops }
    ensures call { HasCall result.mode result.regs }
{
    thread.regs[0] = u64::from(status::OK);
    thread.regs = answered_four(thread.regs, answers);
    thread.pc = thread.pc.wrapping_add(1);
    thread.mode = Mode::Running;
    thread
}

/// A thread whose call, if it is in one, has ended well.
fn well_ended(thread: Thread, answers: Four) -> Thread
    ensures edit { (p : ℕ → Path) → edited (End OK (all_four answers)) (Thread_of (thread_by p thread)) ≡ Thread_of (thread_by p result) }
    ensures talk { result.talk ≡ thread.talk }
    ensures fault { result.fault ≡ thread.fault }
    ensures stops { result.stops ≡ thread.stops }
    ensures call { HasCall thread.mode thread.regs → HasCall result.mode result.regs }
{
    if let Mode::Calling = thread.mode {
        return ended_with(thread, answers);
    }
    thread
}

/// The whole call of a thread ends well, with these answers. What is in no call stays as it is.
#[tactic(auto, using(fk_store::proofs::InStore::changing::ThreadLaws::kind_thread, crate::proofs::InThreads::FinishLaws::well_nobody))]
pub fn end_well(store: &mut Store, who: Who, answers: Four)
    ensures world { world store.new ≡ apply (Alter (place (path store.old) who) (End OK (all_four answers))) (world store.old) }
    ensures kinds { kind_there (world store.new) ≡ kind_there (world store.old) }
    ensures paths { path store.new ≡ path store.old }
{
    if let Some(&thread) = store.thread(who) {
        go_on(store, who, thread, well_ended(thread, answers));
    }
}
