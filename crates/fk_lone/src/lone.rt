//! A thread that runs beside the store that has its memory.
ghost use Rattle.std.specs.Prelude.{◌≡◌, ◌<◌, ℕ, List, true, false, IfSome, IfNone, nat_lt, slice_index, slice_set};
ghost use Rattle.fk_model.specs.Instructions as instructions;
ghost use Rattle.fk_model.specs.Instructions.{IsAct};
ghost use Rattle.fk_store.specs.Store.WellFormed.{HasCall};
ghost use Rattle.fk_store.specs.Store.World.{world};
ghost use Rattle.fk_lone.specs.Lones.{lone_state};
ghost use Rattle.fk_lone.specs.LoneThread as alone;
ghost use Rattle.fk_lone.specs.LoneThread.{IsAlone, memory_of, state_of};
ghost use Rattle.fk_lone.specs.Machine as machines;
ghost use Rattle.fk_store.specs.Store.Bodies.{mode_by};

use fk_model::halt::BAD_ADDRESS;
use fk_model::limits::{PAGE_WORDS, SPACE_WORDS};
use fk_model::status::BADCALL;
use fk_model::{Act, Mode, Thread, Who};
use fk_store::Store;
use fk_user::asked;

/// Where the thread stands: in slot 0 of the root.
pub const ALONE: Who = Who { space: 0, slot: 0 };

/// What changes of a thread while it runs: its registers, its counter, and the code of its halt.
#[derive(Clone, Copy)]
pub struct Lone {
    registers: [u64; 16],
    counter: u64,
    halted: Option<u8>,
}

/// The code with which a thread has halted, if it has.
pub fn code_of(thread: &Thread) -> Option<u8>
    ensures { result ≡ alone.code_of (mode_by thread.now.mode thread.now.regs) }
{
    match thread.mode {
        Mode::Halted(code) => Some(code),
        Mode::Running | Mode::Calling | Mode::Native => None,
    }
}

/// The thread that stands alone, to run beside its store.
pub fn taken_out(store: &Store) -> Lone
    requires { IsAlone (world store.now) }
    ensures { lone_state (world store.now) result ≡ state_of (world store.now) }
{
    match store.thread(ALONE) {
        Some(thread) => Lone {
            registers: thread.regs,
            counter: thread.pc,
            halted: code_of(thread),
        },
        None => unreachable!(),
    }
}

/// What a thread is at that has halted with this code, or runs.
fn mode_of(halted: Option<u8>) -> Mode
    ensures mode { (registers : List ℕ) → mode_by result registers ≡ alone.lone_mode halted registers }
    ensures call { (registers : List ℕ) → HasCall result registers }
{
    match halted {
        Some(code) => Mode::Halted(code),
        None => Mode::Running,
    }
}

/// Puts the thread back into its store.
pub fn put_back(store: &mut Store, lone: &Lone)
    requires { IsAlone (world store.old) }
    ensures alone { IsAlone (world store.new) }
    ensures state { state_of (world store.new) ≡ lone_state (world store.old) lone.now }
{
    store.proceed(ALONE, &lone.registers, lone.counter, mode_of(lone.halted));
}

/// The word at an address; none past the last page.
#[inline(always)]
#[tactic(auto, using(crate::proofs::Lones::word_there))]
fn word_at(store: &Store, address: u64) -> Option<u64>
    requires { IsAlone (world store.now) }
    ensures word { IfSome result (λ word. (nat_lt address SPACE_WORDS ≡ true) × (word ≡ slice_index (memory_of (world store.now)) address)) }
    ensures past { IfNone result (nat_lt address SPACE_WORDS ≡ false) }
{
    if address >= SPACE_WORDS {
        return None;
    }
    match store.page(0, (address / PAGE_WORDS) as u8) {
        Some(words) => Some(words[(address % PAGE_WORDS) as usize]),
        None => unreachable!(),
    }
}

/// The word at an address of the memory gets a value.
fn put_word(store: &mut Store, address: u64, value: u64)
    requires alone { IsAlone (world store.old) }
    requires low { address < SPACE_WORDS }
    ensures alone { IsAlone (world store.new) }
    ensures memory { memory_of (world store.new) ≡ slice_set (memory_of (world store.old)) address value }
{
    store.put_word(
        0,
        (address / PAGE_WORDS) as u8,
        (address % PAGE_WORDS) as u8,
        value,
    );
}

/// A register gets a value, and the next instruction follows.
#[inline(always)]
fn put(lone: &mut Lone, register: u8, value: u64)
    requires { register < 16 }
    ensures registers { lone.new.registers ≡ slice_set lone.old.registers register value }
    ensures counter { lone.new.counter ≡ instructions.next lone.old.counter }
    ensures halted { lone.new.halted ≡ lone.old.halted }
{
    lone.registers[register as usize] = value;
    lone.counter = lone.counter.wrapping_add(1);
}

/// Does what an act asks for.
#[inline(always)]
fn perform(store: &mut Store, lone: &mut Lone, act: Act)
    requires alone { IsAlone (world store.old) }
    requires in_range { IsAct act }
    ensures alone { IsAlone (world store.new) }
    ensures state { lone_state (world store.new) lone.new ≡ machines.apply (lone_state (world store.old) lone.old) act }
{
    match act {
        Act::Put { register, value } => put(lone, register, value),
        Act::Jump { counter } => lone.counter = counter,
        Act::Load { register, address } => match word_at(store, address) {
            Some(value) => put(lone, register, value),
            None => lone.halted = Some(BAD_ADDRESS),
        },
        Act::Store { address, value } => {
            if address < SPACE_WORDS {
                put_word(store, address, value);
                lone.counter = lone.counter.wrapping_add(1);
            } else {
                lone.halted = Some(BAD_ADDRESS);
            }
        }
        Act::Halt { code } => lone.halted = Some(code),
        Act::Call => put(lone, 0, u64::from(BADCALL)),
    }
}

/// Makes one instruction.
#[inline(always)]
fn instruct(store: &mut Store, lone: &mut Lone)
    requires { IsAlone (world store.old) }
    ensures alone { IsAlone (world store.new) }
    ensures state { lone_state (world store.new) lone.new ≡ machines.instructed (lone_state (world store.old) lone.old) }
{
    match word_at(store, lone.counter) {
        Some(word) => {
            let act = asked(word, &lone.registers, lone.counter);
            perform(store, lone, act);
        }
        None => lone.halted = Some(BAD_ADDRESS),
    }
}

/// Makes at most so many instructions, up to a halt, and says how many they were. The one that halts
/// is among them.
#[tactic(auto, using(crate::proofs::Runs::run_ended, crate::proofs::Runs::events_ended))]
pub fn run_beside(store: &mut Store, lone: &mut Lone, budget: u64) -> u64
    requires { IsAlone (world store.old) }
    ensures alone { IsAlone (world store.new) }
    ensures state { lone_state (world store.new) lone.new ≡ machines.run budget (lone_state (world store.old) lone.old) }
    ensures count { result ≡ machines.events budget (lone_state (world store.old) lone.old) }
{
    for event in 0..budget {
        if lone.halted.is_some() {
            return event;
        }
        instruct(store, lone);
    }
    budget
}
