//! A thread alone with its memory, over the store.
ghost use Rattle.std.specs.Prelude.{◌≡◌, ◌≤◌, IfOk, length, vec_len};
ghost use Rattle.fk_store.specs.Store.World.{world};
ghost use Rattle.fk_lone.specs.LoneThread as alone;
ghost use Rattle.fk_lone.specs.LoneThread.{filled};
ghost use Rattle.fk_lone.specs.Machine as machines;

use crate::lone::{ALONE, code_of, put_back, run_beside, taken_out};
use fk_model::{Body, Mode, NoMemory, Thread};
use fk_store::Store;
use std::alloc::Global;
use std::marker::Model;

/// How many words the 256 pages of a space hold.
pub const WORDS: usize = 16384;

/// The thread before its first instruction.
const FRESH: Thread = Thread {
    regs: [0; 16],
    pc: 0,
    mode: Mode::Running,
    stops: 0,
    talk: None,
    fault: None,
};

/// A thread alone with its memory, and no kernel that its calls could enter: it stands in the root,
/// and its memory is the root's 256 pages.
#[derive(Drop)]
pub struct Machine {
    store: Store,
}

impl Model for Machine {
    ghost use Rattle.fk_store.specs.Store.World.{world};
    ghost use Rattle.fk_lone.specs.LoneThread.{IsAlone, state_of};
    ghost use Rattle.fk_lone.specs.Machine.{State};

    ghost Value = { State };

    ghost view = { λ m. state_of (world m.store) };

    ghost invariant = { λ m. IsAlone (world m.store) };
}

impl Machine {
    /// A thread at the start of a program of at most `WORDS` words, with zeros in all other words.
    ///
    /// # Errors
    ///
    /// There is no memory for its pages.
    pub fn new(mut program: Vec<u64>) -> Result<Machine, NoMemory>
        requires { vec_len program ≤ WORDS }
        ensures { IfOk result (λ m. m ≡ machines.start program.items) }
    {
        program.resize(WORDS, 0)?;
        let mut store = filled(*program.allocator(), &program)?;
        store.make(ALONE, Body::Thread(FRESH))?;
        Ok(Machine { store })
    }

    /// The registers, from `r0` on.
    pub fn registers(&self) -> &[u64; 16]
        ensures { result.now ≡ self.now.registers }
    {
        match self.store.thread(ALONE) {
            Some(thread) => &thread.regs,
            None => unreachable!(),
        }
    }

    /// The code with which the thread halted, if it did.
    pub fn halted(&self) -> Option<u8>
        ensures { result ≡ self.now.halted }
    {
        match self.store.thread(ALONE) {
            Some(thread) => code_of(thread),
            None => unreachable!(),
        }
    }

    /// Makes at most so many instructions, up to a halt, and says how many they were. The one that
    /// halts is among them. An instruction reads the word at the counter, and does what it asks for. A
    /// counter or an address past the memory halts with code 2, an unknown instruction with code 3, a
    /// zero divisor with code 1. A halt leaves the counter. `call` puts 1, for no such call, into `r0`.
    /// A thread that has halted stays as it is.
    pub fn run(&mut self, budget: u64) -> u64
        ensures state { self.new ≡ machines.run budget self.old }
        ensures count { result ≡ machines.events budget self.old }
    {
        let mut lone = taken_out(&self.store);
        let events = run_beside(&mut self.store, &mut lone, budget);
        put_back(&mut self.store, &lone);
        events
    }
}

/// The root alone, with these words in its 256 pages.
fn filled(alloc: Global, words: &[u64]) -> Result<Store, NoMemory>
    requires { length words.now ≡ WORDS }
    ensures { IfOk result (λ store. world store ≡ filled 256 words.now) }
{
    let mut store = Store::new(alloc)?;
    for page in 0..256u16 {
        let page = page as u8;
        store.put_page(0, page, &page_of(words, page))?;
    }
    Ok(store)
}

/// The words of a page of all these words.
fn page_of(words: &[u64], page: u8) -> [u64; 64]
    requires { length words.now ≡ WORDS }
    ensures { result ≡ alone.page_of words.now page }
{
    let first = usize::from(page) * 64;
    let mut copy = [0; 64];
    copy.copy_from_slice(&words[first..first + 64]);
    copy
}
