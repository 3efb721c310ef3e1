//! Changes of a thread, or of a mutex, where it stands.
ghost use Rattle.std.specs.Prelude.{◌≡◌, ◌+◌, min, option_map};
ghost use Rattle.fk_model.specs.declared.limits.TheConstants.{MOST_MOVED};
ghost use Rattle.fk_store_cells.specs.Objects.Threads as threads;

use fk_model::{Body, Fault, Mode, Talk, Turn};

/// A thread has these registers, this counter and this mode.
pub fn proceed(body: &mut Body, registers: &[u64; 16], counter: u64, mode: Mode)
    ensures { body.new ≡ threads.on_thread (threads.going registers.now counter mode) body.old }
{
    if let Body::Thread(thread) = body {
        thread.regs = *registers;
        thread.pc = counter;
        thread.mode = mode;
    }
}

/// A thread's talk has moved so many words more.
pub fn count(body: &mut Body, words: u8)
    ensures { body.new ≡ threads.on_thread (threads.counting words) body.old }
{
    if let Body::Thread(thread) = body {
        count_talk(&mut thread.talk, words);
    }
}

/// It is the turn of a side of a thread's talk, in which no words have been moved.
pub fn pass(body: &mut Body, turn: Turn)
    ensures { body.new ≡ threads.on_thread (threads.passing turn) body.old }
{
    if let Body::Thread(thread) = body {
        pass_talk(&mut thread.talk, turn);
    }
}

/// A thread is stopped so many times.
pub fn stop(body: &mut Body, stops: u16)
    ensures { body.new ≡ threads.on_thread (threads.stopping stops) body.old }
{
    if let Body::Thread(thread) = body {
        thread.stops = stops;
    }
}

/// A thread has this fault, or none.
pub fn set_fault(body: &mut Body, fault: Option<Fault>)
    ensures { body.new ≡ threads.on_thread (threads.faulting fault) body.old }
{
    if let Body::Thread(thread) = body {
        thread.fault = fault;
    }
}

/// A mutex is locked or unlocked.
pub fn lock(body: &mut Body, to: bool)
    ensures { body.new ≡ threads.on_mutex to body.old }
{
    if let Body::Mutex { locked } = body {
        *locked = to;
    }
}

fn count_talk(talk: &mut Option<Talk>, words: u8)
    ensures { talk.new ≡ option_map (threads.counted words) talk.old }
{
    if let Some(talk) = talk {
        talk.moved = more(talk.moved, words);
    }
}

fn pass_talk(talk: &mut Option<Talk>, turn: Turn)
    ensures { talk.new ≡ option_map (threads.passed turn) talk.old }
{
    if let Some(talk) = talk {
        talk.turn = turn;
        talk.moved = 0;
    }
}

/// So many words more, counted up to the most that are counted.
fn more(moved: u16, words: u8) -> u16
    ensures { result ≡ min MOST_MOVED (moved + words) }
{
    let sum = u32::from(moved) + u32::from(words);
    if sum > 65535 { 65535 } else { sum as u16 }
}
