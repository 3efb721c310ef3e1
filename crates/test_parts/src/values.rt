//! Single values that were worked apart from what makes them.
//!
//! `does COUNTER WORD`: what a word asks for at a counter, where the registers hold the values below: 1, a register and what it is then; 2
//! and the next counter; 3, a register and the address of its load; 4, the address of a store and its value; 5 and the code of a
//! halt; 6 for a call. `fields WORD`: the fields of its instruction, and its word again. `line TEXT`: the move that the first line of
//! a text spells, where `|` stands for a line feed: 0 and a name or 1 and two, how many bytes are left behind, and the first of them.
//! `trace MOVES`: the length and the numbers of the trace of moves, each four numbers; a move whose last is 256 picks nobody.
//!
//! `source FAILS giving BYTES`, `sink FAILS`, `shelf FAILS giving DOINGS`: in memory; the calls of these numbers fail, which is 99. A source is
//! read two bytes at a time, five times: how many bytes come, and they. To a sink with room for five, the two bytes 1 and 2 are written six
//! times, and then nothing: how many it takes; and then all that it has. On a shelf 0 gets a file, 100 another one, 1 to 9 put this byte into the
//! first, 101 to 109 into the other: 1 for a put, 0 for no file, 2 and its byte for one.
use crate::line::Line;
use crate::numbers::Numbers;
use fk_causes::{MemShelf, MemSink, MemSource, NoMemory, Shelf, Sink, Source};
use fk_isa::{Act, act_of, decode, encode};
use fk_model::Move;
use fk_trace_text::{first_move, trace_text};
use std::alloc::{AllocError, Global};

/// The verbs, in the order in which `step` has their numbers.
pub const VERBS: &str = "does fields line trace source sink shelf";

/// What the registers hold.
const REGISTERS: [u64; 16] = [
    0,
    1,
    2,
    3,
    10,
    63,
    64,
    0x8000_0000_0000_0000,
    0xffff_ffff_ffff_fffe,
    0xffff_ffff_ffff_ffff,
    0xff00_ff00,
    0x0ff0_0ff0,
    0,
    0,
    0,
    0,
];

/// What a word asks for.
fn say_act(counter: u64, word: u64, found: &mut Numbers) {
    let Some(instr) = decode(word) else {
        return;
    };
    match act_of(instr, &REGISTERS, counter) {
        Act::Put { register, value } => found.say_all(&[1, u64::from(register), value]),
        Act::Jump { counter } => found.say_all(&[2, counter]),
        Act::Load { register, address } => found.say_all(&[3, u64::from(register), address]),
        Act::Store { address, value } => found.say_all(&[4, address, value]),
        Act::Halt { code } => found.say_all(&[5, u64::from(code)]),
        Act::Call => found.say(6),
    }
}

/// The fields of a word's instruction, and the word of these.
fn say_fields(word: u64, found: &mut Numbers) {
    if let Some(instr) = decode(word) {
        found.say(u64::from(instr.op));
        found.say(u64::from(instr.a));
        found.say(u64::from(instr.b));
        found.say(u64::from(instr.c));
        found.say(u64::from(instr.n));
        found.say(encode(instr));
    }
}

/// The move of the first line, and what is behind that.
fn say_line(alloc: Global, text: &str, found: &mut Numbers) -> Result<(), AllocError> {
    let text = text.replace(alloc, '|', "\n")?;
    match first_move(text.as_str().as_bytes()) {
        Some((moved, rest)) => {
            found.say(u64::from(moved.pick.is_some()));
            found.say_name(Some(moved.who));
            found.say_name(moved.pick);
            found.say(rest.len() as u64);
            if let Some(first) = rest.first() {
                found.say(u64::from(*first));
            }
        }
        None => found.fail(),
    }
    Ok(())
}

/// The trace of three moves.
fn say_trace(alloc: Global, numbers: &Numbers, found: &mut Numbers) -> Result<(), AllocError> {
    let mut moves = Vec::new(alloc);
    for place in 0..3usize {
        match numbers.name_at(4 * place) {
            Some(who) => moves.push(Move {
                who,
                pick: numbers.name_at(4 * place + 2),
            })?,
            None => found.fail(),
        }
    }
    let text = trace_text(alloc, moves.as_slice())?;
    found.say(text.len() as u64);
    found.take_text(text.as_str());
    Ok(())
}

/// The reads of a source in memory.
fn say_source(alloc: Global, line: &Line, found: &mut Numbers) -> Result<(), AllocError> {
    let mut bytes = Vec::new(alloc);
    for number in line.given.list() {
        bytes.push((*number % 256) as u8)?;
    }
    let mut source = MemSource::new(bytes, line.subject.list().to_vec(alloc)?);
    for _ in 0..5u8 {
        let mut room = [0; 2];
        match source.read(&mut room) {
            Ok(count) => {
                found.say(count as u64);
                for byte in &room[..count] {
                    found.say(u64::from(*byte));
                }
            }
            Err(_) => found.say(99),
        }
    }
    Ok(())
}

/// The writes of a sink in memory.
fn say_sink(alloc: Global, fails: &[u64], found: &mut Numbers) -> Result<(), NoMemory> {
    let mut sink = MemSink::new(alloc, 5, fails.to_vec(alloc)?)?;
    let both = [1u8, 2u8];
    for turn in 0..7u8 {
        let length = if turn < 6 { 2 } else { 0 };
        match sink.write(&both[..length]) {
            Ok(count) => found.say(count as u64),
            Err(_) => found.say(99),
        }
    }
    for byte in sink.bytes() {
        found.say(u64::from(*byte));
    }
    Ok(())
}

/// The puts and gets of a shelf in memory.
fn say_shelf(alloc: Global, line: &Line, found: &mut Numbers) -> Result<(), AllocError> {
    let mut shelf = MemShelf::new(line.subject.list().to_vec(alloc)?);
    for doing in line.given.list() {
        let name = if *doing < 100 { "a" } else { "b" };
        let byte = (*doing % 100) as u8;
        if byte > 0 {
            let put = shelf.put(name, &[byte]).is_ok();
            found.say(if put { 1 } else { 99 });
            continue;
        }
        match shelf.get(name) {
            Ok(Some(bytes)) => {
                found.say(2);
                for byte in &bytes {
                    found.say(u64::from(*byte));
                }
            }
            Ok(None) => found.say(0),
            Err(_) => found.say(99),
        }
    }
    Ok(())
}

/// Says what a line asks for, by the number of its verb.
pub fn step(alloc: Global, verb: usize, line: &Line, found: &mut Numbers) {
    let first = line.subject.at(0);
    let done = match verb {
        0 => {
            say_act(first, line.subject.at(1), found);
            true
        }
        1 => {
            say_fields(first, found);
            true
        }
        2 => say_line(alloc, line.text, found).is_ok(),
        3 => say_trace(alloc, &line.subject, found).is_ok(),
        4 => say_source(alloc, line, found).is_ok(),
        5 => say_sink(alloc, line.subject.list(), found).is_ok(),
        6 => say_shelf(alloc, line, found).is_ok(),
        _ => false,
    };
    if !done {
        found.fail();
    }
}
