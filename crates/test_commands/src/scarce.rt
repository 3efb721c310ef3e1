//! A case, called while memory is scarce.
use crate::call::{Ended, call};
use crate::case::Case;
use fk_causes::NoMemory;
use fk_responders::Table;
use std::alloc::Global;
use std::fs;
use std::rt::Files;
use std::sync::Wait;
use std::thread::Threads;

/// The size of the largest block that is asked for.
const LARGEST: usize = 1 << 46;

/// How often it is halved, down to a block of sixteen bytes.
const HALVINGS: u32 = 43;

/// How many blocks are held at most. Each costs some 12 KB for its head and for the system's books of it, so all cost
/// 240 MB. Blocks of half a machine's memory fill its address space where it has 16 GB.
const BLOCKS: usize = 20_000;

/// The pieces that are given back one by one, and the size of each.
const PIECES: usize = 20_000;

const PIECE: usize = 120;

/// Of the pieces that were given back, one in so many more is given at the next time.
const PARTS: usize = 1_000;

/// How much of the stack is touched before memory is taken: some times what a call needs.
const STACK: usize = 1 << 20;

/// How the system counts what is asked for and not touched: by `2` it keeps account of it for all processes together.
const COUNTING: &str = "/proc/sys/vm/overcommit_memory";

/// Whether the first touch of a block takes a large page.
const LARGE_PAGES: &str = "/sys/kernel/mm/transparent_hugepage/enabled";

/// Whether a file of the system has a word.
fn has_word<R: Files + AllocGlobal>(rt: &R, path: &str, word: &str) -> bool {
    match fs::read_to_string(rt, path) {
        Ok(text) => text.contains(word),
        Err(_) => false,
    }
}

/// Whether all memory may be taken here for a moment: else others would be refused theirs, or too much would be touched.
fn may_starve<R: Files + AllocGlobal>(rt: &R) -> bool {
    (has_word(rt, COUNTING, "0") || has_word(rt, COUNTING, "1"))
        && !has_word(rt, LARGE_PAGES, "[always]")
}

/// Touches the stack, and answers whether one of its bytes, at a place that isn't known before, is what all of them are set to. The system gives the
/// stack more pages as it grows. Once all memory is taken it has none to give, nor room for them beneath the stack, and
/// ends the program by a signal. It is a call of its own: within its caller's frame those bytes would lie above what a later call touches.
#[inline(never)]
fn has_stack(byte: u8, at: usize) -> bool {
    let bytes = [byte; STACK];
    bytes[at % STACK] == byte
}

/// Takes blocks of a size until one is refused, or as many are held as may be.
fn take(alloc: Global, size: usize, most: usize, blocks: &mut Vec<Vec<u8>>) {
    for _ in blocks.len()..most {
        let Ok(block) = Vec::with_capacity(alloc, size) else {
            return;
        };
        if blocks.push(block).is_err() {
            return;
        }
    }
}

/// Takes all memory that is left: small pieces first, then large blocks and ever smaller ones. Whether nothing is left for anybody.
fn take_all(alloc: Global, pieces: &mut Vec<Vec<u8>>, blocks: &mut Vec<Vec<u8>>) -> bool {
    take(alloc, PIECE, PIECES, pieces);
    for halvings in 0..HALVINGS {
        take(alloc, LARGEST >> halvings, BLOCKS, blocks);
    }
    blocks.len() < BLOCKS
}

/// Calls a case again and again, with a little more memory each time, until it doesn't end for want of it. It differs where it never did.
fn feed<R: Print + AllocGlobal + Threads + Wait + Sync>(
    rt: &R,
    table: &Table,
    case: &Case,
    pieces: &mut Vec<Vec<u8>>,
) -> Ended {
    let all = pieces.len();
    let mut ran_short = false;
    for _ in 0..all {
        let left = pieces.len();
        pieces.truncate(left.saturating_sub(1 + all.saturating_sub(left) / PARTS));
        match call(rt, table, case) {
            Ok(Ended::Short) => ran_short = true,
            Ok(ended) if ran_short => return ended,
            Ok(_) => return Ended::Otherwise,
            Err(NoMemory) => {}
        }
    }
    Ended::Short
}

/// Calls a case with ample memory and, where it ends as it should, while memory is scarce.
///
/// # Errors
///
/// For want of memory before any is taken.
pub fn starve<R: Files + Print + AllocGlobal + Threads + Wait + Sync>(
    rt: &R,
    table: &Table,
    case: &Case,
) -> Result<Ended, NoMemory> {
    match call(rt, table, case)? {
        Ended::Whole => {}
        ended => return Ok(ended),
    }
    if !may_starve(rt) || !has_stack(case.status, case.source.len()) {
        return Ok(Ended::Ample);
    }
    let alloc = rt.alloc();
    let mut blocks = Vec::with_capacity(alloc, BLOCKS)?;
    let mut pieces = Vec::with_capacity(alloc, PIECES)?;
    Ok(if take_all(alloc, &mut pieces, &mut blocks) {
        feed(rt, table, case, &mut pieces)
    } else {
        Ended::Ample
    })
}
