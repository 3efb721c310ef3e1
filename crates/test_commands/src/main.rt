//! Whole commands for which something has to stand within the process: devices of which a call fails, a source that gives one byte a call and a
//! sink that takes one, a sink with little room, memory that ends, a gate that watches the workers, and reports, of which more is looked at than is
//! written. All other commands are played over the built program, by `bin/test-commands`.
//!
//! Each file `NAME.cases` of the current folder is a list of cases (`case`): the words of a command, what its source and its shelf hold,
//! which of their calls fail, and then the status, the line of its fault, the output, the files that it leaves and its report. `fluke_top`
//! of `fk_run` is called with each (`call`), over the source, the sink and the shelf that `fk_causes` has in memory, and with no responders. A new case is a new
//! file, or some more lines of one. The source of a case of a file `slow-NAME.cases` gives one byte a call, and its sink takes one (`pieces`).
//!
//! Of the cases of a file `short-NAME.cases` nothing may fail. Each is called once with ample memory, and has to end as it says. Then
//! the program takes all memory that can be had but for a reserve of small pieces, gives these back a few at a time, and calls
//! the case after each time (`scarce`). Until that ends as the case says, it may only end for want of memory: with that status,
//! nothing written, and each file as it was or as the case wants it. A case that never ran short differs too. It counts as one call.
//! What is taken isn't touched, so it costs address space and some 100 MB for the books that the system keeps of it. Where
//! taking it would starve others, the program says so on standard error, and has called each case with ample memory alone. These files come first,
//! while pieces of memory that are given back still lie in one row. A build that keeps books of each byte, as that of `rt try`, would need far more:
//! hand it no such file.
//!
//! The program names each case that differs, and ends with a line of counts; it fails where a case
//! differs, and where a file has none. It promises no more than that it always ends.
#![tactic(auto)]

ghost use Rattle.std.specs.Prelude.{◌≡◌};
ghost use Rattle.fk_responders.specs.Notes.{note_of, watches};
ghost use Rattle.fk_responders.specs.declared.note.Watch.TheVariants as sights;

mod call;
mod case;
mod pieces;
mod scarce;
mod watch;

use crate::call::{Ended, call};
use crate::case::{Case, add};
use crate::scarce::starve;
use anyhow::{bail, ensure};
use fk_responders::{Note, Observer, Table, Watch, watches};
use std::fs;
use std::rt::Files;
use std::sync::Wait;
use std::thread::Threads;

/// What the calls of all files have in common, the case that is read and the content beneath its last heading, how many calls were made, how many of
/// them differ from what their case says, and for how many memory was to be scarce and wasn't.
#[derive(Drop)]
struct Play {
    table: Table,
    case: Case,
    content: Vec<u8>,
    calls: u32,
    differ: u32,
    ample: u32,
}

/// Makes the call of the case that was read, and says whether it differs.
fn try_case<R: Files + Print + AllocGlobal + Threads + Wait + Sync>(
    rt: &R,
    play: &mut Play,
    is_short: bool,
) {
    let ended = if is_short {
        starve(rt, &play.table, &play.case)
    } else {
        call(rt, &play.table, &play.case)
    };
    play.calls = play.calls.saturating_add(1);
    match ended {
        Ok(Ended::Whole) => {}
        Ok(Ended::Ample) => play.ample = play.ample.saturating_add(1),
        _ => {
            play.differ = play.differ.saturating_add(1);
            let name = play.case.name.as_str();
            // Who can't write this can't write the counts, and ends with that.
            let _ = println!(rt; "case {name} differs");
        }
    }
}

/// Makes the calls of the cases in the text of a file, which ends with a line where another would begin. A heading is taken once its content is read.
fn try_text<R: Files + Print + AllocGlobal + Threads + Wait + Sync>(
    rt: &R,
    play: &mut Play,
    path: &str,
    text: &str,
    is_short: bool,
) -> anyhow::Result<()> {
    let alloc = rt.alloc();
    let before = play.calls;
    // A case without a name, which is not called.
    let mut heading = "again ";
    for line in text.lines() {
        if line.is_empty() || line.starts_with('#') {
            continue;
        }
        match add(alloc, &mut play.content, line) {
            Some(true) => continue,
            Some(false) => {}
            None => bail!("{path}: {line}"),
        }
        if play.case.take(alloc, heading, &play.content).is_none() {
            bail!("{path}: {heading}");
        }
        if !play.case.name.is_empty() && (line.starts_with("case ") || line.starts_with("again ")) {
            try_case(rt, play, is_short);
        }
        heading = line;
        play.content.clear();
    }
    ensure!(play.calls > before, "{path}: no case was found");
    Ok(())
}

/// Makes the calls of all cases of a file.
fn try_file<R: Files + Print + AllocGlobal + Threads + Wait + Sync>(
    rt: &R,
    play: &mut Play,
    path: &str,
    is_short: bool,
) -> anyhow::Result<()> {
    let mut text = fs::read_to_string(rt, path)?;
    text.push_str("\ncase \n")?;
    play.case.is_slow = path.starts_with("slow-");
    try_text(rt, play, path, text.as_str(), is_short)
}

/// Makes the calls of the files of cases in the folder for which memory is scarce, or of all others.
fn try_files<R: Files + Print + AllocGlobal + Clone + Drop + Threads + Wait + Sync>(
    rt: &R,
    play: &mut Play,
    is_short: bool,
) -> anyhow::Result<()> {
    for entry in fs::read_dir(rt, ".")? {
        let entry = entry?;
        let path = entry.file_name();
        if path.ends_with(".cases") && path.starts_with("short-") == is_short {
            try_file(rt, play, path, is_short)?;
        }
    }
    Ok(())
}

/// Makes the calls of all files: first those for which memory is scarce, while what is given back in small pieces still lies in one row.
fn try_all<R: Files + Print + Eprint + AllocGlobal + Clone + Drop + Threads + Wait + Sync>(
    rt: &R,
    play: &mut Play,
) -> anyhow::Result<()> {
    try_files(rt, play, true)?;
    try_files(rt, play, false)?;
    let Play {
        calls,
        differ,
        ample,
        ..
    } = &*play;
    if *ample > 0 {
        eprintln!(rt; "{ample} cases were called with ample memory alone")?;
    }
    println!(rt; "{calls} calls, {differ} differ")?;
    ensure!(
        *calls > 0 && *differ == 0,
        "of {calls} calls {differ} differ"
    );
    Ok(())
}

fn main(rt: HostRuntime) -> anyhow::Result<()> {
    let alloc = rt.alloc();
    let mut observers = Vec::new(alloc);
    observers.push(Observer::new(
        Watch::All,
        Box::new(
            alloc,
            |note: &Note| -> bool
                ensures { result ≡ watches sights.All (note_of note.now) }
            { watches(Watch::All, note) },
        )?,
    ))?;
    observers.push(Observer::new(
        Watch::Replies,
        Box::new(
            alloc,
            |note: &Note| -> bool
                ensures { result ≡ watches sights.Replies (note_of note.now) }
            { watches(Watch::Replies, note) },
        )?,
    ))?;
    observers.push(Observer::new(
        Watch::Said,
        Box::new(
            alloc,
            |note: &Note| -> bool
                ensures { result ≡ watches sights.Said (note_of note.now) }
            { watches(Watch::Said, note) },
        )?,
    ))?;
    let mut play = Play {
        table: Table {
            list: Vec::new(alloc),
            observers,
        },
        case: Case::none(alloc),
        content: Vec::new(alloc),
        calls: 0,
        differ: 0,
        ample: 0,
    };
    try_all(&rt, &mut play)
}
