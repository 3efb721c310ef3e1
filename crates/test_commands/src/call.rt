//! A case, called.
use crate::case::{Case, FileMap};
use crate::pieces::{PieceSink, PieceSource};
use crate::watch::Watch;
use fk_causes::{MemShelf, MemSink, MemSource, NoMemory, Shelf};
use fk_responders::Table;
use fk_run::{End, Outcome, Report, fault_line, fluke_top};
use fk_trace_text::trace_text;
use std::alloc::Global;
use std::sync::Wait;
use std::thread::Threads;

/// The status for want of memory.
const NO_MEMORY: u8 = 14;

/// How a call ended.
#[derive(Clone, Copy)]
pub enum Ended {
    /// As its case says.
    Whole,
    /// For want of memory, with no more done than is due.
    Short,
    /// In another way.
    Otherwise,
    /// As its case says, with ample memory: there is more than can be taken, or others would starve.
    Ample,
}

/// A shelf with the files of a case on it. What fails is counted from the next call on.
fn shelf_of(alloc: Global, case: &Case) -> Result<MemShelf, NoMemory> {
    let mut shelf = MemShelf::new(case.fails_of(alloc, 2, case.files.len() as u64)?);
    for (name, bytes) in &case.files {
        if shelf.put(name.as_str(), bytes).is_err() {
            return Err(NoMemory);
        }
    }
    Ok(shelf)
}

/// The source of a case.
fn source_of(alloc: Global, case: &Case) -> Result<PieceSource, NoMemory> {
    let fails = case.fails_of(alloc, 0, 0)?;
    Ok(PieceSource {
        source: MemSource::new(case.source.clone()?, fails),
        is_slow: case.is_slow,
    })
}

/// The sink of a case.
fn sink_of(alloc: Global, case: &Case) -> Result<PieceSink, NoMemory> {
    Ok(PieceSink {
        sink: MemSink::new(alloc, case.room, case.fails_of(alloc, 1, 0)?)?,
        is_slow: case.is_slow,
    })
}

/// What a command is called over.
#[derive(Drop)]
struct Outside {
    source: PieceSource,
    sink: PieceSink,
    shelf: MemShelf,
}

/// What the command of a case is called over.
fn outside_of(alloc: Global, case: &Case) -> Result<Outside, NoMemory> {
    let source = source_of(alloc, case)?;
    let sink = sink_of(alloc, case)?;
    Ok(Outside {
        source,
        sink,
        shelf: shelf_of(alloc, case)?,
    })
}

/// Whether a report has these moves, as a trace, and then this end.
fn is_report(alloc: Global, report: &Report, wanted: &[u8]) -> Result<bool, NoMemory> {
    let end = match report.end {
        End::Halted => "end halted\n",
        End::Quiet => "end quiet\n",
        End::Budget => "end budget\n",
        End::Listed => "end listed\n",
    };
    let moves = report.history.list(alloc)?;
    let mut text = trace_text(alloc, moves.as_slice())?;
    text.push_str(end)?;
    Ok(text.as_str().as_bytes() == wanted)
}

/// Whether the report of a call is what its case says, and the workers whom the case holds were seen.
fn has_report(
    alloc: Global,
    case: &Case,
    report: &Option<Report>,
    watch: &Watch,
) -> Result<bool, NoMemory> {
    match report {
        Some(report) => Ok(
            watch.is_well(report.history.len())
                && (case.report.is_empty() || is_report(alloc, report, &case.report)?),
        ),
        None => Ok(case.report.is_empty() && case.holds == 0),
    }
}

/// Whether each file is as it was or as it is wanted, and none is gone.
fn are_in_order(case: &Case, files: &FileMap) -> bool {
    for (name, bytes) in files {
        if case.files.get(name) != Some(bytes) && case.after.get(name) != Some(bytes) {
            return false;
        }
    }
    files.len() >= case.files.len()
}

/// How a call has ended.
fn ending_of<R: Print>(
    rt: &R,
    alloc: Global,
    case: &Case,
    outcome: &Outcome,
    outside: &Outside,
    watch: &Watch,
) -> Result<Ended, NoMemory> {
    let status = outcome.status.number();
    let output = outside.sink.sink.bytes();
    let files = outside.shelf.files();
    let is_done = status == case.status && case.output.as_slice() == output && case.after == *files;
    if is_done
        && fault_line(alloc, &outcome.status)? == case.error
        && has_report(alloc, case, &outcome.report, watch)?
    {
        return Ok(Ended::Whole);
    }
    if status == NO_MEMORY && output.is_empty() && are_in_order(case, files) {
        return Ok(Ended::Short);
    }
    let text = str::from_utf8(output).unwrap_or("no text");
    // Who can't write this can't write the counts, and ends with that.
    let _ = println!(rt; "status {status}, output {text:?}");
    Ok(Ended::Otherwise)
}

/// The command of a case, called over these. So its caller is checked without the promises of `fluke_top`, which it doesn't need.
fn outcome_of<R: Threads + Wait + Sync>(
    rt: &R,
    alloc: Global,
    table: &Table,
    case: &Case,
    outside: &mut Outside,
    watch: &Watch,
) -> Outcome {
    fluke_top(
        rt,
        alloc,
        &case.words,
        table,
        &mut outside.source,
        &mut outside.sink,
        &mut outside.shelf,
        watch,
    )
}

/// Makes the call of a case.
///
/// # Errors
///
/// There is no memory for what the call is handed.
pub fn call<R: Print + AllocGlobal + Threads + Wait + Sync>(
    rt: &R,
    table: &Table,
    case: &Case,
) -> Result<Ended, NoMemory> {
    let alloc = rt.alloc();
    let mut outside = outside_of(alloc, case)?;
    let watch = Watch::new(case.holds);
    let outcome = outcome_of(rt, alloc, table, case, &mut outside, &watch);
    ending_of(rt, alloc, case, &outcome, &outside, &watch)
}
