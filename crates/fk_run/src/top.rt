//! The top call: the words of the command line, from the source and the shelf to the sink.
ghost use Rattle.std.specs.Prelude.{◌≡◌, Some, None, Err, IsSome, OnOk, OnErr, IfErr, map, string_bytes, true, false};
ghost use Rattle.std.specs.Bool.{OnTrue, OnFalse};
ghost use Rattle.std.specs.Io.KnownBytes.{Appends, IsAtEnd, Keeps};
ghost use Rattle.fk_causes.specs.Causes.{AppendsPrefix, Rose, StandsUnless};
ghost use Rattle.fk_causes.specs.Shelf.{is_failed};
ghost use Rattle.fk_causes.specs.declared.shelf.ShelfFail.TheVariants as fails;
ghost use Rattle.fk_commands.specs.Prepared.{ComesTo, IsRefusal};
ghost use Rattle.fk_commands.specs.Status.{progress_of, Finished, was_cut_short, has_written_nothing, may_report, has_put_all, has_put_none};
ghost use Rattle.fk_commands.specs.Status.{is_read_fault, is_write_fault, is_shelf_fault};
ghost use Rattle.fk_commands.specs.Tables.{Rules, rules_of};
ghost use Rattle.fk_puts.specs.Puts.{HasPut, HasPutSome, KeepsFiles};
ghost use Rattle.fk_run.specs.Again.{PlaysAgain};
ghost use Rattle.fk_run.specs.Made.{MadeComesTo, has_extra, outcome_of};
ghost use Rattle.fk_run.specs.Theorem.{Theorem, outside};
ghost use Rattle.fk_run.specs.Top.{IsDue, GetsToShelf, has_read_all};
ghost use Rattle.fk_words.specs.Commands.{command_of, leaves, reads_source, uses_shelf, is_shared, seen, HasCount};

use crate::made::Made;
use crate::page_command::page_command;
use crate::source_text::source_text;
use fk_causes::{Failed, Gate, Shelf, ShelfFail, Sink, Source, write_all};
use fk_commands::check::check;
use fk_commands::exec::exec;
use fk_commands::show::show;
use fk_commands::{Outcome, Prepared, Report, Status};
use fk_plays::play::play;
use fk_plays::record_command::record_command;
use fk_plays::replay_command::replay_command;
use fk_plays::run::run;
use fk_plays::soak::soak;
use fk_puts::put_files;
use fk_responders::Table;
use fk_words::{Command, command_of, shared_command};
use std::alloc::Global;
use std::sync::Wait;
use std::thread::Threads;

/// Does all of a command that no workers share, and that comes to nothing besides a report, but the puts and the writing.
///
/// # Errors
///
/// Why there is nothing to write.
fn prepare_alone<R: Source, H: Shelf>(
    alloc: Global,
    command: Command<'_>,
    table: &Table,
    source: &mut R,
    shelf: &mut H,
) -> Result<Prepared, Status>
    requires alone { is_shared (Some (seen command)) ≡ false }
    requires plain { has_extra (seen command) ≡ false }
    ensures comes { ComesTo (IsDue (rules_of table.now) (Some (seen command.entry)) (R.left source.old) (H.files shelf.old)) result }
    ensures refusal { IfErr result (IsRefusal (Rose (R.faults source.old) (R.faults source.new))
        (Rose (H.failed_gets shelf.old) (H.failed_gets shelf.new)
        × GetsToShelf (rules_of table.now) (Some (seen command.entry)) (R.left source.old))) }
    ensures kept_reads { StandsUnless is_read_fault (R.faults source.old) (R.faults source.new) result }
    ensures kept_gets { StandsUnless is_shelf_fault (H.failed_gets shelf.old) (H.failed_gets shelf.new) result }
    ensures all_read { OnOk result (OnTrue (reads_source (Some (seen command.entry))) (IsAtEnd (R.left source.new))) }
    ensures all_read_before { IfErr result (λ status. OnTrue (has_read_all (Some (seen command.entry)) status) (IsAtEnd (R.left source.new))) }
    ensures source { OnFalse (reads_source (Some (seen command.entry))) (source.new ≡ source.old) }
    ensures shelf { OnFalse (uses_shelf (Some (seen command.entry))) (shelf.new ≡ shelf.old) }
    ensures same_files { H.files shelf.new ≡ H.files shelf.old }
    ensures same_puts { H.failed_puts shelf.new ≡ H.failed_puts shelf.old }
{
    match command {
        Command::Exec => exec(alloc, &source_text(alloc, source)?),
        Command::Check => check(alloc, table, &source_text(alloc, source)?),
        Command::Play(name) => play(alloc, table, name, &source_text(alloc, source)?, shelf),
        Command::Show(name) => show(alloc, name, shelf),
        Command::Record(_, watch) => {
            record_command(alloc, table, watch, &source_text(alloc, source)?, shelf)
        }
        Command::Replay(name) => {
            replay_command(alloc, table, name, &source_text(alloc, source)?, shelf)
        }
        Command::Page(..) => unreachable!(),
        Command::Run(_) => unreachable!(),
        Command::Soak(_) => unreachable!(),
    }
}

/// Does all of a command that no workers share but the puts and the writing.
///
/// # Errors
///
/// Why there is nothing to write.
fn make_alone<R: Source, H: Shelf>(
    alloc: Global,
    command: Command<'_>,
    table: &Table,
    source: &mut R,
    shelf: &mut H,
) -> Result<Made, Status>
    requires alone { is_shared (Some (seen command)) ≡ false }
    requires count { HasCount (seen command) }
    ensures comes { MadeComesTo (IsDue (rules_of table.now) (Some (seen command.entry)) (R.left source.old) (H.files shelf.old)) result }
    ensures refusal { IfErr result (IsRefusal (Rose (R.faults source.old) (R.faults source.new))
        (Rose (H.failed_gets shelf.old) (H.failed_gets shelf.new)
        × GetsToShelf (rules_of table.now) (Some (seen command.entry)) (R.left source.old))) }
    ensures kept_reads { StandsUnless is_read_fault (R.faults source.old) (R.faults source.new) result }
    ensures kept_gets { StandsUnless is_shelf_fault (H.failed_gets shelf.old) (H.failed_gets shelf.new) result }
    ensures all_read { OnOk result (OnTrue (reads_source (Some (seen command.entry))) (IsAtEnd (R.left source.new))) }
    ensures all_read_before { IfErr result (λ status. OnTrue (has_read_all (Some (seen command.entry)) status) (IsAtEnd (R.left source.new))) }
    ensures source { OnFalse (reads_source (Some (seen command.entry))) (source.new ≡ source.old) }
    ensures shelf { OnFalse (uses_shelf (Some (seen command.entry))) (shelf.new ≡ shelf.old) }
    ensures same_files { H.files shelf.new ≡ H.files shelf.old }
    ensures same_puts { H.failed_puts shelf.new ≡ H.failed_puts shelf.old }
{
    match command {
        Command::Page(slot, room) => {
            let (prepared, extra) = page_command(
                alloc,
                table,
                slot,
                room,
                &source_text(alloc, source)?,
            )?;
            Ok(Made {
                prepared,
                extra: Some(extra),
            })
        }
        _ => {
            let prepared = prepare_alone(alloc, command, table, source, shelf)?;
            Ok(Made {
                prepared,
                extra: None,
            })
        }
    }
}

/// Does all of a command that workers share but the puts and the writing.
///
/// # Errors
///
/// Why there is nothing to write.
fn prepare_shared<T: Threads + Wait + Sync, R: Source, H: Shelf, G: Gate + Sync>(
    rt: &T,
    alloc: Global,
    command: Command<'_>,
    table: &Table,
    source: &mut R,
    shelf: &mut H,
    gate: &G,
) -> Result<Prepared, Status>
    requires shared { is_shared (Some (seen command)) ≡ true }
    requires count { HasCount (seen command) }
    ensures comes { ComesTo (IsDue (rules_of table.now) (Some (seen command.entry)) (R.left source.old) (H.files shelf.old)) result }
    ensures refusal { IfErr result (IsRefusal (Rose (R.faults source.old) (R.faults source.new))
        (Rose (H.failed_gets shelf.old) (H.failed_gets shelf.new)
        × GetsToShelf (rules_of table.now) (Some (seen command.entry)) (R.left source.old))) }
    ensures kept_reads { StandsUnless is_read_fault (R.faults source.old) (R.faults source.new) result }
    ensures kept_gets { StandsUnless is_shelf_fault (H.failed_gets shelf.old) (H.failed_gets shelf.new) result }
    ensures all_read { OnOk result (OnTrue (reads_source (Some (seen command.entry))) (IsAtEnd (R.left source.new))) }
    ensures all_read_before { IfErr result (λ status. OnTrue (has_read_all (Some (seen command.entry)) status) (IsAtEnd (R.left source.new))) }
    ensures source { OnFalse (reads_source (Some (seen command.entry))) (source.new ≡ source.old) }
    ensures shelf { OnFalse (uses_shelf (Some (seen command.entry))) (shelf.new ≡ shelf.old) }
    ensures same_files { H.files shelf.new ≡ H.files shelf.old }
    ensures same_puts { H.failed_puts shelf.new ≡ H.failed_puts shelf.old }
{
    match command {
        Command::Run(_) => run(rt, alloc, table, &source_text(alloc, source)?, shelf, gate),
        Command::Soak(count) => soak(rt, alloc, table, count, gate),
        Command::Exec => unreachable!(),
        Command::Check => unreachable!(),
        Command::Play(_) => unreachable!(),
        Command::Show(_) => unreachable!(),
        Command::Record(..) => unreachable!(),
        Command::Replay(_) => unreachable!(),
        Command::Page(..) => unreachable!(),
    }
}

/// Puts what a command puts of its run: what `run --trace NAME` leaves plays again.
///
/// # Errors
///
/// `Failed` where a put failed, and `NoMemory` where there is no memory for a file.
fn put_all<H: Shelf>(
    alloc: Global,
    command: Command<'_>,
    report: &Option<Report>,
    shelf: &mut H,
) -> Result<(), ShelfFail>
    ensures put { OnOk result (HasPut (leaves (Some (seen command.entry))) report.now (H.files shelf.old) (H.files shelf.new)) }
    ensures some { OnErr result (HasPutSome (leaves (Some (seen command.entry))) report.now (H.files shelf.old) (H.files shelf.new)) }
    ensures others { KeepsFiles (leaves (Some (seen command.entry))) (H.files shelf.old) (H.files shelf.new) }
    ensures cause { result ≡ Err fails.Failed → IsSome report.now × Rose (H.failed_puts shelf.old) (H.failed_puts shelf.new) }
    ensures kept { StandsUnless is_failed (H.failed_puts shelf.old) (H.failed_puts shelf.new) result }
    ensures same_gets { H.failed_gets shelf.new ≡ H.failed_gets shelf.old }
    ensures shelf { OnFalse (uses_shelf (Some (seen command.entry))) (shelf.new ≡ shelf.old) }
    ensures again { (rules : Rules) → OnOk result (PlaysAgain rules (Some (seen command.entry)) (H.files shelf.new) report.now) }
{
    put_files(alloc, command, report, shelf)
}

/// Puts what a command puts of its run, and then writes its output.
fn finish<W: Sink, H: Shelf>(
    alloc: Global,
    command: Command<'_>,
    made: Made,
    sink: &mut W,
    shelf: &mut H,
) -> Outcome
    requires finished { progress_of made.prepared.status ≡ Finished }
    ensures done { OnFalse (was_cut_short result.status) (result ≡ outcome_of made) }
    ensures written { OnFalse (was_cut_short result.status) (Appends (W.written sink.old) (W.written sink.new) (string_bytes made.prepared.output)) }
    ensures status { OnTrue (has_put_none result.status) ⊥ }
    ensures shelf_fault { result.status ≡ Status.ShelfFault → (result.report ≡ made.prepared.report) × IsSome result.report
        × Rose (H.failed_puts shelf.old) (H.failed_puts shelf.new) × (result.extra ≡ made.extra) }
    ensures write_fault { result.status ≡ Status.WriteFault → (result.report ≡ made.prepared.report) × Rose (W.faults sink.old) (W.faults sink.new)
        × AppendsPrefix (W.written sink.old) (W.written sink.new) (string_bytes made.prepared.output) × (result.extra ≡ made.extra) }
    ensures kept_writes { OnFalse (is_write_fault result.status) (W.faults sink.new ≡ W.faults sink.old) }
    ensures kept_puts { OnFalse (is_shelf_fault result.status) (H.failed_puts shelf.new ≡ H.failed_puts shelf.old) }
    ensures puts_of_none { result.report ≡ None → H.failed_puts shelf.new ≡ H.failed_puts shelf.old }
    ensures same_gets { H.failed_gets shelf.new ≡ H.failed_gets shelf.old }
    ensures nothing { OnTrue (has_written_nothing result.status) (Keeps (W.written sink.old) (W.written sink.new)) }
    ensures no_report { OnFalse (may_report result.status) (result.report ≡ None) }
    ensures no_extra { OnFalse (may_report result.status) (result.extra ≡ None) }
    ensures put { OnTrue (has_put_all result.status) (HasPut (leaves (Some (seen command.entry))) result.report (H.files shelf.old) (H.files shelf.new)) }
    ensures some { result.status ≡ Status.ShelfFault → HasPutSome (leaves (Some (seen command.entry))) result.report (H.files shelf.old) (H.files shelf.new) }
    ensures again { (rules : Rules) → OnTrue (has_put_all result.status) (PlaysAgain rules (Some (seen command.entry)) (H.files shelf.new) result.report) }
    ensures files { KeepsFiles (leaves (Some (seen command.entry))) (H.files shelf.old) (H.files shelf.new) }
    ensures shelf { OnFalse (uses_shelf (Some (seen command.entry))) (shelf.new ≡ shelf.old) }
{
    let Made { prepared, extra } = made;
    let Prepared {
        status,
        report,
        output,
    } = prepared;
    match put_all(alloc, command, &report, shelf) {
        Ok(()) => {}
        Err(ShelfFail::Failed) => {
            return Outcome {
                status: Status::ShelfFault,
                report,
                extra,
            };
        }
        Err(ShelfFail::NoMemory) => {
            return Outcome {
                status: Status::NoMemory,
                report: None,
                extra: None,
            };
        }
    }
    match write_all(sink, output.as_bytes()) {
        Ok(()) => Outcome {
            status,
            report,
            extra,
        },
        Err(Failed) => Outcome {
            status: Status::WriteFault,
            report,
            extra,
        },
    }
}

/// Does the command that the words are where no workers share it: all but `run`, `run --trace NAME` and `soak N`. It takes no handle, and
/// so it always returns; what comes of it is what `fluke_top` says (`specs/Theorem.antt`).
pub fn fluke_alone<R: Source, W: Sink, H: Shelf>(
    alloc: Global,
    words: &[String],
    table: &Table,
    source: &mut R,
    sink: &mut W,
    shelf: &mut H,
) -> Outcome
    requires alone { is_shared (command_of (map string_bytes words.now)) ≡ false }
    ensures theorem { Theorem (rules_of table.now) (command_of (map string_bytes words.now))
        (outside R.left R.faults W.written W.faults H.files H.failed_gets H.failed_puts source.old sink.old shelf.old)
        (outside R.left R.faults W.written W.faults H.files H.failed_gets H.failed_puts source.new sink.new shelf.new) result }
{
    let Some(command) = command_of(words) else {
        return Outcome {
            status: Status::Usage,
            report: None,
            extra: None,
        };
    };
    match make_alone(alloc, command, table, source, shelf) {
        Ok(made) => finish(alloc, command, made, sink, shelf),
        Err(status) => Outcome {
            status,
            report: None,
            extra: None,
        },
    }
}

/// Does the command that the words are, over the bytes of the source and the files of the shelf, and writes to the sink. Native servers
/// reply by the responders of the table.
///
/// `exec` assembles the source's text and runs it as one thread, with its words from address 0 on and zeros after them, for at most 100,000
/// instructions, and writes how that ended. `check` reads the source's scenario, and writes its counts. `run` reads the source's scenario,
/// runs it by itself, by as many workers as it says, until no move is ready or its budget is used, and writes the report of that run;
/// before it writes it puts on the shelf the images that its checkpoints have made, each as `NAME.img` of its name, in the order of the
/// jobs, and `run --trace NAME` then its trace, as `NAME.trc`: with that, and with the images that the run read, `play NAME` comes to the
/// same status, report and text. `play NAME` reads the source's scenario, makes the moves of the trace that lies on the shelf as
/// `NAME.trc`, and writes the report of that run. Both first read the images that the scenario's restores need of the shelf. `show NAME`
/// reads no source, and writes the counts of the image that lies on the shelf as `NAME.img`. `soak N` reads no source either: it runs the
/// scenario with N processes that `fk_gen` makes, and writes one line of it. NAME is 1 to 32 characters of `a` to `z`, `0` to `9` and `_`,
/// and N is 1 to 100. Each worker passes the gate before its turns.
///
/// `record NAME WATCH` does what `run --trace NAME` does, by one thread alone, and last puts the record of what the observer of that watch sees
/// at each native server that is no console, as `NAME.rec`. `replay NAME` does what `play NAME` does, with servers that give the replies of that
/// record. Where the observer has seen the replies it comes to the same status, report and text.
///
/// `page SLOT K` reads the source's scenario and runs it with a pager, the porter of the root: it takes every page of the subtree in that slot at first, and
/// gives one back where a thread misses it, so that K of them at most are home. It writes how many faults that took, how the run ended, and the last world's
/// consoles and threads. Up to the first move that looks at pages the run is one with every page home, without the pager's moves and the faults that it ends.
///
/// The status of the outcome says how the call ended. `Usage` comes exactly for words that are no command, and leaves the source, the
/// sink and the shelf as they were. Unless a read, a write, a get, a put or the memory failed, the outcome and the output are those
/// that the bytes of the source and the files of the shelf call for: where these are told, those that are told, and some that they may
/// have held where not. `ReadFault`, `WriteFault` and `ShelfFault` come only where that object's count of faults rose in this call:
/// `ShelfFault` of a get, of `play` and `replay` only once the scenario is accepted and of `run` and `record` once one is that needs an
/// image: there is no report, and no file has changed; that of a put, with the run's report, only once the run is made: what was to be
/// put before that is put, and no other file has changed but that one; `WriteFault` only once all is done but the writing. `NoMemory`
/// comes where there is no memory for the text, for what is made of it, or for the output.
///
/// Right input is answered: where the words are a command, its text or its scenario is accepted, each image and the trace that it needs are
/// there, spelled and legal, and no count of faults rises, the call ends with `Ok`, `JobRefused` or `Budget`, its whole output written and
/// all puts made, or with `NoMemory`.
///
/// The whole output is written after `Ok`, `JobRefused` and `Budget`, a prefix of it after `WriteFault`, and nothing otherwise. A run alone
/// changes files of the shelf, and of these only such as have the name of an image, and the trace and the record that it is to put. Which ones is said
/// above for each end but `NoMemory`, where any of these may have changed.
pub fn fluke_top<T: Threads + Wait + Sync, R: Source, W: Sink, H: Shelf, G: Gate + Sync>(
    rt: &T,
    alloc: Global,
    words: &[String],
    table: &Table,
    source: &mut R,
    sink: &mut W,
    shelf: &mut H,
    gate: &G,
) -> Outcome
    ensures theorem { Theorem (rules_of table.now) (command_of (map string_bytes words.now))
        (outside R.left R.faults W.written W.faults H.files H.failed_gets H.failed_puts source.old sink.old shelf.old)
        (outside R.left R.faults W.written W.faults H.files H.failed_gets H.failed_puts source.new sink.new shelf.new) result }
{
    let Some(command) = shared_command(words) else {
        return fluke_alone(alloc, words, table, source, sink, shelf);
    };
    match prepare_shared(rt, alloc, command, table, source, shelf, gate) {
        Ok(prepared) => {
            let made = Made {
                prepared,
                extra: None,
            };
            finish(alloc, command, made, sink, shelf)
        }
        Err(status) => Outcome {
            status,
            report: None,
            extra: None,
        },
    }
}
