//! What a run leaves on the shelf.
ghost use Rattle.std.specs.Prelude.{◌≡◌, ◌≤◌, ℕ, List, Some, None, Err, IfOk, IsSome, OnOk, OnErr, option_map, All};
ghost use Rattle.std.specs.Bool.{OnFalse};
ghost use Rattle.fk_causes.specs.Causes.{Rose, StandsUnless};
ghost use Rattle.fk_causes.specs.Shelf.{KeepsOthers, is_failed};
ghost use Rattle.fk_causes.specs.declared.shelf.ShelfFail.TheVariants as fails;
ghost use Rattle.fk_commands.specs.Files.{image_name, record_name, trace_name};
ghost use Rattle.fk_image.specs.Format.Spells.{SpellsImage};
ghost use Rattle.fk_puts.specs.Small.{AreSmall, IsSmall};
ghost use Rattle.fk_words.specs.Commands.{leaves, uses_shelf, seen};
ghost use Rattle.fk_puts.specs.Puts.{HasPut, HasPutSome, IsPut, KeepsButTrace, KeepsFiles, OpensEnd};
ghost use Rattle.fk_puts.specs.Puts.{PutsRecord, PutsRecorded, PutsSomeRecorded};
ghost use Rattle.fk_puts.specs.Puts.{PutImages, PutSomeImages, PutsEnd, PutsImage, PutsRun, PutsSome, PutsTrace, SavesImage};
ghost use Rattle.fk_trace_text.specs.Trace as traces;

use fk_causes::{Shelf, ShelfFail};
use fk_codec::write;
use fk_commands::Report;
use fk_finish::ValidImage;
use fk_model::{Move, Text};
use fk_report::{JobEnd, end_at};
use fk_trace_text::trace_text;
use fk_words::Command;
use std::alloc::Global;

/// Bytes that spell an image are read as it.
fn read_back(bytes: &[u8], image: &ValidImage)
    requires { SpellsImage bytes.now image.now }
    ensures { SavesImage bytes.now image.now }
{}

/// Puts an image under a name.
///
/// # Errors
///
/// `Failed` where the put failed, and `NoMemory` where there is no memory for its bytes.
#[tactic(auto, using(crate::proofs::Same::keeps_same))]
fn put_image<H: Shelf>(
    alloc: Global,
    name: &str,
    image: &ValidImage,
    shelf: &mut H,
) -> Result<(), ShelfFail>
    ensures put { OnOk result (PutsImage name.now image.now (H.files shelf.old) (H.files shelf.new)) }
    ensures others { KeepsOthers (H.files shelf.old) (H.files shelf.new) (image_name name.now) }
    ensures cause { result ≡ Err fails.Failed → Rose (H.failed_puts shelf.old) (H.failed_puts shelf.new) }
    ensures kept { StandsUnless is_failed (H.failed_puts shelf.old) (H.failed_puts shelf.new) result }
    ensures later { H.failed_puts shelf.old ≤ H.failed_puts shelf.new }
    ensures same_gets { H.failed_gets shelf.new ≡ H.failed_gets shelf.old }
{
    let file = format!(in alloc; "{name}.img")?;
    match write(alloc, image.get()) {
        Ok(bytes) => {
            read_back(&bytes, image);
            shelf.put(file.as_str(), &bytes)
        }
        Err(_) => Err(ShelfFail::NoMemory),
    }
}

/// Puts the image of a job under its name, where it has made one.
#[tactic(auto, using(crate::proofs::Same::keeps_same))]
fn put_end<H: Shelf>(
    alloc: Global,
    name: &Text,
    end: Option<&JobEnd>,
    shelf: &mut H,
) -> Result<(), ShelfFail>
    ensures put { OnOk result (PutsEnd name.now (option_map (λ e. e.now) end.entry) (H.files shelf.old) (H.files shelf.new)) }
    ensures others { OpensEnd name.now (option_map (λ e. e.now) end.entry) (H.files shelf.old) (H.files shelf.new) }
    ensures cause { result ≡ Err fails.Failed → Rose (H.failed_puts shelf.old) (H.failed_puts shelf.new) }
    ensures kept { StandsUnless is_failed (H.failed_puts shelf.old) (H.failed_puts shelf.new) result }
    ensures later { H.failed_puts shelf.old ≤ H.failed_puts shelf.new }
    ensures same_gets { H.failed_gets shelf.new ≡ H.failed_gets shelf.old }
{
    match end {
        Some(JobEnd::Checkpointed { image, .. }) => put_image(alloc, name.as_str(), image, shelf),
        Some(JobEnd::Foreign { .. }) => Ok(()),
        Some(JobEnd::Dead) => Ok(()),
        Some(JobEnd::Restored { .. }) => Ok(()),
        Some(JobEnd::NoImage) => Ok(()),
        Some(JobEnd::Occupied) => Ok(()),
        Some(JobEnd::NoPort { .. }) => Ok(()),
        None => Ok(()),
    }
}

/// Puts the images that jobs have made under these names, in the order of the jobs.
#[tactic(auto, using(crate::proofs::Same::opens_same))]
fn put_images<H: Shelf>(
    alloc: Global,
    names: &[Text],
    ends: &[Option<JobEnd>],
    shelf: &mut H,
) -> Result<(), ShelfFail>
    ensures put { OnOk result (PutImages ends.now 0 names.now (H.files shelf.old) (H.files shelf.new)) }
    ensures some { OnErr result (PutSomeImages ends.now 0 names.now (H.files shelf.old) (H.files shelf.new)) }
    ensures cause { result ≡ Err fails.Failed → Rose (H.failed_puts shelf.old) (H.failed_puts shelf.new) }
    ensures kept { StandsUnless is_failed (H.failed_puts shelf.old) (H.failed_puts shelf.new) result }
    ensures later { H.failed_puts shelf.old ≤ H.failed_puts shelf.new }
    ensures same_gets { H.failed_gets shelf.new ≡ H.failed_gets shelf.old }
{
    let mut place = 0usize;
    for name in names {
        let Some(next) = place.checked_add(1) else {
            return Err(ShelfFail::NoMemory);
        };
        put_end(alloc, name, end_at(ends, place), shelf)?;
        place = next;
    }
    Ok(())
}

/// The names in a move are as small as their types.
fn read_move(one: Move)
    ensures { traces.IsMove one }
{
    let _one = one;
}

/// The names in each move are, as its type says once it is read.
fn read_moves(moves: &[Move])
    ensures { All traces.IsMove moves.now }
{
    for one in moves {
        read_move(*one);
    }
}

/// Puts the trace of a run under a name.
///
/// # Errors
///
/// `Failed` where the put failed, and `NoMemory` where there is no memory for the trace.
#[tactic(auto, using(crate::proofs::Same::keeps_same))]
fn put_trace<H: Shelf>(
    alloc: Global,
    name: &str,
    report: &Report,
    shelf: &mut H,
) -> Result<(), ShelfFail>
    ensures put { OnOk result (IsPut (H.files shelf.old) (trace_name name.now) (traces.trace_text report.now.history) (H.files shelf.new)) }
    ensures others { KeepsOthers (H.files shelf.old) (H.files shelf.new) (trace_name name.now) }
    ensures cause { result ≡ Err fails.Failed → Rose (H.failed_puts shelf.old) (H.failed_puts shelf.new) }
    ensures kept { StandsUnless is_failed (H.failed_puts shelf.old) (H.failed_puts shelf.new) result }
    ensures same_gets { H.failed_gets shelf.new ≡ H.failed_gets shelf.old }
    ensures small { OnOk result (All traces.IsMove report.now.history) }
{
    let file = format!(in alloc; "{name}.trc")?;
    let Ok(moves) = report.history.list(alloc) else {
        return Err(ShelfFail::NoMemory);
    };
    read_moves(moves.as_slice());
    let trace = trace_text(alloc, moves.as_slice())?;
    shelf.put(file.as_str(), trace.as_bytes())
}

/// Puts the trace of a run, where it has a name.
fn put_named<H: Shelf>(
    alloc: Global,
    trace: Option<&str>,
    report: &Report,
    shelf: &mut H,
) -> Result<(), ShelfFail>
    ensures put { OnOk result (PutsTrace (option_map (λ name. name.now) trace.entry) report.now.history (H.files shelf.old) (H.files shelf.new)) }
    ensures others { KeepsButTrace (option_map (λ name. name.now) trace.entry) (H.files shelf.old) (H.files shelf.new) }
    ensures cause { result ≡ Err fails.Failed → Rose (H.failed_puts shelf.old) (H.failed_puts shelf.new) }
    ensures kept { StandsUnless is_failed (H.failed_puts shelf.old) (H.failed_puts shelf.new) result }
    ensures same_gets { H.failed_gets shelf.new ≡ H.failed_gets shelf.old }
    ensures small { OnOk result (IsSmall (option_map (λ name. name.now) trace.entry) report.now.history) }
{
    match trace {
        Some(name) => put_trace(alloc, name, report, shelf),
        None => Ok(()),
    }
}

/// Puts what a run leaves: the images that its jobs have made, and then its trace, where it has a name.
fn put_run<H: Shelf>(
    alloc: Global,
    trace: Option<&str>,
    report: &Report,
    shelf: &mut H,
) -> Result<(), ShelfFail>
    ensures put { OnOk result (PutsRun (option_map (λ name. name.now) trace.entry) report.now (H.files shelf.old) (H.files shelf.new)) }
    ensures some { OnErr result (PutsSome (option_map (λ name. name.now) trace.entry) report.now (H.files shelf.old) (H.files shelf.new)) }
    ensures cause { result ≡ Err fails.Failed → Rose (H.failed_puts shelf.old) (H.failed_puts shelf.new) }
    ensures kept { StandsUnless is_failed (H.failed_puts shelf.old) (H.failed_puts shelf.new) result }
    ensures same_gets { H.failed_gets shelf.new ≡ H.failed_gets shelf.old }
    ensures small { OnOk result (IsSmall (option_map (λ name. name.now) trace.entry) report.now.history) }
{
    put_images(
        alloc,
        report.images.as_slice(),
        report.jobs.as_slice(),
        shelf,
    )?;
    put_named(alloc, trace, report, shelf)
}

/// Puts the record of a run under a name, where it was recorded.
///
/// # Errors
///
/// `Failed` where the put failed, and `NoMemory` where there is no memory for the file's name.
#[tactic(auto, using(crate::proofs::Same::keeps_same))]
fn put_record<H: Shelf>(
    alloc: Global,
    name: &str,
    told: &Option<Text>,
    shelf: &mut H,
) -> Result<(), ShelfFail>
    ensures put { OnOk result (PutsRecord name.now told.now (H.files shelf.old) (H.files shelf.new)) }
    ensures others { KeepsOthers (H.files shelf.old) (H.files shelf.new) (record_name name.now) }
    ensures cause { result ≡ Err fails.Failed → Rose (H.failed_puts shelf.old) (H.failed_puts shelf.new) }
    ensures kept { StandsUnless is_failed (H.failed_puts shelf.old) (H.failed_puts shelf.new) result }
    ensures same_gets { H.failed_gets shelf.new ≡ H.failed_gets shelf.old }
{
    let file = format!(in alloc; "{name}.rec")?;
    match told {
        Some(told) => shelf.put(file.as_str(), told.as_str().as_bytes()),
        None => Ok(()),
    }
}

/// Puts what a run leaves that was recorded: the images that its jobs have made, then its trace, and then its record.
fn put_recorded<H: Shelf>(
    alloc: Global,
    name: &str,
    report: &Report,
    shelf: &mut H,
) -> Result<(), ShelfFail>
    ensures put { OnOk result (PutsRecorded name.now report.now (H.files shelf.old) (H.files shelf.new)) }
    ensures some { OnErr result (PutsSomeRecorded name.now report.now (H.files shelf.old) (H.files shelf.new)) }
    ensures cause { result ≡ Err fails.Failed → Rose (H.failed_puts shelf.old) (H.failed_puts shelf.new) }
    ensures kept { StandsUnless is_failed (H.failed_puts shelf.old) (H.failed_puts shelf.new) result }
    ensures same_gets { H.failed_gets shelf.new ≡ H.failed_gets shelf.old }
    ensures small { OnOk result (All traces.IsMove report.now.history) }
{
    put_run(alloc, Some(name), report, shelf)?;
    put_record(alloc, name, &report.recorded, shelf)
}

/// Puts what a command puts of its run, and says of each command what is put.
fn put_of<H: Shelf>(
    alloc: Global,
    command: Command<'_>,
    report: &Option<Report>,
    shelf: &mut H,
) -> Result<(), ShelfFail>
    ensures put { OnOk result (HasPut (leaves (Some (seen command.entry))) report.now (H.files shelf.old) (H.files shelf.new)) }
    ensures some { OnErr result (HasPutSome (leaves (Some (seen command.entry))) report.now (H.files shelf.old) (H.files shelf.new)) }
    ensures cause { result ≡ Err fails.Failed → IsSome report.now × Rose (H.failed_puts shelf.old) (H.failed_puts shelf.new) }
    ensures kept { StandsUnless is_failed (H.failed_puts shelf.old) (H.failed_puts shelf.new) result }
    ensures same_gets { H.failed_gets shelf.new ≡ H.failed_gets shelf.old }
    ensures shelf { OnFalse (uses_shelf (Some (seen command.entry))) (shelf.new ≡ shelf.old) }
    ensures small { OnOk result (AreSmall (leaves (Some (seen command.entry))) report.now) }
{
    match command {
        Command::Run(trace) => match report {
            Some(report) => put_run(alloc, trace, report, shelf),
            None => Ok(()),
        },
        Command::Exec => Ok(()),
        Command::Check => Ok(()),
        Command::Play(_) => Ok(()),
        Command::Show(_) => Ok(()),
        Command::Soak(_) => Ok(()),
        Command::Record(name, _) => match report {
            Some(report) => put_recorded(alloc, name, report, shelf),
            None => Ok(()),
        },
        Command::Replay(_) => Ok(()),
        Command::Page(..) => Ok(()),
    }
}

/// Puts what a command puts of its run.
///
/// # Errors
///
/// `Failed` where a put failed, and `NoMemory` where there is no memory for a file.
pub fn put_files<H: Shelf>(
    alloc: Global,
    command: Command<'_>,
    report: &Option<Report>,
    shelf: &mut H,
) -> Result<(), ShelfFail>
    ensures put { OnOk result (HasPut (leaves (Some (seen command.entry))) report.now (H.files shelf.old) (H.files shelf.new)) }
    ensures some { OnErr result (HasPutSome (leaves (Some (seen command.entry))) report.now (H.files shelf.old) (H.files shelf.new)) }
    ensures others { KeepsFiles (leaves (Some (seen command.entry))) (H.files shelf.old) (H.files shelf.new) }
    ensures cause { result ≡ Err fails.Failed → IsSome report.now × Rose (H.failed_puts shelf.old) (H.failed_puts shelf.new) }
    ensures kept { StandsUnless is_failed (H.failed_puts shelf.old) (H.failed_puts shelf.new) result }
    ensures same_gets { H.failed_gets shelf.new ≡ H.failed_gets shelf.old }
    ensures shelf { OnFalse (uses_shelf (Some (seen command.entry))) (shelf.new ≡ shelf.old) }
    ensures small { OnOk result (AreSmall (leaves (Some (seen command.entry))) report.now) }
{
    put_of(alloc, command, report, shelf)
}
