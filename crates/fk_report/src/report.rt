//! The report of a run.
ghost use Rattle.std.specs.Prelude.{◌≡◌, ◌++◌, IfOk, OnOk, map, string_bytes};
ghost use Rattle.std.specs.List.{flat_map};
ghost use Rattle.fk_report.specs.Jobs.{lines_from};
ghost use Rattle.fk_report.specs.Report as definitions;

use crate::end::End;
use crate::job_end::JobEnd;
use crate::jobs::push_jobs;
use crate::paths::push_path;
use crate::threads::ThreadState;
use fk_decimal::push_number;
use fk_model::{JobSpec, Mode, Who};
use fk_natives::Service;
use std::alloc::{AllocError, Global};

/// Appends what a thread is about, and ends its line.
fn push_mode(text: &mut String, mode: Mode) -> Result<(), AllocError>
    ensures { OnOk result (string_bytes text.new ≡ string_bytes text.old ++ definitions.mode_text mode) }
{
    match mode {
        Mode::Running => text.push_str(" running\n"),
        Mode::Calling => text.push_str(" calling\n"),
        Mode::Halted(code) => {
            text.push_str(" halted ")?;
            push_number(text, u64::from(code))?;
            text.push_str("\n")
        }
        Mode::Native => Ok(()),
    }
}

/// Appends the line of a thread. One that is no program's has none.
fn push_thread(text: &mut String, thread: &ThreadState) -> Result<(), AllocError>
    ensures { OnOk result (string_bytes text.new ≡ string_bytes text.old ++ definitions.thread_line thread.now) }
{
    if matches!(thread.mode, Mode::Native) {
        return Ok(());
    }
    text.push_str("thread ")?;
    push_path(text, thread.path.as_slice())?;
    push_mode(text, thread.mode)
}

/// Appends each word after a space.
fn push_words(text: &mut String, words: &[u64]) -> Result<(), AllocError>
    ensures { OnOk result (string_bytes text.new ≡ string_bytes text.old ++ flat_map definitions.word_text words.now) }
{
    for word in words {
        text.push_str(" ")?;
        push_number(text, *word)?;
    }
    Ok(())
}

/// Appends the line of a console. A server that is none has none.
fn push_out<S: Service>(text: &mut String, service: &S) -> Result<(), AllocError>
    ensures { OnOk result (string_bytes text.new ≡ string_bytes text.old ++ definitions.out_line (S.meaning service.now)) }
{
    let Some(alias) = service.alias() else {
        return Ok(());
    };
    text.push_str("out ")?;
    text.push_str(alias)?;
    push_words(text, service.printed())?;
    text.push_str("\n")
}

/// The word for how a run ends.
pub fn end_word(end: End) -> &'static str
    ensures { result.now ≡ definitions.end_word end }
{
    match end {
        End::Halted => "halted",
        End::Quiet => "quiet",
        End::Budget => "budget",
        End::Listed => "listed",
    }
}

/// The first two lines.
fn end_lines(alloc: Global, events: u64, end: End) -> Result<String, AllocError>
    ensures { IfOk result (λ text. string_bytes text ≡ definitions.end_lines events end) }
{
    let mut text = String::from_str(alloc, "events ")?;
    push_number(&mut text, events)?;
    text.push_str("\nend ")?;
    text.push_str(end_word(end))?;
    text.push_str("\n")?;
    Ok(text)
}

/// Appends the lines of consoles.
fn push_outs<S: Service>(text: &mut String, services: &[(Who, S)]) -> Result<(), AllocError>
    ensures { OnOk result (string_bytes text.new ≡ string_bytes text.old ++ flat_map definitions.out_line (definitions.states S.meaning services.now)) }
{
    for (_, service) in services {
        push_out(text, service)?;
    }
    Ok(())
}

/// Appends the lines of threads.
fn push_threads(text: &mut String, threads: &[ThreadState]) -> Result<(), AllocError>
    ensures { OnOk result (string_bytes text.new ≡ string_bytes text.old ++ flat_map definitions.thread_line threads.now) }
{
    for thread in threads {
        push_thread(text, thread)?;
    }
    Ok(())
}

/// The lines of consoles in the order of the file, and of user threads in the order of the list.
///
/// # Errors
///
/// There is no memory for the text.
pub fn outs_text<S: Service>(
    alloc: Global,
    services: &[(Who, S)],
    threads: &[ThreadState],
) -> Result<String, AllocError>
    ensures { IfOk result (λ text. string_bytes text ≡ definitions.outs_text (definitions.states S.meaning services.now) threads.now) }
{
    let mut text = String::new(alloc);
    push_outs(&mut text, services)?;
    push_threads(&mut text, threads)?;
    Ok(text)
}

/// The report of a run: how many moves it made, how it ended, its jobs in the order of the file with how the first
/// of them have ended, and the lines of its consoles and user threads.
///
/// # Errors
///
/// There is no memory for the text.
pub fn run_text(
    alloc: Global,
    events: u64,
    end: End,
    jobs: &[JobSpec],
    ends: &[Option<JobEnd>],
    outs: &str,
) -> Result<String, AllocError>
    ensures { IfOk result (λ text. string_bytes text ≡ definitions.end_lines events end ++ (lines_from ends.now 0 jobs.now ++ outs.now)) }
{
    let mut text = end_lines(alloc, events, end)?;
    push_jobs(&mut text, jobs, ends)?;
    text.push_str(outs)?;
    Ok(text)
}
