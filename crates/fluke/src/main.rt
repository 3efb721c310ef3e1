//! The program `fluke`: the words of its command line, over the standard streams and the current
//! folder.
//!
//! It stands on `fk_run` for all that it does, and on `fk_causes` for the streams and the folder. It
//! adds only what no contract can speak of: the arguments, the threads, how far a run is (`progress`), the line on standard error, and
//! the exit status.
#![tactic(auto)]

ghost use Rattle.std.specs.Prelude.{◌≡◌, ◌≤◌, length};
ghost use Rattle.fk_model.specs.Answers.{answer, reply_words};
ghost use Rattle.fk_model.specs.declared.moves.Rule.TheVariants as rules;
ghost use Rattle.fk_responders.specs.Notes.{note_of, watches};
ghost use Rattle.fk_responders.specs.declared.note.Watch.TheVariants as sights;

mod progress;

use crate::progress::Progress;
use fk_causes::{FolderShelf, StdSink, StdSource};
use fk_model::{Reply, Rule};
use fk_responders::{Note, Observer, Responder, Table, Watch, echo, feed, sum, watches};
use fk_run::{Outcome, Status, fault_line, fluke_top};
use std::alloc::AllocError;
use std::env::Env;
use std::io::ErrorKind;
use std::process::ExitCode;
use std::sync::Wait;
use std::thread::Threads;
use std::{env, io};

/// The words after the program's name, or how the program ends without them: a word that isn't
/// UTF-8 makes a wrong command line.
fn words_of<R: Env + AllocGlobal>(rt: &R) -> Result<Vec<String>, Status> {
    let args = match env::args(rt) {
        Ok(args) => args,
        Err(error) => return Err(status_of(&error)),
    };
    match args.skip(1).collect(rt.alloc()) {
        Ok(words) => Ok(words),
        Err(_) => Err(Status::NoMemory),
    }
}

/// What it means that the words can't be had.
fn status_of(error: &io::Error) -> Status {
    match error.kind() {
        ErrorKind::OutOfMemory => Status::NoMemory,
        _ => Status::Usage,
    }
}

/// Does what the words of the command line ask for, by the threads of a handle. Native servers reply by the responders of the table.
fn status_by<T: Threads + Wait + Sync>(rt: &HostRuntime, threads: &T, table: &Table) -> Status {
    let words = match words_of(rt) {
        Ok(words) => words,
        Err(status) => return status,
    };
    let mut source = StdSource::new(rt.stdin());
    let mut sink = StdSink::new(rt.stdout());
    let mut shelf = FolderShelf::new(rt);
    let Outcome { status, .. } = fluke_top(
        threads,
        rt.alloc(),
        &words,
        table,
        &mut source,
        &mut sink,
        &mut shelf,
        &Progress::new(rt),
    );
    status
}

/// Makes the call with a table of the three responders and the three observers.
fn status_of_call<T: Threads + Wait + Sync>(
    rt: &HostRuntime,
    threads: &T,
) -> Result<Status, AllocError> {
    let alloc = rt.alloc();
    let mut list = Vec::new(alloc);
    list.push(Responder::new(
        String::from_str(alloc, "echo")?,
        Rule::Echo,
        Box::new(
            alloc,
            |_config: &[u64], _position: u64, request: &[u64]| -> Reply
                requires { length request.now ≤ 64 }
                ensures { reply_words result ≡ answer rules.Echo _config.now _position request.now }
            { echo(request) },
        )?,
    ))?;
    list.push(Responder::new(
        String::from_str(alloc, "feed")?,
        Rule::Feed,
        Box::new(
            alloc,
            |config: &[u64], position: u64, _request: &[u64]| -> Reply
                ensures { reply_words result ≡ answer rules.Feed config.now position _request.now }
            { feed(config, position) },
        )?,
    ))?;
    list.push(Responder::new(
        String::from_str(alloc, "sum")?,
        Rule::Sum,
        Box::new(
            alloc,
            |_config: &[u64], _position: u64, request: &[u64]| -> Reply
                ensures { reply_words result ≡ answer rules.Sum _config.now _position request.now }
            { sum(request) },
        )?,
    ))?;
    let mut observers = Vec::new(alloc);
    observers.push(Observer::new(
        Watch::All,
        Box::new(
            alloc,
            |note: &Note| -> bool
                ensures { result ≡ watches sights.All (note_of note.now) }
            { watches(Watch::All, note) },
        )?,
    ))?;
    observers.push(Observer::new(
        Watch::Replies,
        Box::new(
            alloc,
            |note: &Note| -> bool
                ensures { result ≡ watches sights.Replies (note_of note.now) }
            { watches(Watch::Replies, note) },
        )?,
    ))?;
    observers.push(Observer::new(
        Watch::Said,
        Box::new(
            alloc,
            |note: &Note| -> bool
                ensures { result ≡ watches sights.Said (note_of note.now) }
            { watches(Watch::Said, note) },
        )?,
    ))?;
    Ok(status_by(rt, threads, &Table { list, observers }))
}

fn main(rt: HostRuntime) -> ExitCode {
    let status = match status_of_call(&rt, &rt) {
        Ok(status) => status,
        Err(_) => Status::NoMemory,
    };
    // There is nobody left to tell of a failure to write here; the exit status says what happened.
    match fault_line(rt.alloc(), &status) {
        Ok(line) if line.is_empty() => {}
        Ok(line) => {
            let _ = eprintln!(rt; "{line}");
        }
        Err(_) => {
            let _ = eprintln!(rt; "fluke: no memory");
        }
    }
    ExitCode::from(status.number())
}
