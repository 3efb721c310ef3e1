//! The program `lens`: the words of its command line, over the standard streams and the current folder.
//!
//! It stands on `lens_verbs` for all that it shows, on `lens_text` for what is told of a problem, and on `fk_causes` for the streams and the folder. It adds the
//! arguments, the writing, the line on standard error, and the exit status.
#![tactic(auto)]

use fk_causes::{Failed, FolderShelf, StdSink, StdSource, write_all};
use lens_text::Problem;
use lens_verbs::lens_top;
use std::env::Env;
use std::io::ErrorKind;
use std::process::ExitCode;
use std::{env, io};

/// The words after the program's name, or why there are none: a word that isn't UTF-8 is wrong.
fn words_of<R: Env + AllocGlobal>(rt: &R) -> Result<Vec<String>, Problem> {
    let args = match env::args(rt) {
        Ok(args) => args,
        Err(error) => return Err(problem_of(&error)),
    };
    match args.skip(1).collect(rt.alloc()) {
        Ok(words) => Ok(words),
        Err(_) => Err(Problem::NoMemory),
    }
}

/// What it means that the words can't be had.
fn problem_of(error: &io::Error) -> Problem {
    if error.kind() == ErrorKind::OutOfMemory {
        Problem::NoMemory
    } else {
        Problem::Words
    }
}

/// Says on standard error why something isn't shown, and answers the exit status. There is nobody left to tell of a failure to write here.
fn ended<R: Eprint>(rt: &R, problem: Problem, line: &str) -> u8 {
    let _ = eprintln!(rt; "lens: {line}");
    problem.status()
}

/// Says on standard error what is said besides of what was shown.
fn say_beside<R: Eprint>(rt: &R, lines: &str) {
    for line in lines.lines() {
        let _ = eprintln!(rt; "lens: {line}");
    }
}

/// Writes what the words of the command line ask to be shown, or why it isn't, and answers the exit status.
fn show(rt: &HostRuntime, words: &[String]) -> u8 {
    let mut source = StdSource::new(rt.stdin());
    let mut shelf = FolderShelf::new(rt);
    let shown = lens_top(rt.alloc(), words, &mut source, &mut shelf);
    if let Some(problem) = shown.problem {
        return ended(rt, problem, shown.line());
    }
    match write_all(&mut StdSink::new(rt.stdout()), shown.text.as_bytes()) {
        Ok(()) => {
            say_beside(rt, shown.beside.as_str());
            0
        }
        Err(Failed) => ended(rt, Problem::Outside, "standard output can't be written"),
    }
}

fn main(rt: HostRuntime) -> ExitCode {
    let status = match words_of(&rt) {
        Ok(words) => show(&rt, &words),
        Err(Problem::NoMemory) => ended(&rt, Problem::NoMemory, "no memory"),
        Err(problem) => {
            let line = "a word that isn't UTF-8: expected one that is";
            ended(&rt, problem, line)
        }
    };
    ExitCode::from(status)
}
