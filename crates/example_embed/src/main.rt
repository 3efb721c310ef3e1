//! The crates as a library, by an example: a process is saved in the midst of a message, and its copy ends the message in a second kernel.
//!
//! It stands on `fk_embed` for hosts, moves, saves and restores. It says what each of the two consoles has been sent in the end. docs/EMBEDDING.md goes through it.
#![tactic(auto)]

ghost use Rattle.std.specs.Prelude.{◌≡◌, IfOk, map};
ghost use Rattle.fk_model.specs.declared.limits.TheConstants.{LAST_USER_SLOT};
ghost use Rattle.fk_responders.specs.Notes.{note_of, watches};
ghost use Rattle.fk_responders.specs.declared.note.Watch.TheVariants as sights;
ghost use Rattle.fk_host.specs.Served.{AllFit};

use anyhow::{Context, bail};
use fk_checkpoint::CheckpointEnd;
use fk_embed::{boot_host, make, ready_move, restore_now, save_now};
use fk_finish::ValidImage;
use fk_host::Host;
use fk_jobs::Finish;
use fk_model::{List, Move, Thread, Who};
use fk_natives::{Native, Service};
use fk_responders::{Note, Observer, Table, Watch, watches};
use fk_restore::RestoreEnd;
use std::alloc::Global;

/// A process in slot 1 of the root sends 70 words to a console at the root's port 9.
const SENDER: &str = r#"
budget = 1000
[programs]
sender = """
        set r7, 512
        set r8, 7
        store r8, r7, 69  ; the last of 70 words
        set r0, 33        ; connect, send, over, receive
        set r1, 3         ; the console
        set r2, 512
        set r3, 70
        call
        halt
"""
[[space]]
path = "/"
nester = true
[[space]]
path = "/1"
program = "sender"
pages = [8, 9]
[[object]]
at = "/9"
kind = "port"
[[object]]
at = "/1/0"
kind = "thread"
[[object]]
at = "/1/3"
kind = "reference"
to = "/9"
[[server]]
port = "/9"
rule = "console"
alias = "words"
"#;

/// A root that has nothing but a console at its port 9.
const EMPTY: &str = r#"
budget = 1000
[[space]]
path = "/"
nester = true
[[object]]
at = "/9"
kind = "port"
[[server]]
port = "/9"
rule = "console"
alias = "words"
"#;

/// The root, by its birth number: its porter makes the calls of saves and restores.
const ROOT: u32 = 0;

/// The thread of the process, by the birth number of the process and its slot there. Processes are numbered in the order in which they are made, so it has the
/// same name in both kernels.
const SENDING: Who = Who { space: 1, slot: 0 };

/// How many moves we make at most, at a time.
const MOST: u32 = 1000;

/// The state of the sending thread.
fn sending<S: Service + Drop>(host: &Host<S>) -> Option<Thread> {
    host.kernel().store().thread(SENDING).copied()
}

/// Whether the sending thread has sent its first block.
fn is_in_the_midst<S: Service + Drop>(host: &Host<S>) -> bool {
    match sending(host) {
        Some(thread) => thread.talk.is_some_and(|talk| talk.moved > 0),
        None => false,
    }
}

/// Our policy: the sending thread goes first where it can, and else whoever the host finds.
fn next_move<S: Service + Drop>(host: &mut Host<S>) -> Option<Move>
    ensures { host.new.services.list ≡ host.old.services.list }
{
    match ready_move(host.kernel(), SENDING) {
        Some(m) => Some(m),
        None => host.choose(),
    }
}

/// Makes moves by our policy, up to the midst of the message or to the end.
fn go<S: Service + Drop>(host: &mut Host<S>, table: &Table, to_midst: bool) -> anyhow::Result<()>
    requires { AllFit (map (λ r. r.rule) table.now.list.items) host.old.services.list }
    ensures { AllFit (map (λ r. r.rule) table.now.list.items) host.new.services.list }
{
    for _ in 0..MOST {
        if to_midst && is_in_the_midst(host) {
            return Ok(());
        }
        let Some(m) = next_move(host) else {
            return Ok(());
        };
        make(host, table, &m).ok().context("no memory")?;
    }
    Ok(())
}

/// Saves the process, as it stands.
fn saved<S: Service + Drop>(
    alloc: Global,
    host: &mut Host<S>,
    table: &Table,
) -> anyhow::Result<ValidImage>
    requires { AllFit (map (λ r. r.rule) table.now.list.items) host.old.services.list }
    ensures { AllFit (map (λ r. r.rule) table.now.list.items) host.new.services.list }
{
    match save_now(alloc, host, table, ROOT, 1) {
        Ok(Finish::Checkpoint(CheckpointEnd::Done(image))) => Ok(image),
        _ => bail!("the process isn't saved"),
    }
}

/// Makes a saved process again in slot 5, whose outward ports stay what they are.
fn restore<S: Service + Drop>(
    alloc: Global,
    host: &mut Host<S>,
    table: &Table,
    image: ValidImage,
) -> anyhow::Result<()>
    requires { AllFit (map (λ r. r.rule) table.now.list.items) host.old.services.list }
    ensures { AllFit (map (λ r. r.rule) table.now.list.items) host.new.services.list }
{
    let _valid = image.get();
    match restore_now(host, table, ROOT, 5, image, List::new(alloc)) {
        Ok(Finish::Restore(RestoreEnd::Done)) => Ok(()),
        _ => bail!("the process isn't made again"),
    }
}

/// Says how many words a host's consoles were sent, and the last of them.
fn say_words<R: Print>(rt: &R, name: &str, host: &Host<Native>) -> anyhow::Result<()> {
    for (_, native) in host.services() {
        if let Native::Console(console) = native {
            let last = console.words.last().copied().unwrap_or(0);
            println!(rt; "{name}: {} words, the last is {last}", console.words.len())?;
        }
    }
    Ok(())
}

/// Says what the sending thread is at.
fn say_state<R: Print, S: Service + Drop>(rt: &R, host: &Host<S>) -> anyhow::Result<()> {
    let thread = sending(host).context("no thread")?;
    let call = thread.regs[0];
    let from = thread.regs[2];
    let left = thread.regs[3];
    println!(rt; "saved at call {call}, with {left} words left to be sent from {from}")?;
    Ok(())
}

/// The first kernel: up to the midst of the message, where the process is saved; then to the end.
fn original<R: Print, S: Service + Drop>(
    rt: &R,
    alloc: Global,
    host: &mut Host<S>,
    table: &Table,
) -> anyhow::Result<ValidImage>
    requires { AllFit (map (λ r. r.rule) table.now.list.items) host.old.services.list }
{
    go(host, table, true)?;
    say_state(rt, host)?;
    let image = saved(alloc, host, table)?;
    go(host, table, false)?;
    Ok(image)
}

/// The second kernel: the copy is made and goes on to the end.
fn copy<S: Service + Drop>(
    alloc: Global,
    host: &mut Host<S>,
    table: &Table,
    image: ValidImage,
) -> anyhow::Result<()>
    requires { AllFit (map (λ r. r.rule) table.now.list.items) host.old.services.list }
{
    restore(alloc, host, table, image)?;
    go(host, table, false)
}

/// Boots the first kernel, and answers the image of its process.
fn run_original<R: Print>(rt: &R, alloc: Global, table: &Table) -> anyhow::Result<ValidImage> {
    let mut host = boot_host(alloc, table, SENDER.as_bytes())?;
    let image = original(rt, alloc, &mut host, table)?;
    say_words(rt, "original", &host)?;
    Ok(image)
}

/// Boots the second kernel, for the copy.
fn run_copy<R: Print>(
    rt: &R,
    alloc: Global,
    table: &Table,
    image: ValidImage,
) -> anyhow::Result<()> {
    let mut host = boot_host(alloc, table, EMPTY.as_bytes())?;
    copy(alloc, &mut host, table, image)?;
    say_words(rt, "copy", &host)
}

/// Saves the process of the first kernel in the midst of its message, and has its copy go on in the second.
fn in_two_kernels<R: Print>(rt: &R, alloc: Global, table: &Table) -> anyhow::Result<()> {
    let image = run_original(rt, alloc, table)?;
    run_copy(rt, alloc, table, image)
}

/// The table is without responders, since our only servers are consoles, and with the observers that every table has. It is made here, since a closure that a
/// function hands out may do anything.
fn main(rt: HostRuntime) -> anyhow::Result<()> {
    let alloc = rt.alloc();
    let mut observers = Vec::new(alloc);
    observers.push(Observer::new(
        Watch::All,
        Box::new(
            alloc,
            |note: &Note| -> bool
                ensures { result ≡ watches sights.All (note_of note.now) }
            { watches(Watch::All, note) },
        )?,
    ))?;
    observers.push(Observer::new(
        Watch::Replies,
        Box::new(
            alloc,
            |note: &Note| -> bool
                ensures { result ≡ watches sights.Replies (note_of note.now) }
            { watches(Watch::Replies, note) },
        )?,
    ))?;
    observers.push(Observer::new(
        Watch::Said,
        Box::new(
            alloc,
            |note: &Note| -> bool
                ensures { result ≡ watches sights.Said (note_of note.now) }
            { watches(Watch::Said, note) },
        )?,
    ))?;
    let list = Vec::new(alloc);
    in_two_kernels(&rt, alloc, &Table { list, observers })
}
