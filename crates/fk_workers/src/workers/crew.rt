//! A crew: so many workers at one book, each in a thread of its own.
ghost use Rattle.std.specs.Prelude.{◌≡◌, ◌≤◌, ◌<◌, All, length, map, IfOk, IfSome, IfNone};
ghost use Rattle.fk_workers.specs.Books.Served.{AllFit};
ghost use Rattle.fk_workers.specs.Books.Shown.{IsSound, HasEnded};
ghost use Rattle.fk_workers.specs.Books.Told.{IsKept};
ghost use Rattle.fk_workers.specs.Workers.Places.{IsPlace};

use crate::books::{Book, Playable};
use crate::workers::worker::work;
use fk_causes::Gate;
use fk_model::NoMemory;
use fk_responders::Table;
use fk_rlock::{Pass, Ruled};
use std::alloc::Global;
use std::snapshot::Snapshot;
use std::sync::Wait;
use std::thread::{Threads, for_each_mut};

/// A worker's place: its pass, and what has come of its work.
#[derive(Drop)]
struct Desk<C: Playable + Drop> {
    pass: Pass<Book<C>>,
    done: Result<(), NoMemory>,
}

/// A worker works at its desk.
fn work_at<R: Wait, G: Gate, C: Playable + Drop>(
    rt: &R,
    lock: &Ruled<Book<C>>,
    desk: &mut Desk<C>,
    worker: u32,
    alone: bool,
    table: &Table,
    gate: &G,
)
    requires lock { desk.old.pass.lock ≡ lock.now.id }
    requires fits { AllFit (map (λ r. r.rule) table.now.list.items) (C.shown desk.old.pass.boot).core.servers }
    ensures same { (desk.new.pass.lock ≡ desk.old.pass.lock) × (desk.new.pass.boot ≡ desk.old.pass.boot) × (desk.new.pass.parts ≡ desk.old.pass.parts) }
{
    desk.done = work(rt, lock, &mut desk.pass, worker, alone, table, gate);
}

/// All work at their desks, each in a thread of its own.
fn work_all<R: Threads + Wait + Sync, G: Gate + Sync, C: Playable + Drop + Send>(
    rt: &R,
    lock: &Ruled<Book<C>>,
    desks: &mut [Desk<C>],
    _boot: &Snapshot<C>,
    table: &Table,
    gate: &G,
)
    requires some { 0 < length desks.old }
    requires places { All (λ desk. IsPlace lock.now _boot.now.value desk.pass) desks.old }
    requires fits { AllFit (map (λ r. r.rule) table.now.list.items) (C.shown _boot.now.value).core.servers }
    ensures places { All (λ desk. IsPlace lock.now _boot.now.value desk.pass) desks.new }
    ensures len { length desks.new ≡ length desks.old }
{
    let threads = desks.len();
    for_each_mut(
        rt,
        desks,
        threads,
        &|worker: usize, desk: &mut Desk<C>|
            requires { (desk.old.pass.lock ≡ lock.now.id) × AllFit (map (λ r. r.rule) table.now.list.items) (C.shown desk.old.pass.boot).core.servers }
            ensures { (desk.new.pass.lock ≡ desk.old.pass.lock) × (desk.new.pass.boot ≡ desk.old.pass.boot) × (desk.new.pass.parts ≡ desk.old.pass.parts) }
        {
            work_at(
                rt,
                lock,
                desk,
                u32::try_from(worker).unwrap_or(u32::MAX),
                threads == 1,
                table,
                gate,
            )
        },
    );
}

/// A desk for each worker, with one part of the pass.
fn deal<C: Playable + Drop>(
    alloc: Global,
    lock: &Ruled<Book<C>>,
    mut pass: Pass<Book<C>>,
    workers: u32,
) -> Result<Vec<Desk<C>>, NoMemory>
    requires lock { pass.lock ≡ lock.now.id }
    requires parts { (0 < workers) × (pass.parts ≡ workers) }
    ensures len { IfOk result (λ v. length v.items ≡ workers) }
    ensures each { IfOk result (λ v. All (λ desk. IsPlace lock.now pass.boot desk.pass) v.items) }
{
    let mut desks = Vec::new(alloc);
    for _ in 1..workers {
        let part = lock.split(&mut pass);
        desks.push(Desk {
            pass: part,
            done: Ok(()),
        })?;
    }
    desks.push(Desk { pass, done: Ok(()) })?;
    Ok(desks)
}

/// The pass with the parts of all desks, and the first want of memory; none where there is no desk.
fn gather<C: Playable + Drop>(
    lock: &Ruled<Book<C>>,
    mut desks: Vec<Desk<C>>,
    _boot: &Snapshot<C>,
) -> Option<(Pass<Book<C>>, Result<(), NoMemory>)>
    requires { All (λ desk. IsPlace lock.now _boot.now.value desk.pass) desks.items }
    ensures none { IfNone result (length desks.items ≡ 0) }
    ensures pass { IfSome result (λ r. (r.0.lock ≡ lock.now.id) × (r.0.boot ≡ _boot.now.value) × (r.0.parts ≡ length desks.items)) }
{
    let Desk { mut pass, mut done } = desks.pop()?;
    while let Some(desk) = desks.pop() {
        let Desk {
            pass: other,
            done: theirs,
        } = desk;
        lock.join(&mut pass, other);
        done = done.and(theirs);
    }
    Some((pass, done))
}

/// The book of a run, written by so many workers, one to eight. Moves that they leave it makes itself.
///
/// # Errors
///
/// There is no memory for the book, the lock, the workers' places or what a move makes.
pub fn run_all<R: Threads + Wait + Sync, G: Gate + Sync, C: Playable + Drop + Send>(
    rt: &R,
    alloc: Global,
    first: C,
    workers: u32,
    table: &Table,
    gate: &G,
) -> Result<Book<C>, NoMemory>
    requires workers { (0 < workers) × (workers ≤ 8) }
    requires sound { IsSound (C.shown first) }
    requires fits { AllFit (map (λ r. r.rule) table.now.list.items) (C.shown first).core.servers }
    ensures boot { IfOk result (λ book. book.boot ≡ first) }
    ensures kept { IfOk result (λ book. IsKept C.shown book) }
    ensures ended { IfOk result (λ book. HasEnded (C.shown book.core)) }
{
    let boot = Snapshot::of(&first);
    let book = Book::of(alloc, first)?;
    let (lock, pass) = Ruled::new(alloc, book, workers)?;
    let mut desks = deal(alloc, &lock, pass, workers)?;
    work_all(rt, &lock, desks.as_mut_slice(), &boot, table, gate);
    let Some((pass, done)) = gather(&lock, desks, &boot) else {
        unreachable!()
    };
    let mut book = lock.close(pass);
    done?;
    book.finish(table)?;
    book.keeps();
    Ok(book)
}
