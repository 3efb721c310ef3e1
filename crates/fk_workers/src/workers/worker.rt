//! A worker.
ghost use Rattle.std.specs.Prelude.{◌≡◌, ◌≤◌, false, length, map, IfOk, OnOk};
ghost use Rattle.std.specs.Bool.{OnFalse};
ghost use Rattle.fk_workers.specs.Books.Served.{AllFit};
ghost use Rattle.fk_workers.specs.Books.Shown.{HasEnded};
ghost use Rattle.fk_workers.specs.Books.Told.{Told, IsKept, IsSame, GoesOn};

use crate::books::{Book, Gone, Lent, Playable};
use crate::workers::plan::Plan;
use fk_burst::{Leased, count, run};
use fk_causes::Gate;
use fk_model::NoMemory;
use fk_responders::Table;
use fk_rlock::{Pass, Ruled};
use std::sync::Wait;

/// Takes turns at the lock, and makes some moves in each, until the run has ended; what it makes of a lease between two turns is committed in
/// the next one, and one plain move goes with it. A worker who is alone takes no lease. Where it is done, the book that its last turn met has
/// ended; that was begun from what the pass knows, and has as many moves as the pass has then seen. It calls the gate before each turn.
///
/// # Errors
///
/// There is no memory for what a move makes.
#[tactic(auto, using(crate::proofs::InBooks::Runs::goes_longer))]
pub fn work<R: Wait, G: Gate, C: Playable + Drop>(
    rt: &R,
    lock: &Ruled<Book<C>>,
    pass: &mut Pass<Book<C>>,
    worker: u32,
    alone: bool,
    table: &Table,
    gate: &G,
) -> Result<(), NoMemory>
    requires lock { pass.old.lock ≡ lock.now.id }
    requires fits { AllFit (map (λ r. r.rule) table.now.list.items) (C.shown pass.old.boot).core.servers }
    ensures lock { pass.new.lock ≡ pass.old.lock }
    ensures boot { pass.new.boot ≡ pass.old.boot }
    ensures parts { pass.new.parts ≡ pass.old.parts }
    ensures met { OnOk result ((b : Told C) × (b.boot ≡ pass.old.boot) × IsKept C.shown b × HasEnded (C.shown b.core) × (length b.history ≡ pass.new.seen)) }
{
    let mut turn = 0u64;
    // It is large, so it stays where it is.
    let mut lease = Leased::blank();
    let mut plan = Plan::new(alone);
    for _ in rt.forever() {
        gate.pass(worker, turn);
        let done = lock.turn(
            rt,
            pass,
            |book: &mut Book<C>| -> Result<Done, NoMemory>
                requires { AllFit (map (λ r. r.rule) table.now.list.items) (C.shown book.old.boot).core.servers }
                ensures { IsKept C.shown book.new × (book.new.boot ≡ book.old.boot) × (length book.old.history ≤ length book.new.history)
                    × IfOk result (λ done. done.more ≡ false → HasEnded (C.shown book.new.core)) }
            { take_turn(book, table, worker, &mut lease, &plan) },
        )?;
        if done.moves > 0 {
            gate.committed(worker, done.moves);
        }
        if !done.more {
            return Ok(());
        }
        make(&mut lease, done.lent, &mut plan);
        if plan.waits() {
            lock.rest(rt);
        }
        turn = turn.wrapping_add(1);
    }
    unreachable!()
}

/// What comes of a turn: how many moves of a lease were committed, whether more may be made, and whether there is a lease for the next one.
#[derive(Clone, Copy)]
struct Done {
    moves: u64,
    more: bool,
    lent: Lent,
}

/// The moves of a turn, and then a lease for the next one, where one may be taken.
fn take_turn<C: Playable + Drop>(
    book: &mut Book<C>,
    table: &Table,
    worker: u32,
    lease: &mut Leased,
    plan: &Plan,
) -> Result<Done, NoMemory>
    requires fits { AllFit (map (λ r. r.rule) table.now.list.items) (C.shown book.old.boot).core.servers }
    ensures kept { IsKept C.shown book.new }
    ensures goes { GoesOn book.old book.new }
    ensures ended { IfOk result (λ done. done.more ≡ false → HasEnded (C.shown book.new.core)) }
{
    let gone = go(book, table, lease, plan)?;
    let lent = next_lease(book, worker, lease, gone.more, plan);
    book.keeps();
    Ok(Done {
        moves: gone.moves,
        more: gone.more,
        lent,
    })
}

/// The moves of a turn: those of the lease that comes back and one more, or some plain ones; none where the worker waits, since these would undo what
/// others have out.
#[tactic(auto, using(crate::proofs::InBooks::Runs::goes_not))]
fn go<C: Playable + Drop>(
    book: &mut Book<C>,
    table: &Table,
    lease: &Leased,
    plan: &Plan,
) -> Result<Gone, NoMemory>
    requires fits { AllFit (map (λ r. r.rule) table.now.list.items) (C.shown book.old.boot).core.servers }
    ensures kept { IsKept C.shown book.new }
    ensures goes { GoesOn book.old book.new }
    ensures ended { IfOk result (λ gone. OnFalse gone.more (HasEnded (C.shown book.new.core))) }
{
    if plan.waits() {
        book.keeps();
        Ok(Gone {
            moves: 0,
            more: true,
        })
    } else if plan.held {
        let gone = book.go_burst(table, lease);
        book.keeps();
        gone
    } else {
        let more = book.go_on(table);
        book.keeps();
        Ok(Gone {
            moves: 0,
            more: more?,
        })
    }
}

/// A lease for the next turn, where moves are left and the plan has one, and whether there is. Nothing else changes.
fn next_lease<C: Playable + Drop>(
    book: &mut Book<C>,
    worker: u32,
    lease: &mut Leased,
    more: bool,
    plan: &Plan,
) -> Lent
    ensures same { IsSame C.shown book.old book.new }
{
    if more && plan.leases() {
        book.lease(worker, plan.stays < plan.most, lease)
    } else {
        book.rest(worker);
        Lent::Refused
    }
}

/// The instructions of a lease, without the lock, where there is one.
fn make(lease: &mut Leased, lent: Lent, plan: &mut Plan) {
    match lent {
        Lent::Renewed => {
            run(lease);
            plan.made(lease.thread(), count(lease));
        }
        Lent::AllOut => plan.wait(),
        Lent::Refused => plan.pass(),
    }
}
