//! What a book asks of its core.
ghost use Rattle.std.specs.Prelude.{◌≡◌, ◌≤◌, ◌<◌, map, IfOk, OnErr, IfNone};
ghost use Rattle.std.specs.Bool.{OnTrue, OnFalse};
ghost use Rattle.fk_core.specs.Cores.Served.{AllFit};
ghost use Rattle.fk_workers.specs.Books.Shown.{Shown, MayMove, MayLack, SomeMayLack, MayBurst, HasEnded, Moves, MovesSo, moves_of, mover_of, Comes, ComesBy, IsFirstDue, HasComeTo};

use fk_burst::Leased;
use fk_model::{Move, NoMemory, Who};
use fk_responders::Table;

/// The most workers that share a book.
pub const WORKERS: usize = 8;

/// What comes of asking for a lease.
#[derive(Clone, Copy)]
pub enum Lent {
    /// It was renewed.
    Renewed,
    /// There is none, since all who are ready are out.
    AllOut,
    /// There is none for another reason.
    Refused,
}

/// A core in which moves are made, one after the other.
pub trait Playable {
    ghost shown: { Self → Shown };

    /// The most moves of a run.
    fn most_moves(&self) -> u64
        ensures { result ≡ (shown self.now).budget };

    /// Makes a move that is ready, and gives it: at an even number of moves a due job's where one is ready. There is none exactly where none
    /// is ready or the budget is used. Then, and for want of memory, all is as before. Memory lacks only where a move may be made that may want it.
    fn make_any(&mut self, table: &Table) -> Result<Option<Move>, NoMemory>
        requires come { HasComeTo (shown self.old) }
        requires fits { AllFit (map (λ r. r.rule) table.now.list.items) (shown self.old).core.servers }
        ensures comes { IfOk result (λ made. Comes (shown self.old) made (shown self.new)) }
        ensures none { IfOk result (λ made. IfNone made (HasEnded (shown self.new))) }
        ensures first { IfOk result (λ made. IsFirstDue (shown self.old) made) }
        ensures lacking { OnErr result (shown self.new ≡ shown self.old) }
        ensures lacks { OnErr result (SomeMayLack (shown self.old)) };

    /// Makes moves of one mover that are ready, at least one and at most so many, and gives whose and how many: at an even number of moves a due
    /// job's where one is ready. There is none exactly where none is ready or the budget is used. Then, and for want of memory, all is as before.
    /// Memory lacks only where a move may be made that may want it.
    fn make_some(&mut self, table: &Table, most: u64) -> Result<Option<(Move, u64)>, NoMemory>
        requires some { 0 < most }
        requires come { HasComeTo (shown self.old) }
        requires fits { AllFit (map (λ r. r.rule) table.now.list.items) (shown self.old).core.servers }
        ensures comes { IfOk result (λ made. ComesBy (shown self.old) most made (shown self.new)) }
        ensures none { IfOk result (λ made. IfNone made (HasEnded (shown self.new))) }
        ensures first { IfOk result (λ made. IsFirstDue (shown self.old) (mover_of made)) }
        ensures lacking { OnErr result (shown self.new ≡ shown self.old) }
        ensures lacks { OnErr result (SomeMayLack (shown self.old)) };

    /// Makes this move where it is ready and the budget has one more, and answers whether it was made. Where it wasn't, and for want of
    /// memory, all is as before. Memory lacks only where the move may be made and may want it.
    fn make(&mut self, table: &Table, m: &Move) -> Result<bool, NoMemory>
        requires come { HasComeTo (shown self.old) }
        requires fits { AllFit (map (λ r. r.rule) table.now.list.items) (shown self.old).core.servers }
        ensures made { IfOk result (λ made. OnTrue made (Moves (shown self.old) m.now (shown self.new))) }
        ensures unready { IfOk result (λ made. OnFalse made (MayMove (shown self.old) m.now → ⊥)) }
        ensures same { IfOk result (λ made. OnFalse made (shown self.new ≡ shown self.old)) }
        ensures lacking { OnErr result (shown self.new ≡ shown self.old) }
        ensures lacks { OnErr result (MayLack (shown self.old) m.now) };

    /// Renews a lease, with a thread that is ready in running mode and not among these, and says whether it did: with the one that moved
    /// last, or with another; not while a job is left. Which one it is, and whether there is one, is a hint: a lease of any thread may
    /// be committed where it is as it was.
    fn lease(&self, out: &[Option<Who>; WORKERS], stays: bool, lease: &mut Leased) -> Lent;

    /// Makes the moves of a lease at once where it may be committed with what is left of the budget, and answers whether it did. Else all
    /// is as before.
    fn burst(&mut self, lease: &Leased) -> bool
        requires come { HasComeTo (shown self.old) }
        requires within { (shown self.old).core.events ≤ (shown self.old).budget }
        ensures moves { OnTrue result (MovesSo (shown self.old) (moves_of lease.now) (shown self.new)) }
        ensures may { OnTrue result (MayBurst (shown self.old) lease.now) }
        ensures may_not { OnFalse result (MayBurst (shown self.old) lease.now → ⊥) }
        ensures same { OnFalse result (shown self.new ≡ shown self.old) };
}
