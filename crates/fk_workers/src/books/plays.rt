//! Books of traces: each move is made as its line is read.
ghost use Rattle.std.specs.Prelude.{◌≡◌, List, map, IfOk, IfErr, IfSome, IfNone, OnErr};
ghost use Rattle.fk_model.specs.declared.moves.Move as moves_of;
ghost use Rattle.fk_core.specs.Cores.Served.{AllFit};
ghost use Rattle.fk_trace_text.specs.Trace.{BeginsWith, BeginsWithNone, Spells};
ghost use Rattle.fk_workers.specs.Books.Shown.{IsSound, MayMove};
ghost use Rattle.fk_workers.specs.Books.Told.{IsKept, IsOneMore};
ghost use Rattle.fk_workers.specs.Books.Plays.{MayPlay, NextMayLack, IsCause, GivesMoves};
ghost use Rattle.fk_workers.specs.declared.books.plays.PlayFail.TheVariants as fails;

use crate::books::book::Book;
use crate::books::playable::Playable;
use fk_model::NoMemory;
use fk_responders::Table;
use fk_trace_text::{after_first_line, first_move};
use std::alloc::Global;

/// Why a trace isn't played to its end.
#[derive(Clone, Copy)]
pub enum PlayFail {
    /// The line of the move with this index is the first that is bad.
    Trace { index: u64 },
    /// There is no memory for the moves.
    NoMemory,
}

impl From<NoMemory> for PlayFail {
    ghost from_gives = { λ _ fail. fail ≡ fails.NoMemory };

    fn from(_: NoMemory) -> PlayFail {
        PlayFail::NoMemory
    }
}

/// Makes the move whose line a text begins with, where it is ready and the budget has one more, and gives what stands after that line.
///
/// # Errors
///
/// There is no memory for what the move makes.
fn play_next<'a, C: Playable + Drop>(
    book: &mut Book<C>,
    table: &Table,
    text: &'a [u8],
) -> Result<Option<&'a [u8]>, NoMemory>
    requires fits { AllFit (map (λ r. r.rule) table.now.list.items) (C.shown book.old.boot).core.servers }
    ensures kept { IsKept C.shown book.old × IsKept C.shown book.new }
    ensures made { IfOk result (λ made. IfSome made (λ rest. (m : moves_of.Move) × BeginsWith text.now m rest.now × IsOneMore C.shown book.old m book.new)) }
    ensures none { IfOk result (λ made. IfNone made (BeginsWithNone (MayMove (C.shown book.old.core)) text.now)) }
    ensures lacks { OnErr result (NextMayLack (C.shown book.old.core) text.now) }
{
    book.keeps();
    let Some((m, rest)) = first_move(text) else {
        return Ok(None);
    };
    if book.play(table, &m)? {
        Ok(Some(rest))
    } else {
        Ok(None)
    }
}

/// The book of the moves of a trace, of which there may be as many as the budget has.
///
/// # Errors
///
/// `Trace` with the index of the first line that is misspelled, whose move isn't ready in its turn, or that stands at the budget; a bad first line
/// of the text counts as that of the move 0. `NoMemory` where there is no memory for the moves or what they make.
pub fn play_all<C: Playable + Drop>(
    alloc: Global,
    first: C,
    table: &Table,
    trace: &[u8],
) -> Result<Book<C>, PlayFail>
    requires sound { IsSound (C.shown first) }
    requires fits { AllFit (map (λ r. r.rule) table.now.list.items) (C.shown first).core.servers }
    ensures boot { IfOk result (λ book. book.boot ≡ first) }
    ensures kept { IfOk result (λ book. IsKept C.shown book) }
    ensures found { IfOk result (λ book. Spells (MayPlay (C.shown first)) trace.now book.history) }
    ensures cause { IfErr result (λ fail. IsCause (MayPlay (C.shown first)) trace.now fail) }
    ensures back { (moves : List moves_of.Move) → Spells (MayPlay (C.shown first)) trace.now moves → GivesMoves moves result }
{
    let mut book = Book::of(alloc, first)?;
    book.keeps();
    let Some(mut rest) = after_first_line(trace) else {
        return Err(PlayFail::Trace { index: 0 });
    };
    while !rest.is_empty() {
        let index = book.history().len();
        let Some(after) = play_next(&mut book, table, rest)? else {
            return Err(PlayFail::Trace { index });
        };
        rest = after;
    }
    Ok(book)
}
