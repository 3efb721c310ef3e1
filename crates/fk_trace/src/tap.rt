//! Taps.
ghost use Rattle.std.specs.Prelude.{◌≡◌, ◌≤◌, ◌<◌, ◌+◌, ◌++◌, ◌∷◌, [], is_none, length, vec_len, vec_capacity};
ghost use Rattle.fk_model.specs.declared.thread.Turn.TheVariants as turns;
ghost use Rattle.fk_natives.specs.Natives.{asks_for, given_by, is_noted, news_of, seen_of, side_of};
ghost use Rattle.fk_natives.specs.declared.service.Side.TheVariants as sides;
ghost use Rattle.fk_responders.specs.Notes as facts;
ghost use Rattle.fk_responders.specs.Notes.{note_of};
ghost use Rattle.fk_trace.specs.Taps.{noted};

use crate::drafts::{Drafts, write_reply, write_said, write_taken};
use fk_model::{NoMemory, Turn};
use fk_natives::{Heard, Service, Side};
use fk_responders::{Note, Table};
use std::alloc::Global;

/// Does what the server in it does, and keeps the notes of it that an observer sees.
#[derive(Drop)]
pub struct Tap<S: Service + Drop> {
    inner: S,
    /// Its observer's place in the table.
    watch: u8,
    notes: Vec<Note>,
    drafts: Drafts,
}

/// Whether a server asks for nothing: it is its client's turn.
fn is_clients_turn<S: Service>(inner: &S) -> bool
    ensures { result ≡ is_none (asks_for (S.meaning inner.now)) }
{
    match inner.side() {
        Side::Client => true,
        Side::Idle => false,
        Side::Own => false,
    }
}

/// Whether something is noted of a server when it hears this.
fn is_noted<S: Service>(inner: &S, heard: Heard<'_>) -> bool
    ensures { result ≡ is_noted (asks_for (S.meaning inner.now)) (news_of heard.entry) }
{
    match heard {
        Heard::Taken { .. } | Heard::Words(_) | Heard::Ended => true,
        Heard::Over => is_clients_turn(inner),
        Heard::Given(_) => false,
    }
}

/// Keeps a note where its observer sees it.
fn keep(notes: &mut Vec<Note>, watch: u8, table: &Table, note: &Note)
    requires { vec_len notes.old < vec_capacity notes.old }
    ensures kept { noted notes.new.items ≡ noted notes.old.items ++ seen_of watch (note_of note.now ∷ []) }
    ensures len { vec_len notes.new ≤ vec_len notes.old + 1 }
    ensures capacity { vec_capacity notes.new ≡ vec_capacity notes.old }
{
    if table.sees(watch, note) {
        notes.push_reserved(*note);
    }
}

/// Keeps the note of a talk that is taken up.
fn keep_taken(
    notes: &mut Vec<Note>,
    watch: u8,
    table: &Table,
    draft: &mut Note,
    turn: Turn,
    moved: u16,
)
    requires { vec_len notes.old < vec_capacity notes.old }
    ensures kept { noted notes.new.items ≡ noted notes.old.items ++ seen_of watch (facts.Taken turn moved ∷ []) }
    ensures len { vec_len notes.new ≤ vec_len notes.old + 1 }
    ensures capacity { vec_capacity notes.new ≡ vec_capacity notes.old }
{
    write_taken(draft, turn, moved);
    keep(notes, watch, table, draft);
}

/// Keeps the note of words that the client has sent.
fn keep_said(notes: &mut Vec<Note>, watch: u8, table: &Table, draft: &mut Note, words: &[u64])
    requires room { vec_len notes.old < vec_capacity notes.old }
    requires few { length words.now ≤ 64 }
    ensures { noted notes.new.items ≡ noted notes.old.items ++ seen_of watch (facts.Said words.now ∷ []) }
{
    write_said(draft, words);
    keep(notes, watch, table, draft);
}

/// Keeps the note of a client that hands over.
fn keep_over(notes: &mut Vec<Note>, watch: u8, table: &Table)
    requires { vec_len notes.old < vec_capacity notes.old }
    ensures kept { noted notes.new.items ≡ noted notes.old.items ++ seen_of watch (facts.Over ∷ []) }
    ensures len { vec_len notes.new ≤ vec_len notes.old + 1 }
    ensures capacity { vec_capacity notes.new ≡ vec_capacity notes.old }
{
    keep(notes, watch, table, &Note::Over);
}

/// Keeps the note of a reply of these words.
fn keep_reply(notes: &mut Vec<Note>, watch: u8, table: &Table, draft: &mut Note, words: &[u64])
    requires room { vec_len notes.old < vec_capacity notes.old }
    requires few { length words.now ≤ 64 }
    ensures { noted notes.new.items ≡ noted notes.old.items ++ seen_of watch (facts.Reply words.now ∷ []) }
{
    write_reply(draft, words);
    keep(notes, watch, table, draft);
}

/// Keeps the note of the reply that a server asks to give at its own turn.
#[tactic(auto, using(crate::proofs::Notes::given_own))]
fn keep_left<S: Service>(
    notes: &mut Vec<Note>,
    watch: u8,
    table: &Table,
    draft: &mut Note,
    inner: &S,
)
    requires room { vec_len notes.old < vec_capacity notes.old }
    requires own { side_of (S.meaning inner.now) ≡ sides.Own }
    ensures { noted notes.new.items ≡ noted notes.old.items ++ seen_of watch (facts.Reply (given_by (asks_for (S.meaning inner.now))) ∷ []) }
{
    keep_reply(notes, watch, table, draft, inner.left());
}

/// Keeps the notes of a talk that is taken up at the server's turn, and of the reply to that.
#[tactic(auto, using(crate::proofs::Notes::seen_both))]
fn keep_taken_and_reply<S: Service>(
    notes: &mut Vec<Note>,
    watch: u8,
    table: &Table,
    drafts: &mut Drafts,
    moved: u16,
    inner: &S,
)
    requires room { vec_len notes.old + 2 ≤ vec_capacity notes.old }
    requires own { side_of (S.meaning inner.now) ≡ sides.Own }
    ensures { noted notes.new.items ≡ noted notes.old.items
        ++ seen_of watch (facts.Taken turns.Server moved ∷ facts.Reply (given_by (asks_for (S.meaning inner.now))) ∷ []) }
{
    keep_taken(notes, watch, table, &mut drafts.taken, Turn::Server, moved);
    keep_left(notes, watch, table, &mut drafts.reply, inner);
}

/// Keeps the notes of a client that hands over, and of the reply to that.
#[tactic(auto, using(crate::proofs::Notes::seen_both))]
fn keep_over_and_reply<S: Service>(
    notes: &mut Vec<Note>,
    watch: u8,
    table: &Table,
    draft: &mut Note,
    inner: &S,
)
    requires room { vec_len notes.old + 2 ≤ vec_capacity notes.old }
    requires own { side_of (S.meaning inner.now) ≡ sides.Own }
    ensures { noted notes.new.items ≡ noted notes.old.items
        ++ seen_of watch (facts.Over ∷ facts.Reply (given_by (asks_for (S.meaning inner.now))) ∷ []) }
{
    keep_over(notes, watch, table);
    keep_left(notes, watch, table, draft, inner);
}

/// Keeps the note of a talk that has ended.
fn keep_ended(notes: &mut Vec<Note>, watch: u8, table: &Table)
    requires { vec_len notes.old < vec_capacity notes.old }
    ensures { noted notes.new.items ≡ noted notes.old.items ++ seen_of watch (facts.Ended ∷ []) }
{
    keep(notes, watch, table, &Note::Ended);
}

impl<S: Service + Drop> Tap<S> {
    /// A tap of a server, by the observer at a place of the table, before anything is noted.
    pub fn new(alloc: Global, inner: S, watch: u8) -> Tap<S>
        requires { watch ≤ 2 }
        ensures watch { result.watch ≡ watch }
        ensures inner { result.inner ≡ inner }
        ensures notes { result.notes.items ≡ [] }
    {
        Tap {
            inner,
            watch,
            notes: Vec::new(alloc),
            drafts: Drafts::new(),
        }
    }

    /// The notes, in order.
    pub fn notes(&self) -> &[Note]
        ensures { result.now ≡ self.now.notes.items }
    {
        &self.notes
    }
}

impl<S: Service + Drop> Service for Tap<S> {
    ghost use Rattle.std.specs.Prelude as std_words;
    ghost use Rattle.fk_natives.specs.Natives as natives;
    ghost use Rattle.fk_trace.specs.Taps as taps;

    ghost meaning = { λ t. natives.OfTap t.watch (taps.noted t.notes.items) (S.meaning t.inner) };

    ghost has_room = { λ t. taps.has_room (S.has_room t.inner) (std_words.vec_len t.notes) (std_words.vec_capacity t.notes) };

    fn side(&self) -> Side {
        self.inner.side()
    }

    fn left(&self) -> &[u64] {
        self.inner.left()
    }

    fn reserve(&mut self) -> Result<(), NoMemory> {
        self.inner.reserve()?;
        match self.notes.reserve(2) {
            Ok(()) => Ok(()),
            Err(_) => Err(NoMemory),
        }
    }

    fn grows(&self, heard: Heard<'_>) -> bool {
        is_noted(&self.inner, heard) || self.inner.grows(heard)
    }

    #[tactic(auto, using(crate::proofs::Notes::own_taken, crate::proofs::Notes::own_over))]
    fn absorb(&mut self, table: &Table, heard: Heard<'_>) {
        let hands_over = is_clients_turn(&self.inner);
        self.inner.absorb(table, heard);
        match heard {
            Heard::Taken {
                turn: Turn::Client,
                moved,
                ..
            } => {
                let draft = &mut self.drafts.taken;
                keep_taken(
                    &mut self.notes,
                    self.watch,
                    table,
                    draft,
                    Turn::Client,
                    moved,
                );
            }
            Heard::Taken {
                turn: Turn::Server,
                moved,
                ..
            } => {
                let drafts = &mut self.drafts;
                keep_taken_and_reply(
                    &mut self.notes,
                    self.watch,
                    table,
                    drafts,
                    moved,
                    &self.inner,
                );
            }
            Heard::Words(words) => {
                let draft = &mut self.drafts.said;
                keep_said(&mut self.notes, self.watch, table, draft, words);
            }
            Heard::Over => {
                if hands_over {
                    let draft = &mut self.drafts.reply;
                    keep_over_and_reply(&mut self.notes, self.watch, table, draft, &self.inner);
                }
            }
            Heard::Given(_) => {}
            Heard::Ended => keep_ended(&mut self.notes, self.watch, table),
        }
    }

    fn alias(&self) -> Option<&str> {
        self.inner.alias()
    }

    fn printed(&self) -> &[u64] {
        self.inner.printed()
    }
}
