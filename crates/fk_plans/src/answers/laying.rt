//! An answer that is laid into the caller's room.
ghost use Rattle.std.specs.Prelude.{◌≡◌, ℕ, IsSome};
ghost use Rattle.fk_model.specs.Outcomes.Said.{Answered};
ghost use Rattle.fk_model.specs.Places.{Path};
ghost use Rattle.fk_model.specs.Reach.{words_at};
ghost use Rattle.fk_model.specs.declared.statuses.status.TheConstants.{OK as DONE};
ghost use Rattle.fk_changes.specs.Records.Settings.{record_there};
ghost use Rattle.fk_store.specs.Store.Moves.{said_by};
ghost use Rattle.fk_store.specs.Store.Paths.{path, place};
ghost use Rattle.fk_store.specs.Store.World.{world};
ghost use Rattle.fk_changes.specs.Threads.Answers.{all_four, listed};
ghost use Rattle.fk_plans.specs.Plans.Hearers.{IsPadded};
ghost use Rattle.fk_plans.specs.Answers.Rooms.{IsRoom};

use crate::plans::record_at;
use fk_changes::threads::{Answers, Four};
use fk_model::status::OK;
use fk_model::{Said, Who};
use fk_store::Store;

/// Lays a status and answers into the room.
pub fn lay(said: &mut Said, status: u8, answers: Answers)
    requires { IsRoom said.old }
    ensures said { (p : ℕ → Path) → said_by p said.new ≡ Answered status (listed answers) }
    ensures padded { IsPadded said.new }
{
    let Said::Answer(answer) = said else {
        return;
    };
    answer.status = status;
    match answers {
        Answers::Nothing => {}
        Answers::One(a) => {
            answer.words[0] = a;
            answer.len = 1;
        }
        Answers::Two(a, b) => {
            answer.words[0] = a;
            answer.words[1] = b;
            answer.len = 2;
        }
        Answers::Three(a, b, c) => {
            answer.words[0] = a;
            answer.words[1] = b;
            answer.words[2] = c;
            answer.len = 3;
        }
    }
}

/// Lays the status of a stage that is done, and four answers, into the room.
pub fn lay_four(said: &mut Said, answers: Four)
    requires { IsRoom said.old }
    ensures said { (p : ℕ → Path) → said_by p said.new ≡ Answered DONE (all_four answers) }
    ensures padded { IsPadded said.new }
{
    let Said::Answer(answer) = said else {
        return;
    };
    answer.status = OK;
    answer.words[0] = answers.first;
    answer.words[1] = answers.second;
    answer.words[2] = answers.third;
    answer.words[3] = answers.fourth;
    answer.len = 4;
}

/// Lays the status of a stage that is done, and 64 words, into the room.
fn lay_words(said: &mut Said, words: &[u64; 64])
    requires { IsRoom said.old }
    ensures said { (p : ℕ → Path) → said_by p said.new ≡ Answered DONE words.now }
    ensures padded { IsPadded said.new }
{
    let Said::Answer(answer) = said else {
        return;
    };
    answer.status = OK;
    answer.words.copy_from_slice(words);
    answer.len = 64;
}

/// Lays the status of a stage that is done, and the words of a page, into the room.
pub fn lay_page(store: &Store, said: &mut Said, space: u32, page: u8)
    requires room { IsRoom said.old }
    requires page { IsSome ((world store.now).page (path store.now space) page) }
    ensures said { (p : ℕ → Path) → said_by p said.new ≡ Answered DONE (words_at (world store.now) (path store.now space) page) }
    ensures padded { IsPadded said.new }
{
    match store.page(space, page) {
        Some(words) => lay_words(said, words),
        None => unreachable!(),
    }
}

/// Lays the status of a stage that is done, and the words of a record, into the room.
fn lay_shown(said: &mut Said, shown: &[u64; 32])
    requires { IsRoom said.old }
    ensures said { (p : ℕ → Path) → said_by p said.new ≡ Answered DONE shown.now }
    ensures padded { IsPadded said.new }
{
    let Said::Answer(answer) = said else {
        return;
    };
    answer.status = OK;
    answer.words[..32].copy_from_slice(shown);
    answer.len = 32;
}

/// Lays the status of a stage that is done, and the record of an object, into the room.
pub fn lay_record(store: &Store, said: &mut Said, object: Who)
    requires { IsRoom said.old }
    ensures said { (p : ℕ → Path) → said_by p said.new ≡ Answered DONE (record_there ((world store.now).body (place (path store.now) object))) }
    ensures padded { IsPadded said.new }
{
    lay_shown(said, &record_at(store, object));
}
