//! What a porter is told.
ghost use Rattle.std.specs.Prelude.{◌≡◌, ◌+◌, ◌≤◌, ℕ, take, drop, IsSome, Some};
ghost use Rattle.fk_model.specs.Outcomes.Said.{Answered, Words as Told};
ghost use Rattle.fk_model.specs.Places.Ptr.{At};
ghost use Rattle.fk_model.specs.Places.{Path};
ghost use Rattle.fk_model.specs.Reach.{words_at};
ghost use Rattle.fk_model.specs.declared.statuses.status.TheConstants.{OK as DONE};
ghost use Rattle.fk_store.specs.Store.Moves.{said_by};
ghost use Rattle.fk_store.specs.Store.Paths.{path, place};
ghost use Rattle.fk_store.specs.Store.World.{world};
ghost use Rattle.fk_changes.specs.Threads.Answers.{all_four, listed};
ghost use Rattle.fk_plans.specs.Plans.Verdicts.{hearer, news_by, port_of, AreWords, IsNews};
ghost use Rattle.fk_plans.specs.Plans.Hearers.{told_port, IsPadded};

use crate::plans::plan::{News, Words};
use fk_changes::threads::{Answers, Four};
use fk_model::status::OK;
use fk_model::{Answer, Said};
use fk_store::Store;

/// A status and answers.
pub fn told(status: u8, answers: Answers) -> Said
    ensures said { (p : ℕ → Path) → said_by p result ≡ Answered status (listed answers) }
    ensures padded { IsPadded result }
{
    let mut words = [0; 64];
    let len = match answers {
        Answers::Nothing => 0,
        Answers::One(a) => {
            words[0] = a;
            1
        }
        Answers::Two(a, b) => {
            words[0] = a;
            words[1] = b;
            2
        }
        Answers::Three(a, b, c) => {
            words[0] = a;
            words[1] = b;
            words[2] = c;
            3
        }
    };
    Said::Answer(Answer { status, words, len })
}

/// That it is done, and four answers.
pub fn told_four(answers: Four) -> Said
    ensures said { (p : ℕ → Path) → said_by p result ≡ Answered DONE (all_four answers) }
    ensures padded { IsPadded result }
{
    let mut words = [0; 64];
    words[0] = answers.first;
    words[1] = answers.second;
    words[2] = answers.third;
    words[3] = answers.fourth;
    Said::Answer(Answer {
        status: OK,
        words,
        len: 4,
    })
}

/// That it is done, and 64 words.
fn told_all(words: [u64; 64]) -> Said
    ensures said { (p : ℕ → Path) → said_by p result ≡ Answered DONE words }
    ensures padded { IsPadded result }
{
    Said::Answer(Answer {
        status: OK,
        words,
        len: 64,
    })
}

/// Words that come to a port, of a page.
fn told_words(store: &Store, words: &Words) -> Said
    requires { AreWords (path store.now) (world store.now) words.now }
    ensures said { (p : ℕ → Path) → said_by p result ≡ Told
        (At (place p words.now.port)) (take words.now.count (drop words.now.at (words_at (world store.now) (path store.now words.now.space) words.now.page))) }
    ensures port { told_port result ≡ Some words.now.port }
    ensures padded { IsPadded result }
{
    match store.page(words.space, words.page) {
        Some(page) => from_page(*page, words),
        None => unreachable!(),
    }
}

/// What is told to a native server.
pub fn said_of(store: &Store, news: &News) -> Said
    requires { IsNews store.now news.now }
    ensures said { (p : ℕ → Path) → place p (port_of news.now) ≡ place (path store.now) (port_of news.now)
        → said_by p result ≡ news_by (world store.now) (path store.now) news.now }
    ensures port { told_port result ≡ hearer news.now }
    ensures padded { IsPadded result }
{
    match news {
        News::Words(words) => told_words(store, words),
        News::Passed { port } => Said::Over { port: *port },
        News::Ended { port } => Said::Ended { port: *port },
    }
}

/// What is told to a native server of the words of a page. Past them all is 0, so that nobody hears more of the page.
fn from_page(page: [u64; 64], words: &Words) -> Said
    requires { words.now.at + words.now.count ≤ 64 }
    ensures said { (p : ℕ → Path) → said_by p result ≡ Told (At (place p words.now.port)) (take words.now.count (drop words.now.at page)) }
    ensures port { told_port result ≡ Some words.now.port }
    ensures padded { IsPadded result }
{
    let at = words.at as usize;
    let count = words.count as usize;
    let mut told = [0; 64];
    told[..count].copy_from_slice(&page[at..at + count]);
    Said::Words {
        port: words.port,
        words: told,
        len: words.count,
    }
}

/// That it is done, and the words of a page.
pub fn told_page(store: &Store, space: u32, page: u8) -> Said
    requires { IsSome ((world store.now).page (path store.now space) page) }
    ensures said { (p : ℕ → Path) → said_by p result ≡ Answered DONE (words_at (world store.now) (path store.now space) page) }
    ensures padded { IsPadded result }
{
    match store.page(space, page) {
        Some(words) => told_all(*words),
        None => unreachable!(),
    }
}
