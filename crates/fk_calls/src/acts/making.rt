//! Making an act.
ghost use Rattle.std.specs.Prelude.{◌≡◌, ◌≤◌, ◌+◌, ℕ, [], ◌∷◌, take, length, IsSome, Some};
ghost use Rattle.fk_model.specs.Places.{Path};
ghost use Rattle.fk_model.specs.Reach.{words_at};
ghost use Rattle.fk_model.specs.TransferRows.{overwritten};
ghost use Rattle.fk_model.specs.Valid.{kind_there};
ghost use Rattle.fk_model.specs.World.{apply, apply_all};
ghost use Rattle.fk_model.specs.World.Change.{PutPage};
ghost use Rattle.fk_store.specs.Store.Moves.{said_by};
ghost use Rattle.fk_store.specs.Store.Paths.{path};
ghost use Rattle.fk_store.specs.Store.World.{world, IsLive, IsSpace};
ghost use Rattle.fk_plans.specs.Plans.Hearers.{told_port, IsPadded};
ghost use Rattle.fk_calls.specs.Acts.Acts.{changes_of, told_of, IsAct, IsGift};

use crate::acts::act::Act;
use fk_changes::threads::{Answers, advance, answered, count_moved, finish};
use fk_model::status::FULL;
use fk_model::{Peer, Said, Talk, Turn, Who};
use fk_store::Store;

/// Words are written into a page.
fn write(page: &mut [u64; 64], words: &[u64], into: u8, count: u8)
    requires few { count ≤ length words.now }
    requires fits { into + count ≤ 64 }
    ensures { page.new ≡ overwritten page.old into (take count words.now) }
{
    let into = into as usize;
    let count = count as usize;
    page[into..into + count].copy_from_slice(&words[..count]);
}

/// Words go to a page that is there.
fn put_words(store: &mut Store, words: &[u64], to: (u32, u8), into: u8, count: u8)
    requires few { count ≤ length words.now }
    requires fits { into + count ≤ 64 }
    requires space { IsSpace store.old to.0 }
    requires page { IsSome ((world store.old).page (path store.old to.0) to.1) }
    ensures world { let written = overwritten (words_at (world store.old) (path store.old to.0) to.1) into (take count words.now) in
        world store.new ≡ apply (PutPage (path store.old to.0) to.1 written) (world store.old) }
    ensures kinds { kind_there (world store.new) ≡ kind_there (world store.old) }
    ensures paths { path store.new ≡ path store.old }
{
    let Some(page) = store.page(to.0, to.1) else {
        unreachable!()
    };
    let mut written = *page;
    write(&mut written, words, into, count);
    match store.put_page(to.0, to.1, &written) {
        Ok(()) => {}
        Err(_) => unreachable!(),
    }
}

/// A client at its connect has a talk with a port's server.
#[tactic(auto, unfolding(fk_model::specs::World::apply_all))]
fn takes(store: &mut Store, port: Who, client: Who) -> Said
    requires live { IsLive store.old port }
    ensures world { world store.new ≡ apply_all (changes_of (world store.old) (path store.old) port [] (Act.Takes client)) (world store.old) }
    ensures said { said_by (path store.new) result ≡ told_of (path store.old) port (Act.Takes client) }
    ensures port { told_port result ≡ Some port }
    ensures padded { IsPadded result }
{
    let turn = Turn::Client;
    let talk = Talk {
        port,
        peer: Peer::Service,
        turn,
        moved: 0,
    };
    store.set_talk(client, Some(talk));
    finish(store, client, Answers::Nothing);
    Said::Taken {
        port,
        client,
        resumed: false,
        turn,
        moved: 0,
    }
}

/// Words go to a client that receives them.
#[tactic(auto, unfolding(fk_model::specs::World::apply_all))]
pub fn gives(store: &mut Store, words: &[u64], client: Who, to: (u32, u8), into: u8, count: u8)
    requires gift { IsGift (world store.old) (path store.old) words.now client to into count }
    ensures world { (port : Who) → world store.new
        ≡ apply_all (changes_of (world store.old) (path store.old) port words.now (Act.Gives client to into count)) (world store.old) }
    ensures paths { path store.new ≡ path store.old }
{
    put_words(store, words, to, into, count);
    count_moved(store, client, count);
    advance(store, client, u64::from(count));
}

/// A client that receives has the turn.
#[tactic(auto, unfolding(fk_model::specs::World::apply_all))]
pub fn passes(store: &mut Store, client: Who, came: Option<bool>)
    ensures world { (port : Who) → world store.new
        ≡ apply_all (changes_of (world store.old) (path store.old) port [] (Act.Passes client came)) (world store.old) }
    ensures paths { path store.new ≡ path store.old }
{
    store.pass_turn(client, Turn::Client);
    finish(store, client, answered(came));
}

/// Makes an act of a port's server, which gives these words, and tells it.
#[tactic(auto, unfolding(fk_model::specs::World::apply_all))]
pub fn make(store: &mut Store, port: Who, words: &[u64], act: &Act) -> Said
    requires fits { IsAct store.old port words.now act.now }
    ensures world { world store.new
        ≡ apply_all (changes_of (world store.old) (path store.old) port words.now act.now) (world store.old) }
    ensures said { said_by (path store.new) result ≡ told_of (path store.old) port act.now }
    ensures port { told_port result ≡ Some port }
    ensures padded { IsPadded result }
{
    match *act {
        Act::Takes { client } => takes(store, port, client),
        Act::Resumes {
            client,
            turn,
            moved,
        } => {
            store.set_peer(client, Peer::Service);
            Said::Taken {
                port,
                client,
                resumed: true,
                turn,
                moved,
            }
        }
        Act::GivesNothing => Said::Given { port, len: 0 },
        Act::Gives {
            client,
            to,
            into,
            count,
        } => {
            gives(store, words, client, to, into, count);
            Said::Given { port, len: count }
        }
        Act::Fills { client } => {
            store.end_call(client, FULL);
            Said::Full { port }
        }
        Act::Passes { client, came } => {
            store.pass_turn(client, Turn::Client);
            finish(store, client, answered(came));
            Said::Over { port }
        }
    }
}

/// What an act of a port's server tells, as things are named before it.
pub fn said_of(port: Who, act: &Act) -> Said
    ensures said { (p : ℕ → Path) → said_by p result ≡ told_of p port act.now }
    ensures port { told_port result ≡ Some port }
{
    match *act {
        Act::Takes { client } => Said::Taken {
            port,
            client,
            resumed: false,
            turn: Turn::Client,
            moved: 0,
        },
        Act::Resumes {
            client,
            turn,
            moved,
        } => Said::Taken {
            port,
            client,
            resumed: true,
            turn,
            moved,
        },
        Act::GivesNothing => Said::Given { port, len: 0 },
        Act::Gives { count, .. } => Said::Given { port, len: count },
        Act::Fills { .. } => Said::Full { port },
        Act::Passes { .. } => Said::Over { port },
    }
}
