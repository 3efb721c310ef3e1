//! Calls that end with a talk.
ghost use Rattle.std.specs.Prelude.{◌≡◌, ◌||◌, ℕ, Bool, option_map};
ghost use Rattle.fk_model.specs.Places.{Path};
ghost use Rattle.fk_model.specs.Places.Ptr.{At};
ghost use Rattle.fk_model.specs.Talks as talks;
ghost use Rattle.fk_model.specs.Valid.{kind_there};
ghost use Rattle.fk_model.specs.World.{World};
ghost use Rattle.fk_store.specs.Store.Bodies.{thread_by};
ghost use Rattle.fk_store.specs.Store.Paths.{path, place};
ghost use Rattle.fk_store.specs.Store.World.{world};
ghost use Rattle.fk_changes.specs.Deaths.Ends.{begins_talking, talking, ended_where, is_in_list, ends_led};

use fk_model::call::{
    CLIENT_OVER, CLIENT_OVER_RECEIVE, CLIENT_OVER_REF, CLIENT_RECEIVE, CLIENT_RECEIVE_REF,
    CLIENT_SEND, CLIENT_SEND_OVER_RECEIVE, SERVER_OVER, SERVER_OVER_RECEIVE, SERVER_OVER_REF,
    SERVER_RECEIVE, SERVER_RECEIVE_REF, SERVER_SEND, SERVER_SEND_OVER_RECEIVE,
};
use fk_model::status::ENDED;
use fk_model::{Mode, Thread, Turn, Who};
use fk_store::Store;

/// The call with this code begins with a Send, an Over or a Receive on this side of a talk.
fn begins_talking(side: Turn, code: u64) -> bool
    ensures { result ≡ begins_talking side code }
{
    match side {
        Turn::Client => matches!(
            code,
            CLIENT_SEND_OVER_RECEIVE
                | CLIENT_OVER_RECEIVE
                | CLIENT_RECEIVE
                | CLIENT_SEND
                | CLIENT_OVER
                | CLIENT_OVER_REF
                | CLIENT_RECEIVE_REF
        ),
        Turn::Server => matches!(
            code,
            SERVER_RECEIVE
                | SERVER_SEND
                | SERVER_OVER
                | SERVER_SEND_OVER_RECEIVE
                | SERVER_OVER_RECEIVE
                | SERVER_OVER_REF
                | SERVER_RECEIVE_REF
        ),
    }
}

/// A thread is at a Send, an Over or a Receive on this side of a talk.
fn is_talking(thread: &Thread, side: Turn) -> bool
    ensures { (p : ℕ → Path) → result ≡ talks.is_talking side (thread_by p thread.now).mode }
{
    match thread.mode {
        Mode::Calling => begins_talking(side, thread.regs[0]),
        Mode::Running | Mode::Halted(_) | Mode::Native => false,
    }
}

/// The thread in a slot is at a Send, an Over or a Receive on this side of a talk, so that its call
/// ends with the talk.
pub fn is_at_talk(store: &Store, who: Who, side: Turn) -> bool
    ensures { result ≡ talking side ((world store.now).body (place (path store.now) who)) }
{
    match store.thread(who) {
        Some(thread) => is_talking(thread, side),
        None => false,
    }
}

/// Ends the call of a thread, if it is at a Send, an Over or a Receive on this side of a talk.
fn end_talking(store: &mut Store, who: Who, side: Turn)
    ensures ends { (test : Path → Bool) (w : World) → world store.old ≡ ended_where test w → world store.new
        ≡ ended_where (λ q. test q || is_in_list q (talks.talking_end w side (At (place (path store.old) who)))) w }
    ensures kinds { kind_there (world store.new) ≡ kind_there (world store.old) }
    ensures paths { path store.new ≡ path store.old }
{
    if is_at_talk(store, who, side) {
        store.end_call(who, ENDED);
    }
}

/// Ends the call of a thread that may be missing, if it is at a Send, an Over or a Receive on this side of a talk.
pub fn end_each(store: &mut Store, who: Option<Who>, side: Turn)
    ensures ends { (test : Path → Bool) (w : World) → world store.old ≡ ended_where test w → world store.new
        ≡ ended_where (λ q. test q || is_in_list q (ends_led w side (option_map (place (path store.old)) who))) w }
    ensures kinds { kind_there (world store.new) ≡ kind_there (world store.old) }
    ensures paths { path store.new ≡ path store.old }
{
    if let Some(who) = who {
        end_talking(store, who, side);
    }
}
