//! Whom a move may change.
use crate::steps::sides::other_side;
use fk_model::{Mode, Move, Stage, Who};
use fk_store::Store;
use lens_text::{handled, next_stage};

/// Whom a move may change, where these are few: the mover, its pick, another.
pub type Few = [Who; 3];

/// Whom the stage that a thread makes next may change besides its pick and that thread: the other side of a talk, the mutex that it names, or nobody else.
/// None where it may change more.
fn changed_at(store: &Store, who: Who) -> Option<Who> {
    let Some(stage) = next_stage(store, who) else {
        return None;
    };
    match stage {
        // What is looked up or read changes the caller alone.
        Stage::Search { .. }
        | Stage::Locate { .. }
        | Stage::GetState { .. }
        | Stage::PageRead { .. }
        | Stage::PageNext { .. }
        | Stage::Wait { .. } => Some(who),
        Stage::ClientReceive { .. }
        | Stage::ClientReceiveRef { .. }
        | Stage::ServerReceiveRef { .. }
        | Stage::ClientSend { .. }
        | Stage::ClientOver
        | Stage::ServerReceive { .. }
        | Stage::ServerSend { .. }
        | Stage::ServerOver => Some(other_side(store, who, &stage).unwrap_or(who)),
        Stage::MutexLock { m } | Stage::MutexTrylock { m } | Stage::MutexUnlock { m } => {
            Some(handled(store, who.space, m).unwrap_or(who))
        }
        _ => None,
    }
}

/// Whom a move may change, where these are few: the mover, its pick, and of a call one more at most. None where it may change more.
pub fn few_changed(store: &Store, one: &Move) -> Option<Few> {
    let who = one.who;
    let other = match store.thread(who) {
        Some(thread) => match thread.mode {
            Mode::Running => who,
            Mode::Calling => match changed_at(store, who) {
                Some(other) => other,
                None => return None,
            },
            _ => return None,
        },
        // A native server acts.
        None => store.client_at(who).unwrap_or(who),
    };
    Some([who, one.pick.unwrap_or(who), other])
}
