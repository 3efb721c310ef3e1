//! Whom a thread waits for, where that is one thread.
use crate::steps::talk_of;
use crate::why::Known;
use fk_model::{Body, Mode, Peer, Stage, Who};
use fk_store::Store;
use lens_text::{Sheet, handled, next_stage, push_between, push_path};

/// Why a thread waits for another.
#[derive(Clone, Copy)]
pub enum Cause {
    /// For a mutex that the other has locked.
    Mutex(Who),
    /// For the other side of its talk.
    Server,
    Client,
    /// For who has taken its fault, or who alone could take it.
    Fault,
    /// For who holds its space.
    Hold,
    /// For who alone could accept its connect to a port.
    Connect(Who),
}

/// A thread that another waits for, and why.
#[derive(Clone, Copy)]
pub struct Wait {
    pub other: Who,
    pub cause: Cause,
}

/// The only thread of a space; none where it has none or several.
fn only_thread(store: &Store, space: u32) -> Option<Who> {
    let mut found = None;
    for slot in 0..240u8 {
        let who = Who { space, slot };
        if store.thread(who).is_some() {
            if found.is_some() {
                return None;
            }
            found = Some(who);
        }
    }
    found
}

/// The only thread that could take what stands at a port.
fn only_server(store: &Store, port: Who) -> Option<Who> {
    match store.at(port) {
        Some(
            Body::Port {
                set: Some(_),
                served: false,
            },
        ) => only_thread(store, port.space),
        _ => None,
    }
}

/// Whom a client waits for in its talk.
fn server_of(store: &Store, client: Who) -> Option<Who> {
    let Some(talk) = talk_of(store, client) else {
        return None;
    };
    match talk.peer {
        Peer::Thread(server) => Some(server),
        Peer::Service => None,
        Peer::Parked => only_server(store, talk.port),
    }
}

/// A thread that is waited for by a cause, if there is one.
fn waits_for(other: Option<Who>, cause: Cause) -> Option<Wait> {
    match other {
        Some(other) => Some(Wait { other, cause }),
        None => None,
    }
}

/// Whom a thread waits for at a stage.
fn wait_at(known: &Known<'_, '_, '_>, who: Who, stage: &Stage) -> Option<Wait> {
    let store = known.scene.store;
    match stage {
        Stage::MutexLock { m } => match handled(store, who.space, *m) {
            Some(mutex) => waits_for(known.lockers.get(&mutex).copied(), Cause::Mutex(mutex)),
            None => None,
        },
        Stage::Connect { h } => match handled(store, who.space, *h) {
            Some(port) => waits_for(only_server(store, port), Cause::Connect(port)),
            None => None,
        },
        Stage::ClientReceive { .. }
        | Stage::ClientSend { .. }
        | Stage::ClientOver
        | Stage::ClientOverRef { .. }
        | Stage::ClientReceiveRef { .. } => waits_for(server_of(store, who), Cause::Server),
        Stage::ServerReceive { .. }
        | Stage::ServerSend { .. }
        | Stage::ServerOver
        | Stage::ServerOverRef { .. }
        | Stage::ServerReceiveRef { .. } => waits_for(store.client_of(who), Cause::Client),
        _ => None,
    }
}

/// Whom a thread waits for that has no ready move, where that is one thread.
pub fn wait_of(known: &Known<'_, '_, '_>, who: Who) -> Option<Wait> {
    let store = known.scene.store;
    let Some(thread) = store.thread(who) else {
        return None;
    };
    match thread.mode {
        Mode::Halted(_) | Mode::Native => return None,
        _ if thread.stops > 0 => return None,
        _ => {}
    }
    if let Some(fault) = &thread.fault {
        let other = match fault.taker {
            Some(Peer::Thread(taker)) => Some(taker),
            _ => only_server(store, fault.port),
        };
        return waits_for(other, Cause::Fault);
    }
    if store.is_frozen(who.space) {
        return waits_for(store.decider(who), Cause::Hold);
    }
    match next_stage(store, who) {
        Some(stage) => wait_at(known, who, &stage),
        None => None,
    }
}

/// Adds why a thread waits for another, up to that one's path.
pub fn push_before(sheet: &Sheet, store: &Store, cause: Cause) {
    match cause {
        Cause::Mutex(mutex) => push_between(
            sheet,
            store,
            b"waits for the mutex ",
            mutex,
            b", which ",
        ),
        Cause::Server => sheet.put(b"waits for its server "),
        Cause::Client => sheet.put(b"waits for its client "),
        Cause::Fault => sheet.put(b"waits until its fault is done by "),
        Cause::Hold => sheet.put(b"is kept still by the hold of "),
        Cause::Connect(port) => {
            sheet.put(b"waits until its connect to ");
            push_path(sheet, store, port);
            sheet.put(b" is accepted by ");
        }
    }
}
