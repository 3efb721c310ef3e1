//! Who is at the other side of what a stage deals with.
use fk_model::{Peer, Stage, Talk, Thread, Who};
use fk_store::Store;

/// The talk that a thread has as a client.
pub fn talk_of(store: &Store, client: Who) -> Option<Talk> {
    match store.thread(client) {
        Some(thread) => thread.talk,
        None => None,
    }
}

/// Who serves a thread's talk: a thread, or the port of a native server.
fn server_of(store: &Store, client: Who) -> Option<Who> {
    match talk_of(store, client) {
        Some(talk) => match talk.peer {
            Peer::Thread(server) => Some(server),
            Peer::Service => Some(talk.port),
            Peer::Parked => None,
        },
        None => None,
    }
}

/// The other side of a stage: of a client's who serves it, of a server's its client, and of `fault_done` the thread whose fault that is. None
/// of the other stages.
pub fn other_side(store: &Store, who: Who, stage: &Stage) -> Option<Who> {
    match stage {
        Stage::ClientReceive { .. }
        | Stage::ClientSend { .. }
        | Stage::ClientOver
        | Stage::ClientOverRef { .. }
        | Stage::ClientReceiveRef { .. }
        | Stage::Disconnect => server_of(store, who),
        Stage::ServerReceive { .. }
        | Stage::ServerSend { .. }
        | Stage::ServerOver
        | Stage::ServerOverRef { .. }
        | Stage::ServerReceiveRef { .. }
        | Stage::ServerEnd => store.client_of(who),
        Stage::FaultDone => store.faulter_of(who),
        _ => None,
    }
}

/// The port of what a stage ends: a talk, or a fault.
pub fn ended_port(store: &Store, who: Who, stage: &Stage) -> Option<Who> {
    let ended = match stage {
        Stage::Disconnect => Some(who),
        Stage::ServerEnd => store.client_of(who),
        Stage::FaultDone => store.faulter_of(who),
        _ => None,
    };
    let Some(one) = ended else {
        return None;
    };
    let Some(thread) = store.thread(one) else {
        return None;
    };
    match stage {
        Stage::FaultDone => match &thread.fault {
            Some(fault) => Some(fault.port),
            None => None,
        },
        _ => match &thread.talk {
            Some(talk) => Some(talk.port),
            None => None,
        },
    }
}
