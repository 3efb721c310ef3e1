//! Why a stage that a thread is free to make isn't ready.
use crate::why::barred::barred_of;
use crate::why::holds::{push_hold, push_holds};
use crate::why::known::Known;
use crate::why::places::push_whereabouts;
use crate::why::talks::{push_port, push_talk};
use fk_model::{Body, Stage, Who};
use fk_store::Store;
use lens_text::{Scene, Sheet, handled, object_named, push_between, push_path};

/// Adds that a hold waits for another's of that space, or for one of a porter beneath it.
fn push_held(sheet: &Sheet, scene: Scene<'_>, space: Who) {
    let store = scene.store;
    if let Some(
        Body::Space {
            holder: Some(holder),
            ..
        },
    ) = store.at(space)
    {
        push_between(sheet, store, b"waits until ", space, b" is released");
        return push_whereabouts(sheet, scene, b" by ", *holder);
    }
    sheet.put(b"waits until a porter releases a space beneath ");
    push_path(sheet, store, space);
}

/// The object that a stage names and waits for.
fn awaited(store: &Store, space: u32, stage: &Stage) -> Option<Who> {
    match *stage {
        Stage::SpaceHold { s, x } => object_named(store, space, s, x),
        Stage::MutexLock { m: handle }
        | Stage::CondAsleep { c: handle, .. }
        | Stage::Connect { h: handle }
        | Stage::Wait { set: handle } => handled(store, space, handle),
        _ => None,
    }
}

/// Adds what a stage waits for by what it names.
fn push_awaited(sheet: &Sheet, known: &Known<'_, '_, '_>, space: u32, stage: &Stage) {
    let scene = known.scene;
    let store = scene.store;
    let Some(named) = awaited(store, space, stage) else {
        return push_holds(sheet, scene);
    };
    match stage {
        Stage::SpaceHold { .. } => push_held(sheet, scene, named),
        Stage::MutexLock { .. } => {
            push_between(sheet, store, b"waits until the mutex ", named, b" is");
            match known.lockers.get(&named) {
                Some(locker) => push_whereabouts(sheet, scene, b" unlocked, which ", *locker),
                None => sheet.put(b" unlocked, which no move so far"),
            }
            sheet.put(b" locked");
        }
        Stage::CondAsleep { .. } => push_between(
            sheet,
            store,
            b"sleeps until the condition ",
            named,
            b" is signalled",
        ),
        Stage::Connect { .. } => push_port(
            sheet,
            scene,
            b"waits until its connect to ",
            named,
            b" is accepted",
        ),
        _ => {
            sheet.put(b"waits until a client or a fault comes to a port of the set ");
            push_path(sheet, store, named);
        }
    }
}

/// Adds why a stage isn't ready, of a thread that is free or of a porter: the hold that is known to bar it, or who is waited for.
pub fn push_blocked(sheet: &Sheet, known: &Known<'_, '_, '_>, who: Who, stage: &Stage) {
    let scene = known.scene;
    let store = scene.store;
    if let Some(object) = barred_of(store, who, stage) {
        push_between(
            sheet,
            store,
            b"would change ",
            object,
            b" or a pointer to it",
        );
        return push_hold(sheet, scene, b", which the hold of ", object, b" bars");
    }
    match stage {
        Stage::ClientReceive { .. }
        | Stage::ClientSend { .. }
        | Stage::ClientOver
        | Stage::ClientOverRef { .. }
        | Stage::ClientReceiveRef { .. } => {
            push_talk(sheet, scene, who);
        }
        Stage::ServerReceive { .. }
        | Stage::ServerSend { .. }
        | Stage::ServerOver
        | Stage::ServerOverRef { .. }
        | Stage::ServerReceiveRef { .. } => {
            match store.client_of(who) {
                Some(client) => push_whereabouts(sheet, scene, b"waits for its client ", client),
                None => sheet.put(b"has no client"),
            }
        }
        _ => push_awaited(sheet, known, who.space, stage),
    }
}
