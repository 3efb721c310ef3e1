//! Who could end a wait for somebody else.
use crate::why::places::push_whereabouts;
use fk_model::{Body, Peer, Stage, Thread, Who};
use lens_text::{Scene, Sheet, handled, next_stage, push_between, push_path};

/// Adds who could take what stands at a port of a set: the first thread of the set's space that stands at its wait on it, or the first
/// thread there at all.
fn push_server(sheet: &Sheet, scene: Scene<'_>, set: Who) {
    let store = scene.store;
    let mut first = None;
    for slot in 0..=255u8 {
        let who = Who {
            space: set.space,
            slot,
        };
        if let Some(_) = store.thread(who) {
            let waits_here = match next_stage(store, who) {
                Some(Stage::Wait { set: handle }) => {
                    handled(store, set.space, handle) == Some(set)
                }
                _ => false,
            };
            if waits_here {
                push_whereabouts(sheet, scene, b"; ", who);
                return push_between(sheet, store, b" waits at its set ", set, b"");
            }
            first = first.or(Some(who));
        }
    }
    push_between(sheet, store, b"; nobody waits at its set ", set, b"");
    match first {
        Some(who) => push_whereabouts(sheet, scene, b", and in its space is ", who),
        None => sheet.put(b", and no thread is in its space"),
    }
}

/// Adds a port between two pieces, and who could take what stands there.
pub fn push_port<const N: usize, const M: usize>(
    sheet: &Sheet,
    scene: Scene<'_>,
    before: &[u8; N],
    port: Who,
    behind: &[u8; M],
) {
    let store = scene.store;
    push_between(sheet, store, before, port, behind);
    match store.at(port) {
        Some(Body::Port { set, served }) => {
            if *served {
                match store.client_at(port) {
                    Some(client) => push_whereabouts(
                        sheet,
                        scene,
                        b"; its native server serves ",
                        client,
                    ),
                    None => sheet.put(b"; its native server has no client"),
                }
            } else {
                match set {
                    Some(slot) => push_server(
                        sheet,
                        scene,
                        Who {
                            space: port.space,
                            slot: *slot,
                        },
                    ),
                    None => sheet.put(b"; the port is in no set, so nobody can take it"),
                }
            }
        }
        _ => sheet.put(b"; there is no port"),
    }
}

/// Adds whom a client waits for: its server, a native one, or who takes up its talk.
pub fn push_talk(sheet: &Sheet, scene: Scene<'_>, client: Who) {
    match scene.store.thread(client) {
        Some(
            Thread {
                talk: Some(talk),
                ..
            },
        ) => match talk.peer {
            Peer::Thread(server) => {
                push_whereabouts(sheet, scene, b"waits for its server ", server);
            }
            Peer::Service => {
                sheet.put(b"waits for the native server of ");
                push_path(sheet, scene.store, talk.port);
            }
            Peer::Parked => push_port(
                sheet,
                scene,
                b"waits until its talk at ",
                talk.port,
                b" is taken up",
            ),
        },
        _ => sheet.put(b"has no talk"),
    }
}
