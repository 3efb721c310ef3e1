//! What a hold may bar of a stage.
use crate::steps::{ended_port, other_side};
use fk_model::{Stage, Who};
use fk_store::{Reach, Store};
use lens_text::{handled, led_from, next_stage, object_named};

/// The space in which the page of an address is.
fn page_home(store: &Store, space: u32, address: u64) -> Option<Who> {
    match store.reach_word(space, address, true) {
        Reach::Home { space, .. } => store.home(space),
        _ => None,
    }
}

/// The space into which a thread receives, where it is at its receive.
fn received_in(store: &Store, who: Who) -> Option<Who> {
    match next_stage(store, who) {
        Some(
            Stage::ClientReceive { addr, .. }
            | Stage::ServerReceive { addr, .. }
            | Stage::ClientReceiveRef { addr, .. }
            | Stage::ServerReceiveRef { addr, .. },
        ) => page_home(store, who.space, addr),
        _ => None,
    }
}

/// What no hold of another may keep as it is where a stage is to be ready, as far as its arguments tell: whom it changes at the other side, the
/// space of a page that it writes, and where a pointer that it changes leads, before and after. A held object that it names isn't waited for: for
/// that the call is refused.
fn reached_by(store: &Store, who: Who, stage: &Stage) -> (Option<Who>, Option<Who>) {
    let space = who.space;
    match *stage {
        Stage::Point { s, x, s2, x2 } => (
            led_from(store, space, s, x),
            object_named(store, space, s2, x2),
        ),
        Stage::Clear { s, x } => (led_from(store, space, s, x), None),
        Stage::GetPtr {
            s,
            x,
            reference,
            ..
        }
        | Stage::SetPtr {
            s,
            x,
            reference,
            ..
        } => (
            led_from(store, space, s, x),
            handled(store, space, reference),
        ),
        Stage::GetState { addr, .. }
        | Stage::PageTake { addr, .. }
        | Stage::PageRead { addr, .. } => (page_home(store, space, addr), None),
        Stage::LinkSet {
            port,
            server: other,
            ..
        }
        | Stage::FaultSet {
            port,
            taker: other,
            ..
        } => (handled(store, space, port), handled(store, space, other)),
        Stage::HoldSet { thread, .. } => (handled(store, space, thread), None),
        _ => reached_beyond(store, who, stage),
    }
}

/// What no hold of another may keep as it is where a stage of a talk or a fault is to be ready.
fn reached_beyond(store: &Store, who: Who, stage: &Stage) -> (Option<Who>, Option<Who>) {
    let other = other_side(store, who, stage);
    match stage {
        // The other side's moves end a receive.
        Stage::ClientReceive { .. }
        | Stage::ServerReceive { .. }
        | Stage::ClientReceiveRef { .. }
        | Stage::ServerReceiveRef { .. } => (None, None),
        Stage::ClientSend { .. } | Stage::ServerSend { .. } => match other {
            Some(receiver) => (other, received_in(store, receiver)),
            None => (None, None),
        },
        _ => (other, ended_port(store, who, stage)),
    }
}

/// What of that a hold of another keeps.
pub fn barred_of(store: &Store, who: Who, stage: &Stage) -> Option<Who> {
    let (one, other) = reached_by(store, who, stage);
    match one {
        Some(object) if store.frozen_for(who, object) => return one,
        _ => {}
    }
    match other {
        Some(object) if store.frozen_for(who, object) => other,
        _ => None,
    }
}
