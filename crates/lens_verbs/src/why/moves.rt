//! Why a move of a trace isn't ready.
use crate::steps::push_act;
use crate::why::known::Known;
use crate::why::reasons::push_reason;
use fk_first::Ready;
use fk_model::{Body, Move};
use lens_text::{Sheet, push_between, push_path};

/// Adds the line that says why a move isn't ready.
pub fn push_move(sheet: &Sheet, known: &Known<'_, '_, '_>, ready: &Ready, one: &Move) {
    let seen = known.seen;
    let store = seen.store;
    sheet.fill(b"move @ of ", seen.events, 0, 0);
    push_between(sheet, store, b"", one.who, b", ");
    push_act(sheet, seen, one);
    match one.pick {
        Some(pick) => push_between(sheet, store, b", with the pick ", pick, b", isn't ready: "),
        None => sheet.put(b", without a pick, isn't ready: "),
    }
    match store.at(one.who) {
        Some(Body::Thread(thread)) => match ready.get(&one.who) {
            Some(Some(pick)) => {
                sheet.put(b"it has a ready move, but with the pick ");
                push_path(sheet, store, *pick);
            }
            Some(None) => sheet.put(b"it has a ready move, but without a pick"),
            None => push_reason(sheet, known, &one.who, thread),
        },
        Some(Body::Port { served: true, .. }) => sheet.put(
            b"its native server has no such act now",
        ),
        Some(_) => sheet.put(b"what stands there makes no moves"),
        None => sheet.put(b"nobody stands there"),
    }
    sheet.put(b"\n");
}
