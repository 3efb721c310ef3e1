//! Threads by their paths, with what they are at and which hold keeps them still.
use crate::why::holds::push_hold;
use fk_model::Who;
use lens_text::{Scene, Sheet, push_between, push_thread};

/// Adds a thread by its path behind a piece, and what it is at.
pub fn push_place<const N: usize>(sheet: &Sheet, scene: Scene<'_>, before: &[u8; N], who: Who) {
    push_between(sheet, scene.store, before, who, b" (");
    match scene.store.thread(who) {
        Some(thread) => push_thread(sheet, scene, who, thread),
        None => sheet.put(b"no thread"),
    }
    sheet.put(b")");
}

/// Adds the same, and the hold that keeps the thread still, if one does.
pub fn push_whereabouts<const N: usize>(
    sheet: &Sheet,
    scene: Scene<'_>,
    before: &[u8; N],
    who: Who,
) {
    push_place(sheet, scene, before, who);
    if scene.store.is_frozen(who.space) {
        push_hold(sheet, scene, b", kept still by the hold of ", who, b",");
    }
}
