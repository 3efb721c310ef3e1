//! Holds, and what they keep as it is.
use crate::why::places::push_place;
use fk_model::{Body, Who};
use lens_text::{Scene, Sheet, push_between};

/// Adds the hold that decides over an object between two pieces: its holder, with what that one is at, and the space. It is the outermost one
/// of the object's space, of those above, and of itself.
pub fn push_hold<const N: usize, const M: usize>(
    sheet: &Sheet,
    scene: Scene<'_>,
    before: &[u8; N],
    object: Who,
    behind: &[u8; M],
) {
    let store = scene.store;
    let mut held = object;
    for _ in 0..u64::MAX {
        match store.home(held.space) {
            Some(above) if store.is_frozen(held.space) => held = above,
            _ => break,
        }
    }
    if let Some(holder) = store.decider(held) {
        push_place(sheet, scene, before, holder);
        push_between(sheet, store, b" on ", held, behind);
    }
}

/// Adds all holds, since some one bars what a move would change.
pub fn push_holds(sheet: &Sheet, scene: Scene<'_>) {
    let store = scene.store;
    sheet.put(b"waits until no hold of another bars what it would change");
    let mut next = store.after(None);
    for _ in 0..u64::MAX {
        let Some(who) = next else {
            break;
        };
        if let Some(
            Body::Space {
                holder: Some(holder),
                ..
            },
        ) = store.at(who)
        {
            push_place(sheet, scene, b"; there is the hold of ", *holder);
            push_between(sheet, store, b" on ", who, b"");
        }
        next = store.after(next);
    }
}
