//! Objects by their paths.
use crate::sheet::Sheet;
use fk_model::limits::OWN_SPACE;
use fk_model::{Body, Ptr, Who};
use fk_store::Store;

/// A path that begins with a slot and goes on by a path. Where there is no memory for it, the sheet notes that.
pub fn path_from(sheet: &Sheet, slot: u8, beneath: String) -> String {
    let path = Sheet::new(sheet.alloc);
    path.fill(b"/@", slot as u64, 0, 0);
    path.add(beneath.as_str());
    sheet.taken(path)
}

/// Adds the path of an object from the root, behind a mark for each of its slots.
pub fn push_marked<const N: usize>(sheet: &Sheet, store: &Store, mark: &[u8; N], who: Who) {
    let mut path = String::new(sheet.alloc);
    let mut next = Some(who);
    for _ in 0..u64::MAX {
        let Some(one) = next else {
            break;
        };
        sheet.put(mark);
        path = path_from(sheet, one.slot, path);
        next = store.home(one.space);
    }
    sheet.add(path.as_str());
}

/// Adds the path of an object from the root.
pub fn push_path(sheet: &Sheet, store: &Store, who: Who) {
    push_marked(sheet, store, b"", who);
}

/// Adds the path of an object between two pieces.
pub fn push_between<const N: usize, const M: usize>(
    sheet: &Sheet,
    store: &Store,
    before: &[u8; N],
    who: Who,
    behind: &[u8; M],
) {
    sheet.put(before);
    push_path(sheet, store, who);
    sheet.put(behind);
}

/// Adds the path of an object behind a piece, where there is one.
pub fn push_named<const N: usize>(
    sheet: &Sheet,
    store: &Store,
    before: &[u8; N],
    who: Option<Who>,
) {
    if let Some(who) = who {
        sheet.put(before);
        push_path(sheet, store, who);
    }
}

/// Adds where a pointer leads.
pub fn push_pointer(sheet: &Sheet, store: &Store, pointer: Ptr) {
    match pointer {
        Ptr::Null => sheet.put(b"nothing"),
        Ptr::Dead => sheet.put(b"what was destroyed"),
        Ptr::At(who) => push_path(sheet, store, who),
    }
}

/// What is named by a slot of a space, if it has that slot.
fn in_slot(space: u32, slot: u64) -> Option<Who> {
    if slot > 255 {
        return None;
    }
    Some(Who {
        space,
        slot: slot as u8,
    })
}

/// The object that a slot of a space holds, or to which the reference there leads.
pub fn handled(store: &Store, space: u32, slot: u64) -> Option<Who> {
    let Some(who) = in_slot(space, slot) else {
        return None;
    };
    match store.at(who) {
        Some(&Body::Reference { to: Ptr::At(to) }) => Some(to),
        Some(Body::Reference { .. }) | None => None,
        Some(_) => Some(who),
    }
}

/// The space that is named as a place in another: 256 is that one itself.
pub fn place_named(store: &Store, space: u32, place: u64) -> Option<u32> {
    if place == OWN_SPACE {
        return Some(space);
    }
    let Some(who) = handled(store, space, place) else {
        return None;
    };
    match store.at(who) {
        Some(&Body::Space { birth, .. }) => Some(birth),
        _ => None,
    }
}

/// The object in a slot of a place that is named in a space, or to which the reference there leads.
pub fn object_named(store: &Store, space: u32, place: u64, slot: u64) -> Option<Who> {
    match place_named(store, space, place) {
        Some(space) => handled(store, space, slot),
        None => None,
    }
}

/// Where the pointer of the mapping, the region or the reference in a slot of a place leads.
pub fn led_from(store: &Store, space: u32, place: u64, slot: u64) -> Option<Who> {
    let Some(space) = place_named(store, space, place) else {
        return None;
    };
    let Some(who) = in_slot(space, slot) else {
        return None;
    };
    match store.at(who) {
        Some(
            &Body::Mapping {
                region: Ptr::At(to),
                ..
            },
        ) => Some(to),
        Some(
            &Body::Region {
                keeper: Ptr::At(to),
                ..
            },
        ) => Some(to),
        Some(&Body::Reference { to: Ptr::At(to) }) => Some(to),
        _ => None,
    }
}

/// The object behind another in the tree of spaces: each space stands before what lies in it, and what lies in one by rising slot. So the
/// store's first object is the first of the tree.
pub fn next_in_tree(store: &Store, last: Who) -> Option<Who> {
    if let Some(&Body::Space { birth: space, .. }) = store.at(last) {
        if let Some(slot) = store.first_resident(space) {
            return Some(Who { space, slot });
        }
    }
    let mut passed = Some(last);
    for _ in 0..u64::MAX {
        let Some(one) = passed else {
            break;
        };
        match store.after(passed) {
            Some(next) if next.space == one.space => return Some(next),
            _ => passed = store.home(one.space),
        }
    }
    None
}
