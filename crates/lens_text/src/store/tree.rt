//! The tree of spaces.
use crate::programs::Scene;
use crate::sheet::Sheet;
use crate::store::names::{next_in_tree, push_marked};
use crate::store::objects::{push_home, push_object};

/// Adds all that stands there, an object a line: each space before what lies in it, and what lies in one by rising slot.
pub fn push_tree(sheet: &Sheet, scene: Scene<'_>) {
    let store = scene.store;
    // The root stands in no slot.
    sheet.put(b"/ ");
    push_home(sheet, store, 0, None);
    sheet.put(b"\n");
    let mut next = store.after(None);
    for _ in 0..u64::MAX {
        let Some(who) = next else {
            break;
        };
        // By two blanks further in than its space.
        push_marked(sheet, store, b"  ", who);
        if let Some(body) = store.at(who) {
            sheet.put(b" ");
            push_object(sheet, scene, who, body);
        }
        sheet.put(b"\n");
        next = next_in_tree(store, who);
    }
}
