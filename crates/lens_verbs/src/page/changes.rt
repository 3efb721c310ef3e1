//! What has changed of what stands in a store.
use fk_model::Who;
use lens_text::{Scene, Sheet, push_between, push_object};
use std::collections::BTreeMap;

/// The line that was last written of each object that is or was there.
pub type Known = BTreeMap<Who, String>;

/// Adds the lines of those of these objects that aren't as they were last written. That of what is gone has no path.
pub fn push_objects(sheet: &Sheet, known: &mut Known, scene: Scene<'_>, names: &[Who]) {
    let store = scene.store;
    for who in names {
        let line = Sheet::new(sheet.alloc);
        line.fill(b"=@.@", who.space as u64, who.slot as u64, 0);
        let mut is_new = false;
        if let Some(body) = store.at(*who) {
            push_between(&line, store, b"\t", *who, b"\t");
            push_object(&line, scene, *who, body);
            is_new = true;
        }
        let line = sheet.taken(line);
        if let Some(last) = known.get(who) {
            is_new = *last != line;
        }
        if is_new {
            sheet.add(line.as_str());
            sheet.put(b"\n");
            if known.insert(*who, line).is_err() {
                sheet.lacks();
            }
        }
    }
}
