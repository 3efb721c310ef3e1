//! Kinds in words.
use crate::sheet::Sheet;
use crate::store::names::push_pointer;
use fk_model::Body;
use fk_store::Store;

/// What an object is, in a word or two.
pub fn kind_word(body: &Body) -> &'static str {
    match body {
        Body::Mutex { .. } => "a mutex",
        Body::Cond => "a cond",
        Body::Mapping { .. } => "a mapping",
        Body::Region { .. } => "a region",
        Body::Port { .. } => "a port",
        Body::Portset => "a portset",
        Body::Space { .. } => "a space",
        Body::Thread(_) => "a thread",
        Body::Reference { .. } => "a reference",
    }
}

/// Adds what stands in a slot, if something does; of a reference where it leads.
pub fn push_held_there(sheet: &Sheet, store: &Store, body: Option<&Body>) {
    match body {
        Some(Body::Reference { to }) => {
            sheet.put(b"a reference to ");
            push_pointer(sheet, store, *to);
        }
        Some(body) => sheet.add(kind_word(body)),
        None => sheet.put(b"empty"),
    }
}
