//! What a store shows.
use crate::numbers::Numbers;
use fk_cut::{CutPtr, closed, cut};
use fk_model::{Body, NoMemory, Ptr, Who};
use fk_natives::Native;
use fk_report::{End, all_halted, outs_text, run_text, threads_of};
use fk_store::{Reach, Store};
use std::alloc::Global;

/// The next birth number, how many objects come first, 16 at most, and their names; then the pages of the first 128 spaces, each with its
/// first and last word.
pub fn all(store: &Store) -> Numbers {
    let mut found = Numbers::none();
    let mut names = Numbers::none();
    let mut count = 0u64;
    let mut at = None;
    for _ in 0..16u8 {
        at = store.after(at);
        if at.is_none() {
            break;
        }
        names.say_name(at);
        count = count.saturating_add(1);
    }
    let births = store.next_birth();
    found.say(u64::from(births));
    found.say(count);
    found.say_all(names.list());
    for space in 0..births.min(128) {
        say_pages(store, space, &mut found);
    }
    found
}

/// The pages of a space.
fn say_pages(store: &Store, space: u32, found: &mut Numbers) {
    for page in 0..=u8::MAX {
        if let Some(words) = store.page(space, page) {
            found.say_name(Some(Who { space, slot: page }));
            found.say(words[0]);
            found.say(words[63]);
        }
    }
}

/// What stands in a slot: its kind, and the birth number of a space.
pub fn say_kind(store: &Store, who: Who, found: &mut Numbers) {
    match store.at(who) {
        Some(
            Body::Space {
                birth,
                holder: None,
            },
        ) => {
            found.say(7);
            found.say(u64::from(*birth));
        }
        Some(Body::Cond) => found.say(2),
        Some(_) => found.fail(),
        None => {}
    }
}

/// How many pointers lead to an object, and where a reference leads: 0 nowhere, 1 to the dead, 2 to this name.
pub fn say_leads(store: &Store, who: Who, found: &mut Numbers) {
    found.say(store.pointers_at(who));
    match store.at(who) {
        Some(Body::Reference { to: Ptr::At(to) }) => {
            found.say(2);
            found.say_name(Some(*to));
        }
        Some(Body::Reference { to: Ptr::Dead }) => found.say(1),
        Some(Body::Reference { to: Ptr::Null }) => found.say(0),
        _ => {}
    }
}

/// Where a page is read or written: 1, the space and the page; 2, these and its keeper where it is missing; 0.
pub fn say_reach(store: &Store, who: Who, write: bool, found: &mut Numbers) {
    match store.reach(who.space, who.slot, write) {
        Reach::Home { space, page } => {
            found.say(1);
            found.say_name(Some(Who { space, slot: page }));
        }
        Reach::Missing {
            space,
            page,
            keeper,
        } => {
            found.say(2);
            found.say_name(Some(Who { space, slot: page }));
            found.say_name(keeper);
        }
        Reach::Bad => found.say(0),
    }
}

/// The report of a run without servers and jobs that has come to this store by so many moves, after which all its user threads have halted.
fn report_of(alloc: Global, store: &Store, events: u64) -> Result<String, NoMemory> {
    let threads = threads_of(alloc, store)?;
    let none: [(Who, Native); 0] = [];
    let outs = outs_text(alloc, &none, threads.as_slice())?;
    Ok(run_text(alloc, events, End::Halted, &[], &[], outs.as_str())?)
}

/// The length of that report, and the numbers of a short one, if all user threads have halted.
pub fn say_report(alloc: Global, store: &Store, events: u64, found: &mut Numbers) {
    if !all_halted(store) {
        return;
    }
    match report_of(alloc, store, events) {
        Ok(text) => {
            found.say(text.len() as u64);
            if text.len() < 200 {
                found.take_text(text.as_str());
            }
        }
        Err(_) => found.fail(),
    }
}

/// The field and the path that open the subtree in a slot; nothing where it is closed.
pub fn say_closed(alloc: Global, store: &Store, top: Who, found: &mut Numbers) {
    let Some(Body::Space { .. }) = store.at(top) else {
        return found.fail();
    };
    match closed(alloc, store, top.space, top.slot) {
        Ok(Some(place)) => {
            found.say(u64::from(place.field));
            for slot in place.path.as_slice() {
                found.say(u64::from(*slot));
            }
        }
        Ok(None) => {}
        Err(_) => found.fail(),
    }
}

/// A pointer field as it is seen, by the numbers of an image.
fn say_pointer(pointer: &CutPtr, found: &mut Numbers) {
    match pointer {
        CutPtr::Null => found.say(0),
        CutPtr::Dead => found.say(1),
        CutPtr::Out(slot) => {
            found.say(3);
            found.say(u64::from(*slot));
        }
        CutPtr::Outside => found.say(5),
        _ => found.fail(),
    }
}

/// Of each object of the cut of the subtree in a slot the length of its path, the path, its kind and its pointers, of a thread whose turn it
/// is and how many words were moved in its talk; then how many pages it has. Of a cut of more than 16 objects how many there are, and
/// the longest of their paths.
pub fn say_cut(alloc: Global, store: &Store, top: Who, found: &mut Numbers) {
    let Some(Body::Space { .. }) = store.at(top) else {
        return found.fail();
    };
    let Ok(shown) = cut(alloc, store, top.space, top.slot) else {
        return found.fail();
    };
    let mut longest = 0;
    let is_large = shown.objects.len() > 16;
    for object in shown.objects.as_slice() {
        longest = longest.max(object.path.len());
        if is_large {
            continue;
        }
        found.say(object.path.len() as u64);
        for slot in object.path.as_slice() {
            found.say(u64::from(*slot));
        }
        found.say(object.words[0]);
        for pointer in &object.ptrs {
            say_pointer(pointer, found);
        }
        if object.words[0] == 8 {
            found.say(object.words[21]);
            found.say(object.words[22]);
        }
    }
    if is_large {
        found.say(shown.objects.len() as u64);
        found.say(longest as u64);
    } else {
        found.say(shown.pages.len() as u64);
    }
}
