//! Why a subtree isn't closed.
use crate::jobs::names::{push_space, site_of};
use fk_finish::Place;
use fk_jobs::PlannedJob;
use fk_model::limits::LED_TO;
use fk_model::{Body, Ptr, Thread, Who};
use fk_store::Store;
use lens_text::{Sheet, kind_word, push_between, push_path};

/// The object with a path from a nester.
fn object_at(store: &Store, nester: u32, path: &[u8]) -> Option<Who> {
    let mut space = nester;
    let mut found = None;
    for slot in path {
        if let Some(above) = found {
            let Some(Body::Space { birth, .. }) = store.at(above) else {
                return None;
            };
            space = *birth;
        }
        found = Some(Who { space, slot: *slot });
    }
    found
}

/// Whether an object is a space, or lies beneath it.
fn lies_in(store: &Store, top: Who, who: Who) -> bool {
    let mut next = Some(who);
    for _ in 0..u64::MAX {
        match next {
            Some(one) if one == top => return true,
            Some(one) => next = store.home(one.space),
            None => break,
        }
    }
    false
}

/// By what an object leads to another, if it does.
fn leads(body: &Body, who: Who) -> Option<&'static str> {
    let (to, word) = match *body {
        Body::Mapping { region, .. } => (region, "the mapping "),
        Body::Region { keeper, .. } => (keeper, "the keeper of the region "),
        Body::Reference { to } => (to, "the reference "),
        Body::Space {
            holder: Some(holder),
            ..
        } => (Ptr::At(holder), "the hold of its thread on "),
        Body::Thread(
            Thread {
                talk: Some(ref talk),
                ..
            },
        ) if talk.port == who => (Ptr::At(who), "the talk of "),
        Body::Thread(
            Thread {
                fault: Some(ref fault),
                ..
            },
        ) => (Ptr::At(fault.port), "the fault of "),
        _ => return None,
    };
    match to {
        Ptr::At(to) if to == who => Some(word),
        _ => None,
    }
}

/// Adds every object outside a subtree that leads to one of its objects.
fn push_leaders(sheet: &Sheet, store: &Store, top: Who, who: Who) {
    push_between(sheet, store, b"", who, b" is led to from outside, by ");
    let mut is_first = true;
    let mut next = store.after(None);
    for _ in 0..u64::MAX {
        let Some(from) = next else {
            break;
        };
        if let Some(body) = store.at(from) {
            if let Some(word) = leads(body, who) {
                if !lies_in(store, top, from) {
                    if !is_first {
                        sheet.put(b" and ");
                    }
                    is_first = false;
                    sheet.add(word);
                    push_path(sheet, store, from);
                }
            }
        }
        next = store.after(next);
    }
}

/// Where the pointer field of an object leads.
fn led_by(body: &Body, field: u8) -> Option<Who> {
    match *body {
        Body::Mapping {
            region: Ptr::At(to),
            ..
        } => Some(to),
        Body::Region {
            keeper: Ptr::At(to),
            ..
        } => Some(to),
        Body::Reference { to: Ptr::At(to) } => Some(to),
        Body::Space { holder, .. } => holder,
        Body::Thread(
            Thread {
                talk: Some(ref talk),
                ..
            },
        ) if field == 0 => Some(talk.port),
        Body::Thread(
            Thread {
                fault: Some(ref fault),
                ..
            },
        ) if field > 0 => Some(fault.port),
        _ => None,
    }
}

/// Adds where an object of a subtree leads that may not lead there.
fn push_led(sheet: &Sheet, store: &Store, plan: &PlannedJob, who: Who, field: u8) {
    push_path(sheet, store, who);
    let Some(body) = store.at(who) else {
        return;
    };
    sheet.put_around(b", ", kind_word(body), b", ");
    match body {
        Body::Region { .. } => sheet.put(b"has its keeper at "),
        Body::Space { .. } => sheet.put(b"is held by "),
        Body::Thread(_) if field == 0 => sheet.put(b"has its talk at "),
        Body::Thread(_) => sheet.put(b"has its fault at "),
        _ => sheet.put(b"leads to "),
    }
    if let Some(to) = led_by(body, field) {
        push_path(sheet, store, to);
    }
    push_between(sheet, store, b", which lies outside ", site_of(plan), b"");
    match body {
        Body::Mapping { .. } | Body::Space { .. } => {}
        _ => {
            sheet.put(b" and is no port in a slot of ");
            push_space(sheet, store, plan.nester);
        }
    }
}

/// Adds why the subtree of a job isn't closed: at the place that the job tells.
pub fn push_foreign(sheet: &Sheet, store: &Store, plan: &PlannedJob, place: &Place) {
    if let Some(who) = object_at(store, plan.nester, place.path.as_slice()) {
        if place.field == LED_TO {
            push_leaders(sheet, store, site_of(plan), who);
        } else {
            push_led(sheet, store, plan, who, place.field);
        }
    }
}
