//! Which rule refuses an address.
use crate::sheet::Sheet;
use crate::store::names::{push_between, push_path};
use fk_model::limits::{MAPPINGS, SPACE_WORDS};
use fk_model::{Body, Ptr, Who};
use fk_store::{Reach, Store};

/// A page of a space.
#[derive(Clone, Copy)]
struct Page {
    space: u32,
    number: u8,
}

/// Whether a page is among so many from one on.
fn covers(first: u8, count: u16, page: u8) -> bool {
    (first <= page) & (page as u64 <= (first as u64 + count as u64).saturating_sub(1))
}

/// The mapping or the region in the lowest slot that covers a page of a space.
fn covering(store: &Store, at: Page, is_mapping: bool) -> Option<Who> {
    for slot in 0..=255u8 {
        let who = Who {
            space: at.space,
            slot,
        };
        let is_found = match store.at(who) {
            Some(&Body::Mapping { first, count, .. }) => {
                is_mapping & covers(first, count, at.number)
            }
            Some(&Body::Region { first, count, .. }) => {
                !is_mapping & covers(first, count, at.number)
            }
            _ => false,
        };
        if is_found {
            return Some(who);
        }
    }
    None
}

/// Adds a page of a space: its number, and the space's path.
fn push_page(sheet: &Sheet, store: &Store, at: Page) {
    sheet.fill(b"page @ of ", at.number as u64, 0, 0);
    match store.home(at.space) {
        Some(space) => push_path(sheet, store, space),
        None => sheet.put(b"/"),
    }
}

/// Adds why a page that is missing is asked of nobody.
fn push_unkept(sheet: &Sheet, store: &Store, at: Page) {
    let Some(region) = covering(store, at, false) else {
        return sheet.put(b"it isn't there, and no region covers it, so it is asked of nobody");
    };
    push_between(
        sheet,
        store,
        b"it isn't there, and the region ",
        region,
        b"",
    );
    match store.at(region) {
        Some(
            Body::Region {
                keeper: Ptr::Dead,
                ..
            },
        ) => sheet.put(b" has a keeper that was destroyed"),
        Some(
            Body::Region {
                keeper: Ptr::At(port),
                ..
            },
        ) => push_between(sheet, store, b" has the keeper ", *port, b""),
        _ => sheet.put(b" has no keeper"),
    }
}

/// Where a mapping leads by a place of its region, or adds why it leads nowhere. It allows writes or doesn't.
fn lead(
    sheet: &Sheet,
    store: &Store,
    region: Who,
    place: u64,
    writes: bool,
    allows: bool,
) -> Option<Page> {
    let Some(
        &Body::Region {
            first,
            count,
            write,
            ..
        },
    ) = store.at(region)
    else {
        sheet.put(b" leads to no region");
        return None;
    };
    let has = count as u64;
    if place >= has {
        sheet.fill(
            b" leads beyond its region, to place @ of the @ of ",
            place,
            has,
            0,
        );
    } else if writes & !allows {
        sheet.put(b" is read only: it leads to ");
    } else if writes & !write {
        sheet.put(b" leads to a region that is read only, ");
    } else {
        let next = Page {
            space: region.space,
            number: ((first as u64).saturating_add(place) % 256) as u8,
        };
        sheet.put(b" leads to ");
        push_page(sheet, store, next);
        push_between(sheet, store, b", by the region ", region, b": ");
        return Some(next);
    }
    push_path(sheet, store, region);
    None
}

/// Where a mapping leads from a page that it covers, or adds why it leads nowhere.
fn follow(sheet: &Sheet, store: &Store, mapping: Who, page: u8, writes: bool) -> Option<Page> {
    let Some(
        &Body::Mapping {
            first,
            offset,
            write,
            region,
            ..
        },
    ) = store.at(mapping)
    else {
        return None;
    };
    push_between(sheet, store, b"the mapping ", mapping, b"");
    match region {
        Ptr::At(region) => {
            let place = (offset as u64).saturating_add((page as u64).saturating_sub(first as u64));
            lead(sheet, store, region, place, writes, write)
        }
        Ptr::Dead => {
            sheet.put(b" leads to a region that was destroyed");
            None
        }
        Ptr::Null => {
            sheet.put(b" leads to no region");
            None
        }
    }
}

/// Adds which rule refuses to read or write the word at an address of a space: each mapping on the way there, and then why it ends. Where no rule
/// refuses it, nothing is added.
pub fn push_refused(sheet: &Sheet, store: &Store, space: u32, address: u64, writes: bool) {
    if address >= SPACE_WORDS {
        return sheet.fill(
            b"address @ is above @, the last one of a space",
            address,
            16383,
            0,
        );
    }
    match store.reach_word(space, address, writes) {
        Reach::Home { .. } => return,
        _ => {}
    }
    let mut at = Page {
        space,
        number: (address / 64 % 256) as u8,
    };
    sheet.fill(b"address @, ", address, 0, 0);
    push_page(sheet, store, at);
    sheet.put(b": ");
    for _ in 0..=MAPPINGS {
        let Some(mapping) = covering(store, at, true) else {
            return push_unkept(sheet, store, at);
        };
        match follow(sheet, store, mapping, at.number, writes) {
            Some(next) => at = next,
            None => return,
        }
    }
    sheet.fill(b"more than @ mappings would be followed", MAPPINGS, 0, 0);
}
