//! Objects in words.
use crate::programs::Scene;
use crate::sheet::Sheet;
use crate::store::names::{push_named, push_pointer};
use crate::store::threads::push_thread;
use fk_model::{Body, Who};
use fk_store::Store;

/// Adds which pages a mapping or a region has, so many from one on.
pub fn push_pages(sheet: &Sheet, first: u8, count: u16, is_writable: bool) {
    let first = first as u64;
    let last = first + count.saturating_sub(1) as u64;
    if is_writable {
        sheet.fill(b" pages @ to @, writable", first, last, 0);
    } else {
        sheet.fill(b" pages @ to @, read only", first, last, 0);
    }
}

/// Adds a space: its birth number, its holder, its pages.
pub fn push_home(sheet: &Sheet, store: &Store, birth: u32, holder: Option<Who>) {
    sheet.fill(b"space @", birth as u64, 0, 0);
    push_named(sheet, store, b", held by ", holder);
    let mut is_first = true;
    for page in 0..256u64 {
        let Some(_) = store.page(birth, page as u8) else {
            continue;
        };
        if is_first {
            sheet.put(b", pages");
        }
        is_first = false;
        sheet.fill(b" @", page, 0, 0);
    }
}

/// Adds what an object is at.
pub fn push_object(sheet: &Sheet, scene: Scene<'_>, who: Who, body: &Body) {
    let store = scene.store;
    match *body {
        Body::Mutex { locked: true } => sheet.put(b"mutex, locked"),
        Body::Mutex { locked: false } => sheet.put(b"mutex"),
        Body::Cond => sheet.put(b"cond"),
        Body::Portset => sheet.put(b"portset"),
        Body::Port { served: true, .. } => {
            sheet.put(b"port with a native server");
            push_named(sheet, store, b", whose client is ", store.client_at(who));
        }
        Body::Port {
            set: Some(slot),
            ..
        } => {
            sheet.fill(b"port in the set of slot @", slot as u64, 0, 0);
        }
        Body::Port { .. } => sheet.put(b"port"),
        Body::Space { birth, holder } => push_home(sheet, store, birth, holder),
        Body::Thread(ref thread) => {
            sheet.put(b"thread ");
            push_thread(sheet, scene, who, thread);
        }
        Body::Mapping {
            first,
            count,
            offset,
            write,
            region,
        } => {
            sheet.put(b"mapping of");
            push_pages(sheet, first, count, write);
            sheet.fill(b", from page @ on of region ", offset as u64, 0, 0);
            push_pointer(sheet, store, region);
        }
        Body::Region {
            first,
            count,
            write,
            keeper,
        } => {
            sheet.put(b"region of");
            push_pages(sheet, first, count, write);
            sheet.put(b", kept by ");
            push_pointer(sheet, store, keeper);
        }
        Body::Reference { to } => {
            sheet.put(b"reference to ");
            push_pointer(sheet, store, to);
        }
    }
}
