//! Paths from the image's root, and where pointers lead.
use crate::sheet::Sheet;
use crate::store::path_from;
use fk_image::{Link, SpaceRec};

/// The path of what lies in a slot of the space at a place of these.
pub fn path_in(sheet: &Sheet, spaces: &[SpaceRec], place: usize, slot: u8) -> String {
    let mut path = path_from(sheet, slot, String::new(sheet.alloc));
    let mut next = place;
    for _ in 0..place {
        match spaces.get(next) {
            Some(space) if next > 0 => {
                path = path_from(sheet, space.slot, path);
                next = space.parent as usize;
            }
            _ => break,
        }
    }
    path
}

/// Adds the line of a pointer of a space or an object with this path, by what it is called, between blanks: where it leads.
pub fn push_pointer<const N: usize>(
    sheet: &Sheet,
    path: &str,
    name: &[u8; N],
    spaces: &[SpaceRec],
    link: &Link,
) {
    sheet.put_around(b"pointer ", path, name);
    match link {
        Link::Null => sheet.put(b"null"),
        Link::Dead => sheet.put(b"dead"),
        Link::Root => sheet.put(b"/"),
        Link::Outside => sheet.put(b"outside"),
        Link::Out(slot) => sheet.fill(b"out @", *slot as u64, 0, 0),
        Link::In { slot, space } => {
            let path = path_in(sheet, spaces, *space as usize, *slot);
            sheet.add(path.as_str());
        }
    }
    sheet.put(b"\n");
}
