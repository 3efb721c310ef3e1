//! All lines of an image.
use crate::images::objects::push_object;
use crate::images::pages::push_page;
use crate::images::paths::{path_in, push_pointer};
use crate::sheet::Sheet;
use fk_image::{Link, SpaceRec};

/// Adds the lines of the space at a place of these: its own, that of its holder, where it is held, those of its objects, those of its pages.
fn push_space(sheet: &Sheet, spaces: &[SpaceRec], place: usize, space: &SpaceRec) {
    let path = path_in(sheet, spaces, space.parent as usize, space.slot);
    let shown = if place == 0 { "/" } else { path.as_str() };
    sheet.put_around(b"space ", shown, b"\n");
    match space.holder {
        Link::Null => {}
        ref holder => push_pointer(sheet, shown, b" held by ", spaces, holder),
    }
    for object in space.objects.as_slice() {
        let own = path_in(sheet, spaces, place, object.slot);
        push_object(sheet, own.as_str(), spaces, &object.body);
    }
    for page in space.pages.as_slice() {
        push_page(sheet, shown, page);
    }
}

/// Adds an image by its spaces, in their order.
pub fn push_image(sheet: &Sheet, spaces: &[SpaceRec]) {
    for place in 0..spaces.len() {
        push_space(sheet, spaces, place, &spaces[place]);
    }
}
