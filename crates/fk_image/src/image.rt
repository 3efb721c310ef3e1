//! Images: a subtree in records, as a checkpoint keeps it.
//!
//! It stands on `fk_stack` for the open path, and on `fk_model`, over whose worlds `specs/Image/Picture.antt` says what subtree an image stands for.
//! `specs/Image/Valid.antt` says which images are valid: those whose numbers fit their fields, whose spaces stand
//! in preorder, and whose pointers lead to what their fields may hold (`specs/Image/Links.antt`). It promises the
//! parts of that test that a reader needs, equal copies, and which ports of the nester an image leads to.

mod boxed;
mod call_codes;
mod copy;
mod image;
mod kinds;
mod links;
mod objects;
mod open;
mod outs;
mod path;
mod ranges;

pub use boxed::BoxedThread;
pub use image::{FaultRec, Image, Link, ObjectRec, PageRec, Rec, SpaceRec, TalkRec, ThreadRec};
pub use links::{
    is_set_of, kind_in_space, leads_to_keeper, leads_to_port, leads_to_region, serves_port,
};
pub use objects::{Objects, kind_of_rec};
pub use open::Open;
pub use path::{enter, room_under};
pub use ranges::{is_code, is_extent, is_mode_byte, is_set_word};
