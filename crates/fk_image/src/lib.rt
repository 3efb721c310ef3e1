//! Images: a subtree in records, as a checkpoint keeps it, and the format of their bytes.
//!
//! It stands on `fk_stack` for open paths and on `fk_model`, over whose worlds it is said which subtree an image stands for. It promises which
//! images are valid, that copies are equal, which ports of the nester an image leads to, and the one spelling of an image with the first
//! fault of bytes that spell none.
//!
//! - `image`: the records, what a valid image is, and the subtree that it stands for;
//! - `format`: the bytes: spelling, reading, reasons and offsets, as definitions and laws;
//! - `pointers`: where the pointers of an image lead, and the first that may not;
//! - `valid`: whether an image is valid.
#![tactic(auto)]

pub mod format;
pub mod image;
pub mod pointers;
pub mod valid;

pub use image::{
    BoxedThread, FaultRec, Image, Link, ObjectRec, Objects, Open, PageRec, Rec, SpaceRec, TalkRec,
    ThreadRec, enter, is_code, is_extent, is_mode_byte, is_set_of, is_set_word, kind_in_space,
    kind_of_rec, leads_to_keeper, leads_to_port, leads_to_region, room_under, serves_port,
};
