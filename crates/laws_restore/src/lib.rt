//! The laws of restores, over every interleaving with others' moves, each the contract of a function that does nothing.
//!
//! It stands on `laws_jobs` for machines and interleavings, on `laws_subtrees` for how a subtree is seen, and on `laws_pictures` for images and
//! the subtrees that they stand for. It promises that the script of a valid image makes its subtree with its ports bound, whatever others do
//! between its orders, and when a restore ends otherwise.
//!
//! - `sites`: what was built so far, and what each order makes of it;
//! - `restore`: the script of a subtree's rooms, and what it makes;
//! - `rooms`: the rooms of an image, so that each valid image can be built.
#![tactic(auto)]

pub mod restore;
pub mod rooms;
pub mod sites;
