//! What a stage of a call reads in the store, and what it can change there.
//!
//! It stands on `fk_store`, and on `fk_stages` for the calls that registers name. It promises that each reader finds what the abstract
//! machine's reader of that name finds, or refuses with the same status, and that each change makes of the store's world what the machine makes of it.
//!
//! - `readers`: objects, spaces, pages and names, each with the status that says what was wrong;
//! - `threads`: a thread whose stage is done, that falls asleep or wakes up, or whose stage has moved words;
//! - `records`: the words that say all of an object but its pointers, read and set;
//! - `deaths`: what goes with an object that is destroyed.
#![tactic(auto)]

pub mod deaths;
pub mod readers;
pub mod records;
pub mod threads;
