//! Copies of threads: registers, counter and some pages, in which instructions are made beside the kernel while others use that.
//!
//! It stands on `fk_store`, on `fk_user` for what a word asks for, and on `laws_bursts` for what instructions beside the world have to do
//! with moves in it. None of it takes memory.
//!
//! It promises that a copy begins with a thread's words, and with those pages that are there among the page of its counter and the three
//! after it; that its instructions are those that `laws_bursts` defines, up to a call, a halt or a word of a page that it doesn't have; and
//! that it tells exactly whether a thread still has its words, and a space the pages that it has used.

mod copied;

pub use copied::Copied;
