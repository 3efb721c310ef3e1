//! Bursts: instructions that a thread makes beside the world are its moves in it. The law is the contract of a function that does nothing.
//!
//! A burst has a copy of a thread's registers, its counter and some pages of its space. `specs/Bursts.antt` says what it makes of
//! them, instruction by instruction, and which pages it uses. It ends before a call, before a halt, and before a word of a page that
//! it doesn't have.
//!
//! It stands on `fk_model`, whose moves the law is about. It names no store and no kernel.
#![tactic(auto)]

ghost use Rattle.laws_bursts.specs.Laws.{BurstsAreMoves};

/// So many instructions of a burst are as many moves of its thread in every world in which the thread is free, and is where the
/// burst began, and in which the pages that the burst has used are as it had them, whatever else has become of that world. Each
/// move is ready at its place and tells nothing.
pub fn bursts_are_moves()
    ensures { BurstsAreMoves }
{}
