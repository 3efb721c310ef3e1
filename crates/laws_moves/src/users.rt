//! Who is a user's thread after a move, and where a name leads. Each law is the contract of a function that does nothing.
//!
//! It stands on `fk_model`, whose definitions the laws are about, on `rows` for what moves list, on `machine` for valid worlds, and on
//! `frozen` for moves of users and native servers.

ghost use Rattle.laws_moves.specs.Users.Named.{NamesStay, NamesStood, SpacesStay};
ghost use Rattle.laws_moves.specs.Users.Stood.{GivesPutNothing, UsersStay, UsersStood};

/// Whoever is a user's thread after a move was one before it, or was put there by it: no move makes a porter one.
#[tactic(auto, using(crate::proofs::InUsers::Stood::users_stood))]
pub fn users_stood()
    ensures { UsersStood }
{}

/// Whoever was a user's thread before a move is one after it, unless it was taken from its place or something was put there: no move makes a user's thread a
/// porter.
#[tactic(auto, using(crate::proofs::InUsers::Stood::users_stay))]
pub fn users_stay()
    ensures { UsersStay }
{}

/// A name leads where it led before a move, unless what it named is taken from its place.
#[tactic(auto, using(crate::proofs::InUsers::Named::names_stay))]
pub fn names_stay()
    ensures { NamesStay }
{}

/// A name that leads to something after a move led there before it, unless something was put there.
#[tactic(auto, using(crate::proofs::InUsers::Named::names_stood))]
pub fn names_stood()
    ensures { NamesStood }
{}

/// A space stays where it is, unless it is taken from there.
pub fn spaces_stay()
    ensures { SpacesStay }
{}

/// A move that gives a page puts nothing anywhere.
#[tactic(auto, using(crate::proofs::InUsers::Rows::gives_put_nothing))]
pub fn gives_put_nothing()
    ensures { GivesPutNothing }
{}
