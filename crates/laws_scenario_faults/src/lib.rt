//! The scenario that a document says, and the first refusal of one that says none, by what each entry is asked alone: each law is
//! the contract of a function that does nothing.
//!
//! It stands on `fk_scenario`, whose readings tell the scenario or the refusal. `specs/Keys.antt` has what stands at keys, and
//! `specs/Scenarios.antt` what the entries of a document say. `specs/Asked.antt` says what it is that an entry breaks a
//! rule first and all before it keep theirs, `specs/Entries.antt` and `specs/Objects.antt` list what entries are asked, by
//! rule and in order, and `specs/Refusals.antt` has the sections and rounds of a document. No reader is in any of them.
#![tactic(auto)]

ghost use Rattle.laws_scenario_faults.specs.Refusals.{RefusalsAreFirst, BreaksAreTold};
ghost use Rattle.laws_scenario_faults.specs.Scenarios.{ScenariosAreSaid};

/// A scenario is read of bytes exactly where they are a document that says it: each entry is right, among those before it and among all
/// others, and each field of the scenario is told by the entry that gives it, or is the default where a key is left out.
pub fn scenarios_are_said()
    ensures { ScenariosAreSaid }
{}

/// Whatever refusal is told of a document, it is its first: the entry with its index breaks its rule, before which that
/// entry keeps all that it is asked, and all entries before it keep their rules.
pub fn refusals_are_first()
    ensures { RefusalsAreFirst }
{}

/// Where an entry is the first to break a rule, that is the refusal that is told.
pub fn breaks_are_told()
    ensures { BreaksAreTold }
{}
