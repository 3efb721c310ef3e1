//! The search for the first place where a held subtree isn't closed.
ghost use Rattle.std.specs.Prelude.{◌≡◌, drop, option_map};
ghost use Rattle.laws_jobs.specs.Machines.{no_words};
ghost use Rattle.laws_jobs.specs.Machines.Head.{Asks};
ghost use Rattle.laws_checkpoint.specs.Foreign as seeks;
ghost use Rattle.laws_checkpoint.specs.Assembly.{sought_tasks};
ghost use Rattle.fk_checkpoint.specs.declared.seeking.seek.Sought.TheVariants as sought;
ghost use Rattle.fk_checkpoint.specs.Seeking.Fields.{fields_in};
ghost use Rattle.fk_checkpoint.specs.Seeking.Seeking.{seek_of, sought_of, look_of, met_at, mets_of, task_for, place_for, tasks_behind};

use crate::seeking::descent::way;
use crate::seeking::fields::{Fields, fields_by, is_strict};
use crate::seeking::met::Met;
use fk_model::Stage;
use fk_model::kind::PORT;
use fk_model::limits::{FIRST_SCRATCH_SLOT, LED_TO, OWN_SPACE};
use fk_model::status::OK;

/// The scratch reference that is led to what a field leads to.
const TARGETS: u64 = FIRST_SCRATCH_SLOT + 1;

/// What a search does next with its object.
#[derive(Clone, Copy)]
pub enum Look {
    /// It goes down to the object's space, and has made so many steps.
    Down { gone: usize },
    /// It reads these fields, and counts then who outside leads to the object.
    Reads { fields: Fields },
    /// Does the field lead to something inside?
    Inside { field: u8, fields: Fields },
    /// Or to a port of the nester?
    Beside { field: u8, fields: Fields },
}

/// A search at an object: the root, or the one before this place of those that were met.
#[derive(Clone, Copy)]
pub struct Seek {
    pub at: usize,
    pub look: Look,
}

/// What a search has come to.
#[derive(Clone, Copy)]
pub enum Sought {
    /// It goes on.
    Goes(Seek),
    /// The subtree is closed.
    Closed,
    /// It isn't: at the object at which the search was, by this field.
    Open { field: u8 },
}

/// The object at which a search is; none where that is the root.
pub fn met_at(mets: &[Met], at: usize) -> Option<&Met>
    ensures { option_map (λ m. m.now) result ≡ met_at mets.now at }
{
    if at == 0 { None } else { mets.get(at - 1) }
}

/// Who outside leads to an object?
fn counting(slot: u8, met: Option<&Met>) -> Stage
    ensures { result ≡ seeks.counting slot (task_for (option_map (λ m. m.now) met.entry)).path }
{
    let base = u64::from(slot);
    match met {
        None => Stage::CountIn {
            base,
            s: base,
            x: OWN_SPACE,
        },
        Some(met) => Stage::CountIn {
            base,
            s: FIRST_SCRATCH_SLOT,
            x: u64::from(met.slot),
        },
    }
}

/// To what does a field of an object lead?
fn reading(met: Option<&Met>, field: u8) -> Stage
    ensures { result ≡ seeks.reading (task_for (option_map (λ m. m.now) met.entry)).path field }
{
    let field = u64::from(field);
    match met {
        None => Stage::GetPtr {
            s: OWN_SPACE,
            x: 0,
            field,
            reference: TARGETS,
        },
        Some(met) => Stage::GetPtr {
            s: FIRST_SCRATCH_SLOT,
            x: u64::from(met.slot),
            field,
            reference: TARGETS,
        },
    }
}

/// The slots from the root down to an object's space.
fn place_of(met: Option<&Met>) -> &[u8]
    ensures { result.now ≡ place_for (option_map (λ m. m.now) met.entry) }
{
    match met {
        None => &[],
        Some(met) => met.place.as_slice(),
    }
}

/// The fields of an object that count.
fn fields_of(met: Option<&Met>) -> Fields
    ensures { fields_in result ≡ (task_for (option_map (λ m. m.now) met.entry)).fields }
{
    match met {
        None => Fields::Nothing,
        Some(met) => fields_by(met.kind),
    }
}

/// Whether an object may not even lead to a port of the nester.
fn is_strict_at(met: Option<&Met>) -> bool
    ensures { result ≡ (task_for (option_map (λ m. m.now) met.entry)).strict }
{
    match met {
        None => false,
        Some(met) => is_strict(met.kind),
    }
}

/// Whether words tell of a port in one of the space's own slots.
pub fn tells_port(words: &[u64]) -> bool
    ensures { result ≡ seeks.tells_port words.now }
{
    match words {
        [_, far, kind, ..] => *far == 0 && *kind == PORT,
        _ => false,
    }
}

/// Whether a count is none.
fn is_zero(words: &[u64]) -> bool
    ensures { result ≡ seeks.is_zero words.now }
{
    match words {
        [count, ..] => *count == 0,
        _ => false,
    }
}

/// Where a field leads: nowhere, somewhere, or where no reference tells.
fn read(words: &[u64], nowhere: Sought, somewhere: Sought, other: Sought) -> Sought
    ensures { (slot : _) (mets : _) (at : _) → sought_of slot mets at result
        ≡ seeks.read (sought_of slot mets at nowhere) (sought_of slot mets at somewhere) (sought_of slot mets at other) words.now }
{
    match words {
        [0 | 1, ..] => nowhere,
        [2, ..] => somewhere,
        _ => other,
    }
}

impl Seek {
    /// A search that begins at the root.
    pub fn new() -> Seek
        ensures { (slot : _) (mets : _) → seek_of slot mets result ≡ seeks.begin slot (sought_tasks (mets_of mets)) }
    {
        Seek {
            at: 0,
            look: Look::Reads {
                fields: Fields::Nothing,
            },
        }
    }

    /// The next call of a search in the subtree in a slot, whose objects are these.
    pub fn next(&self, slot: u8, mets: &[Met]) -> Stage
        ensures { seeks.head slot (seek_of slot mets.now self.now) ≡ Asks result no_words }
    {
        let met = met_at(mets, self.at);
        match self.look {
            Look::Down { gone } => way(slot, place_of(met), gone),
            Look::Reads { fields } => match fields.split() {
                None => counting(slot, met),
                Some((field, _)) => reading(met, field),
            },
            Look::Inside { .. } => Stage::Locate {
                reference: TARGETS,
                s: u64::from(slot),
            },
            Look::Beside { .. } => Stage::Locate {
                reference: TARGETS,
                s: OWN_SPACE,
            },
        }
    }

    /// A search at the object at which it stands, looked at in another way.
    fn on(&self, look: Look) -> Sought
        ensures { result ≡ sought.Goes (record { at = self.now.at; look = look }) }
    {
        Sought::Goes(Seek { at: self.at, look })
    }

    /// The next object, or the end.
    #[tactic(auto, using(crate::proofs::InSeeking::Ways::begins_next, crate::proofs::InSeeking::Ways::no_more))]
    fn pass(&self, mets: &[Met]) -> Sought
        ensures { (slot : _) → sought_of slot mets.now self.now.at result ≡ seeks.begin slot (tasks_behind mets.now self.now.at) }
    {
        if self.at < mets.len() {
            Sought::Goes(Seek {
                at: self.at + 1,
                look: Look::Down { gone: 0 },
            })
        } else {
            Sought::Closed
        }
    }

    /// Goes a step down, or has come to the object's space.
    #[tactic(auto, using(crate::proofs::InSeeking::Ways::next_way, crate::proofs::InSeeking::Ways::no_more))]
    fn go_down(&self, met: Option<&Met>, gone: usize) -> Look
        ensures { (slot : _) (ts : _) → look_of slot (place_for (option_map (λ m. m.now) met.entry)) (task_for (option_map (λ m. m.now) met.entry)) ts result
            ≡ seeks.arrive (drop gone (place_for (option_map (λ m. m.now) met.entry))) (task_for (option_map (λ m. m.now) met.entry)) ts }
    {
        if gone < place_of(met).len() {
            Look::Down { gone: gone + 1 }
        } else {
            Look::Reads {
                fields: fields_of(met),
            }
        }
    }

    /// Takes an answer.
    pub fn absorb(&self, slot: u8, mets: &[Met], status: u8, words: &[u64]) -> Sought
        ensures { sought_of slot mets.now self.now.at result ≡ seeks.next slot (seek_of slot mets.now self.now) status words.now }
    {
        let met = met_at(mets, self.at);
        match self.look {
            Look::Down { gone } => self.on(self.go_down(met, gone)),
            Look::Reads { fields } => match fields.split() {
                None if is_zero(words) => self.pass(mets),
                None => Sought::Open { field: LED_TO },
                Some((field, fields)) => read(
                    words,
                    self.on(Look::Reads { fields }),
                    self.on(Look::Inside { field, fields }),
                    Sought::Open { field },
                ),
            },
            Look::Inside { fields, .. } if status == OK => self.on(Look::Reads { fields }),
            Look::Inside { field, .. } if is_strict_at(met) => Sought::Open { field },
            Look::Inside { field, fields } => self.on(Look::Beside { field, fields }),
            Look::Beside { fields, .. } if status == OK && tells_port(words) => {
                self.on(Look::Reads { fields })
            }
            Look::Beside { field, .. } => Sought::Open { field },
        }
    }
}
