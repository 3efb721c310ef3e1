//! The gathering of pointers, object by object.
ghost use Rattle.std.specs.Prelude.{◌≡◌, ◌<◌, ◌++◌, ◌∷◌, [], drop, vec_len, vec_capacity, Some, None, IfSome, IfNone, OnOk, if◌then◌else◌, ◌==◌};
ghost use Rattle.laws_jobs.specs.Machines.{no_words};
ghost use Rattle.laws_jobs.specs.Machines.Head.{Asks};
ghost use Rattle.fk_model.specs.Places.{Ptr as ptrs};
ghost use Rattle.fk_model.specs.declared.statuses.status.TheConstants.{OK};
ghost use Rattle.laws_checkpoint.specs.Gather as gathers;
ghost use Rattle.laws_checkpoint.specs.Assembly.{gathered_tasks};
ghost use Rattle.fk_checkpoint.specs.Seeking.Seeking.{answered, up};
ghost use Rattle.fk_checkpoint.specs.Seeking.Fields.{fields_in};
ghost use Rattle.fk_checkpoint.specs.Gathering.Gathering.{contents_of, leads_of, lead_of};
ghost use Rattle.fk_checkpoint.specs.Gathering.Gathered.{gather_of, gathered, HasRoom, task_at, tasks_behind};
ghost use Rattle.fk_checkpoint.specs.Gathering.Todos.{place_of};
ghost use Rattle.laws_checkpoint.specs.Foreign.{told_pointer};

use crate::gathering::content::{Content, Lead};
use crate::gathering::todo::{Todo, first, following, place_of};
use crate::seeking::{Fields, tells_port, way, words_of};
use fk_model::limits::{FIRST_SCRATCH_SLOT, OWN_SPACE};
use fk_model::status::OK;
use fk_model::{Answer, List, NoMemory, Stage};
use std::alloc::Global;
use std::mem;

/// The scratch references that are led to what a field leads to, and to the space down to which a descent has come.
const TARGETS: u64 = FIRST_SCRATCH_SLOT + 1;

const STEPS: u64 = FIRST_SCRATCH_SLOT + 2;

/// What a gatherer does next with its object.
#[derive(Clone, Copy)]
pub enum Step {
    /// It goes down to the object's space, and has made so many steps.
    Down {
        gone: usize,
    },
    /// It reads a field, and then those.
    Reads {
        field: u8,
        fields: Fields,
    },
    /// Where does what the field leads to lie, in the space down to which it has come?
    Looks {
        field: u8,
        fields: Fields,
    },
    /// It goes on down by a slot.
    Leads {
        slot: u64,
        field: u8,
        fields: Fields,
    },
    /// Or is it a port of the nester?
    Beside {
        field: u8,
        fields: Fields,
    },
}

/// A gatherer at an object.
#[derive(Drop)]
pub struct Gather {
    todo: Todo,
    step: Step,
    /// The slots from the subtree's root down to the space down to which it has come.
    at: Vec<u64>,
    leads: Vec<Lead>,
}

impl Gather {
    /// A gatherer of the pointers of these spaces; none where there are none.
    pub fn new(alloc: Global, contents: &[Content]) -> Option<Gather>
        ensures some { IfSome result (λ g. (slot : _) → gather_of slot contents.now g ≡ gathers.begin slot (gathered_tasks (contents_of contents.now)) []) }
        ensures none { IfNone result ((slot : _) → gathers.begin slot (gathered_tasks (contents_of contents.now)) [] ≡ gathers.Over []) }
    {
        let todo = first(contents)?;
        Some(Gather {
            todo,
            step: Step::Down { gone: 0 },
            at: Vec::new(alloc),
            leads: Vec::new(alloc),
        })
    }

    /// How the space is named down to which it has come.
    fn here(&self, slot: u8) -> u64
        ensures { result ≡ gathers.place_at slot (up self.now.at.items) }
    {
        if self.at.as_slice().is_empty() {
            return u64::from(slot);
        }
        STEPS
    }

    /// The next call of a gatherer in the subtree in a slot, whose spaces these are.
    pub fn next(&self, slot: u8, contents: &[Content]) -> Stage
        ensures { gathers.head slot (gather_of slot contents.now self.now) ≡ Asks result no_words }
    {
        match self.step {
            Step::Down { gone } => way(slot, place_of(contents, &self.todo), gone),
            Step::Reads { field, .. } => Stage::GetPtr {
                s: FIRST_SCRATCH_SLOT,
                x: u64::from(self.todo.slot),
                field: u64::from(field),
                reference: TARGETS,
            },
            Step::Looks { .. } => Stage::Locate {
                reference: TARGETS,
                s: self.here(slot),
            },
            Step::Leads { slot: x2, .. } => Stage::Point {
                s: OWN_SPACE,
                x: STEPS,
                s2: self.here(slot),
                x2,
            },
            Step::Beside { .. } => Stage::Locate {
                reference: TARGETS,
                s: OWN_SPACE,
            },
        }
    }

    /// The pointers that were gathered.
    pub fn into_leads(self) -> Vec<Lead>
        ensures { result.items ≡ self.leads.items }
    {
        self.leads
    }

    /// Makes room for one answer, and changes nothing else.
    ///
    /// # Errors
    ///
    /// There is no memory for one answer.
    pub fn reserve(&mut self) -> Result<(), NoMemory>
        ensures same { (slot : _) (contents : _) → gather_of slot contents self.new ≡ gather_of slot contents self.old }
        ensures room { OnOk result (HasRoom self.new) }
    {
        self.at.reserve(1)?;
        self.leads.reserve(1)?;
        Ok(())
    }

    /// Goes on with these fields, or with the next object; or it is over.
    fn go_on(&mut self, contents: &[Content], fields: Fields) -> bool
        ensures { (slot : _) → gathered result slot contents.now self.new
            ≡ gathers.go_on slot (fields_in fields) (task_at contents.now self.old) (tasks_behind contents.now self.old) (leads_of self.old.leads.items) }
    {
        if let Some((field, fields)) = fields.split() {
            self.step = Step::Reads { field, fields };
            return false;
        }
        match following(contents, &self.todo) {
            None => true,
            Some(todo) => {
                self.todo = todo;
                self.step = Step::Down { gone: 0 };
                false
            }
        }
    }

    /// Takes where a field leads, and goes on.
    fn take(&mut self, contents: &[Content], lead: Lead, fields: Fields) -> bool
        requires { vec_len self.old.leads < vec_capacity self.old.leads }
        ensures { (slot : _) → gathered result slot contents.now self.new
            ≡ gathers.takes slot (lead_of lead) (fields_in fields) (task_at contents.now self.old) (tasks_behind contents.now self.old)
            (leads_of self.old.leads.items) }
    {
        self.leads.push_reserved(lead);
        self.go_on(contents, fields)
    }

    /// Goes a step down, or has come to the object's space.
    #[tactic(auto, using(crate::proofs::InSeeking::Ways::next_way, crate::proofs::InSeeking::Ways::no_more))]
    fn go_down(&mut self, contents: &[Content], gone: usize) -> bool
        ensures { (slot : _) → gathered result slot contents.now self.new
            ≡ gathers.arrive slot (drop gone (place_of contents.now self.old.todo)) (task_at contents.now self.old) (tasks_behind contents.now self.old)
            (leads_of self.old.leads.items) }
    {
        if gone < place_of(contents, &self.todo).len() {
            self.step = Step::Down { gone: gone + 1 };
            return false;
        }
        self.go_on(contents, self.todo.fields)
    }

    /// What a field was read as.
    fn read(&mut self, contents: &[Content], field: u8, fields: Fields, words: &[u64]) -> bool
        requires { HasRoom self.old }
        ensures { (slot : _) → gathered result slot contents.now self.new
            ≡ gathers.read slot field (fields_in fields) (task_at contents.now self.old) (tasks_behind contents.now self.old)
            (leads_of self.old.leads.items) words.now }
    {
        match words {
            [] => true,
            [0, ..] => self.take(contents, Lead::Null, fields),
            [1, ..] => self.take(contents, Lead::Dead, fields),
            [2, ..] => {
                self.at.clear();
                self.step = Step::Looks { field, fields };
                false
            }
            _ => self.take(contents, Lead::Far, fields),
        }
    }

    /// The way to the space down to which it has come.
    fn way(&mut self) -> Lead
        ensures lead { lead_of result ≡ ptrs.At (up self.old.at.items) }
        ensures leads { self.new.leads ≡ self.old.leads }
        ensures todo { self.new.todo ≡ self.old.todo }
    {
        let alloc = *self.at.allocator();
        Lead::At(List::of(mem::replace(&mut self.at, Vec::new(alloc))))
    }

    /// Where what the field leads to was found to lie.
    #[tactic(auto, using(crate::proofs::InSeeking::Ways::up_more))]
    fn locate(&mut self, contents: &[Content], field: u8, fields: Fields, words: &[u64]) -> bool
        requires { HasRoom self.old }
        ensures { (slot : _) → gathered result slot contents.now self.new
            ≡ gathers.looked slot (up self.old.at.items) field (fields_in fields) (task_at contents.now self.old) (tasks_behind contents.now self.old)
            (leads_of self.old.leads.items) words.now }
    {
        match words {
            [slot, 0, ..] => {
                if *slot != OWN_SPACE {
                    self.at.push_reserved(*slot);
                }
                let lead = self.way();
                self.take(contents, lead, fields)
            }
            [slot, _, ..] => {
                self.step = Step::Leads {
                    slot: *slot,
                    field,
                    fields,
                };
                false
            }
            _ => true,
        }
    }

    /// Takes an answer. That uses up its room. It answers whether it is over.
    pub fn absorb(&mut self, contents: &[Content], answer: &Answer) -> bool
        requires { HasRoom self.old }
        ensures { (slot : _) → gathered result slot contents.now self.new
            ≡ gathers.next slot (gather_of slot contents.now self.old) answer.now.status (answered answer.now) }
    {
        let words = words_of(answer);
        match self.step {
            Step::Down { gone } => self.go_down(contents, gone),
            Step::Reads { field, fields } => self.read(contents, field, fields, words),
            Step::Looks { field, fields } if answer.status == OK => {
                self.locate(contents, field, fields, words)
            }
            Step::Looks { field, fields } => {
                self.step = Step::Beside { field, fields };
                false
            }
            Step::Leads {
                slot,
                field,
                fields,
            } => {
                self.at.push_reserved(slot);
                self.step = Step::Looks { field, fields };
                false
            }
            Step::Beside { fields, .. } => {
                self.take(contents, beside(answer.status, words), fields)
            }
        }
    }
}

/// What the nester tells of where a field leads.
fn beside(status: u8, words: &[u64]) -> Lead
    ensures { lead_of result ≡ told_pointer None (if status == OK then Some words.now else None) }
{
    match words {
        [slot, ..] if status == OK && tells_port(words) => Lead::Out(*slot),
        _ => Lead::Far,
    }
}
