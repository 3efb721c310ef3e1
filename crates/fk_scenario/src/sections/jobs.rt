//! The jobs of a document, each by itself.
ghost use Rattle.std.specs.Prelude.{[], option_map, unwrap_or};
ghost use Rattle.toml.specs.Data.{no_items};
ghost use Rattle.toml.specs.View.{array_view};
ghost use Rattle.fk_scenario.specs.Fields.Gives.{Answers};
ghost use Rattle.fk_scenario.specs.Sections.Jobs as definitions;

use crate::entries::{JobEntry, job_in};
use crate::fields::{ScenarioFail, index_at};
use fk_model::List;
use std::alloc::Global;
use toml::value::Array;

const SECTION: u8 = 6;

#[tactic(auto, unfolding(crate::specs::Sections::Jobs::entries_from))]
fn entries_of(alloc: Global, array: &Array) -> Result<List<JobEntry>, ScenarioFail>
    ensures { Answers result (definitions.entries_from [] (array_view array.now)) }
{
    let mut jobs = List::new(alloc);
    for value in array {
        let index = index_at(jobs.len())?;
        match job_in(alloc, jobs.len(), value) {
            Ok(job) => jobs.push(job)?,
            Err(fail) => return Err(fail.at(SECTION, index)),
        }
    }
    Ok(jobs)
}

/// The jobs of the section, if it is there, each by itself.
///
/// # Errors
///
/// `Scenario`: the refusal of the first entry that is refused. `NoMemory`: there is none for the entries.
#[tactic(auto, unfolding(crate::specs::Sections::Jobs::entries_from))]
pub fn entries_in(alloc: Global, array: Option<&Array>) -> Result<List<JobEntry>, ScenarioFail>
    ensures { Answers result (definitions.entries_from [] (unwrap_or (option_map (λ a. array_view a.now) array.entry) no_items)) }
{
    match array {
        Some(array) => entries_of(alloc, array),
        None => Ok(List::new(alloc)),
    }
}
