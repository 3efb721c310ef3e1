//! The programs of a document.
ghost use Rattle.std.specs.Prelude.{◌≡◌, [], option_map, unwrap_or};
ghost use Rattle.toml.specs.Data.{no_members};
ghost use Rattle.toml.specs.View.{table_view};
ghost use Rattle.fk_scenario.specs.Fields.Gives.{Gives, Answers};
ghost use Rattle.fk_scenario.specs.Sections.Programs as definitions;

use crate::entries::{Program, program_of};
use crate::fields::{Entries, Fail, ScenarioFail, index_at, rule};
use std::alloc::Global;
use toml::Table;

const SECTION: u8 = 2;

#[tactic(auto, unfolding(crate::specs::Sections::Programs::programs_from))]
fn programs_of(alloc: Global, table: &Table) -> Result<Entries<Program>, ScenarioFail>
    ensures { Answers result (definitions.programs_from [] (table_view table.now)) }
{
    let mut programs = Entries::new(alloc);
    for (name, value) in table {
        let index = index_at(programs.len())?;
        match program_of(alloc, name.as_str(), value) {
            Ok(program) => programs = programs.with(alloc, program)?,
            Err(fail) => return Err(fail.at(SECTION, index)),
        }
    }
    Ok(programs)
}

/// The programs of the section, by name, if it is there.
///
/// # Errors
///
/// `Scenario`: the refusal of the first entry that is refused. `NoMemory`: there is none for the entries.
#[tactic(auto, unfolding(crate::specs::Sections::Programs::programs_from))]
pub fn programs_in(alloc: Global, table: Option<&Table>) -> Result<Entries<Program>, ScenarioFail>
    ensures { Answers result (definitions.programs_from [] (unwrap_or (option_map (λ t. table_view t.now) table.entry) no_members)) }
{
    match table {
        Some(table) => programs_of(alloc, table),
        None => Ok(Entries::new(alloc)),
    }
}

/// The index of the program that a space names, if it names one.
///
/// # Errors
///
/// `Rule`: no program has that name. `NoMemory`: there are more programs than an index can count.
#[tactic(auto, unfolding(crate::specs::Sections::Programs::index_of))]
pub fn index_of(programs: &Entries<Program>, name: Option<&str>) -> Result<Option<u32>, Fail>
    ensures { Gives (λ x. x) result (definitions.index_of programs.now (option_map (λ s. s.now) name.entry)) }
{
    match name {
        None => Ok(None),
        Some(name) => match programs.position(name.as_bytes()) {
            Some(index) => Ok(Some(index_at(index)?)),
            None => Err(Fail::Rule(rule::PROGRAMS)),
        },
    }
}
