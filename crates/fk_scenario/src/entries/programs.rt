//! Programs.
ghost use Rattle.std.specs.Prelude.{◌≡◌};
ghost use Rattle.toml.specs.View.{view};
ghost use Rattle.fk_scenario.specs.Fields.Gives.{Gives};
ghost use Rattle.fk_scenario.specs.Entries.Programs as definitions;

use crate::entries::types::Program;
use crate::fields::{Fail, is_name, rule, unless};
use fk_asm::{AsmFail, assemble};
use fk_model::{List, Text};
use std::alloc::Global;
use toml::Value;

fn program_words(alloc: Global, text: &str) -> Result<List<u64>, Fail>
    ensures { Gives (λ x. x) result (definitions.program_words text.now) }
{
    match assemble(alloc, text.as_bytes()) {
        Ok(words) => Ok(List::of(words)),
        Err(AsmFail::Text(_)) => Err(Fail::Rule(rule::PROGRAMS)),
        Err(AsmFail::NoMemory) => Err(Fail::NoMemory),
    }
}

/// The program at a name: its text, assembled.
///
/// # Errors
///
/// `Rule`: the value is no text, the name is ill-formed, or the text is refused, in this order. `NoMemory`: there is none for the program.
#[tactic(auto, unfolding(crate::specs::Entries::Programs::program_of))]
pub fn program_of(alloc: Global, name: &str, value: &Value) -> Result<Program, Fail>
    ensures { Gives (λ x. x) result (definitions.program_of name.now (view value.now)) }
{
    let text = match value.as_str() {
        Some(text) => text,
        None => return Err(Fail::Rule(rule::KEYS)),
    };
    unless(rule::FORMS, is_name(name))?;
    let words = program_words(alloc, text)?;
    Ok(Program {
        name: Text::of(alloc, name)?,
        words,
    })
}
