//! Names, and paths as texts.
ghost use Rattle.std.specs.Prelude.{◌≡◌, [], map, option_map, IfOk};
ghost use Rattle.std.specs.List.{slice_split};
ghost use Rattle.fk_model.specs.Names as names;
ghost use Rattle.fk_scenario.specs.Fields.Gives.{Gives};
ghost use Rattle.fk_scenario.specs.Fields.Paths as paths;

use crate::fields::fail::{Fail, rule};
use fk_model::{List, plain_number_up_to};
use std::alloc::{AllocError, Global};

/// Whether a text is a name: 1 to 32 characters of a to z, 0 to 9 and `_`.
pub fn is_name(text: &str) -> bool
    ensures { result ≡ names.is_name text.now }
{
    fk_model::is_name(text.as_bytes())
}

/// A path: the slots from the root down.
pub type Path = List<u8>;

fn pieces_of(alloc: Global, text: &[u8]) -> Result<Vec<&[u8]>, AllocError>
    ensures { IfOk result (λ pieces. map (λ piece. piece.now) pieces.items ≡ slice_split paths.is_slash text.now) }
{
    text.split(|byte| *byte == b'/').collect(alloc)
}

#[tactic(auto, unfolding(crate::specs::Fields::Paths::slots_from))]
fn slots_of(alloc: Global, pieces: &[&[u8]]) -> Result<List<u8>, Fail>
    ensures { Gives (λ x. x) result (paths.slots_from [] (map (λ piece. piece.now) pieces.now)) }
{
    let mut slots = List::new(alloc);
    for piece in pieces {
        match plain_number_up_to(239, piece) {
            Some(slot) => slots.push(slot as u8)?,
            None => return Err(Fail::Rule(rule::FORMS)),
        }
    }
    Ok(slots)
}

/// The path that a text is: a slash, or a slash and a slot, repeated.
///
/// # Errors
///
/// `Rule`, with the rule of forms: it is no path. `NoMemory`: there is none for the slots.
#[tactic(auto, unfolding(crate::specs::Fields::Paths::parse_path))]
pub fn parse_path(alloc: Global, text: &str) -> Result<List<u8>, Fail>
    ensures { Gives (λ x. x) result (paths.parse_path text.now) }
{
    match text.as_bytes() {
        [b'/'] => Ok(List::new(alloc)),
        [b'/', slots @ ..] => {
            let pieces = pieces_of(alloc, slots)?;
            slots_of(alloc, &pieces)
        }
        _ => Err(Fail::Rule(rule::FORMS)),
    }
}

/// The path that a text is, if there is a text.
///
/// # Errors
///
/// `Rule`, with the rule of forms: it is no path. `NoMemory`: there is none for the slots.
pub fn optional_path(alloc: Global, text: Option<&str>) -> Result<Option<List<u8>>, Fail>
    ensures { Gives (λ x. x) result (paths.optional_path (option_map (λ s. s.now) text.entry)) }
{
    match text {
        None => Ok(None),
        Some(text) => Ok(Some(parse_path(alloc, text)?)),
    }
}

/// The path of the space in which an object of this path lies.
pub fn enclosing(path: &[u8]) -> &[u8]
    ensures { result.now ≡ paths.enclosing path.now }
{
    &path[..path.len().saturating_sub(1)]
}
