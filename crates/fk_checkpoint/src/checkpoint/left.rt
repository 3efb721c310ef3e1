//! The spaces of a subtree that are to be read, and the way from the subtree's root down to an object.
ghost use Rattle.std.specs.Prelude.{◌≡◌, ◌++◌, ◌∷◌, [], option_map, slice_get, IfOk, OnOk};
ghost use Rattle.fk_checkpoint.specs.Seeking.Seeking.{met_of, mets_of, task_for, up};
ghost use Rattle.fk_checkpoint.specs.Gathering.Gathering.{paths_left};
ghost use Rattle.laws_checkpoint.specs.Assembly.{spaces_met};
ghost use Rattle.fk_checkpoint.specs.Checkpoint.Lefts.{space_in, spaces_in};

use crate::seeking::Met;
use fk_model::kind::SPACE;
use fk_model::{List, NoMemory};
use std::alloc::Global;

/// The slots from the root down to a space that was met.
fn path_of(alloc: Global, met: &Met) -> Result<List<u8>, NoMemory>
    ensures { IfOk result (λ path. path ≡ met.now.place ++ met.now.slot ∷ []) }
{
    let mut path = Vec::new(alloc);
    path.extend_from_slice(met.place.as_slice())?;
    path.push(met.slot)?;
    Ok(List::of(path))
}

/// Adds what was met, where that is a space.
#[tactic(auto, using(crate::proofs::InCheckpoint::Lefts::one_left))]
fn push_met(alloc: Global, left: &mut Vec<List<u8>>, met: &Met) -> Result<(), NoMemory>
    ensures { OnOk result (paths_left left.new.items ≡ space_in (met_of met.now) ++ paths_left left.old.items) }
{
    if met.kind == SPACE {
        let path = path_of(alloc, met)?;
        left.push(path)?;
    }
    Ok(())
}

/// Adds what was met at a place, where that is a space.
fn push_at(alloc: Global, left: &mut Vec<List<u8>>, mets: &[Met], at: usize) -> Result<(), NoMemory>
    ensures { OnOk result (paths_left left.new.items ≡ spaces_in (slice_get mets.now at) ++ paths_left left.old.items) }
{
    match mets.get(at) {
        Some(met) => push_met(alloc, left, met),
        None => Ok(()),
    }
}

/// The spaces that were met, the first one last. It stands apart, since it is asked for once.
///
/// # Errors
///
/// There is no memory for the list.
#[inline(never)]
pub fn spaces_left(alloc: Global, mets: &[Met]) -> Result<Vec<List<u8>>, NoMemory>
    ensures { IfOk result (λ left. spaces_met (mets_of mets.now) ≡ [] ∷ paths_left left.items) }
{
    let mut left = Vec::new(alloc);
    let mut at = mets.len();
    while at > 0 {
        at -= 1;
        push_at(alloc, &mut left, mets, at)?;
    }
    Ok(left)
}

/// The slots from that of the subtree's root down to an object's own.
///
/// # Errors
///
/// There is no memory for the path.
#[tactic(auto, using(crate::proofs::InCheckpoint::Lefts::met_last))]
pub fn from_root(alloc: Global, slot: u8, met: Option<&Met>) -> Result<List<u8>, NoMemory>
    ensures { IfOk result (λ path. up path ≡ (task_for (option_map (λ m. m.now) met.entry)).path ++ slot ∷ []) }
{
    let mut path = Vec::new(alloc);
    path.push(slot)?;
    if let Some(met) = met {
        path.extend_from_slice(met.place.as_slice())?;
        path.push(met.slot)?;
    }
    Ok(List::of(path))
}
