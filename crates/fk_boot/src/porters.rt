//! The porters of nesters.
ghost use Rattle.std.specs.Prelude.{◌≡◌, ℕ, IfOk, OnOk};
ghost use Rattle.fk_model.specs.Objects.Body.{Thread_of};
ghost use Rattle.fk_model.specs.Places.{Path};
ghost use Rattle.fk_model.specs.World.{apply_all};
ghost use Rattle.std.specs.List.{flat_map};
ghost use Rattle.fk_store.specs.Store.Bodies.{thread_by};
ghost use Rattle.fk_store.specs.Store.WellFormed.{IsSized};
ghost use Rattle.fk_store.specs.Store.World.{world};
ghost use Rattle.fk_boot.specs.FirstWorld as definitions;
ghost use Rattle.fk_boot.specs.MadeSoFar.{CanNest, AreNestable};

use crate::names::birth_of;
use fk_model::limits::LAST_PORTER_SLOT;
use fk_model::{Body, Mode, NoMemory, Thread, Who};
use fk_scenario::entries::SpaceEntry;
use fk_store::Store;

/// A porter, which makes the calls of jobs.
fn porter() -> Thread
    ensures body { (paths : ℕ → Path) → Thread_of (thread_by paths result) ≡ definitions.porter }
    ensures talk { result.talk ≡ None }
    ensures fault { result.fault ≡ None }
    ensures sized { IsSized (Body.Thread result) }
{
    Thread {
        regs: [0; 16],
        pc: 0,
        mode: Mode::Native,
        stops: 0,
        talk: None,
        fault: None,
    }
}

/// Makes the porter of a space, where that is a nester.
fn make_porter(store: &mut Store, entry: &SpaceEntry) -> Result<(), NoMemory>
    requires { CanNest (world store.old) entry.now }
    ensures { OnOk result (world store.new ≡ apply_all (definitions.porter_changes entry.now) (world store.old)) }
{
    if !entry.nester {
        return Ok(());
    }
    let who = Who {
        space: birth_of(store, entry.path.as_slice()),
        slot: LAST_PORTER_SLOT as u8,
    };
    store.make(who, Body::Thread(porter()))
}

/// Makes the porters of the nesters among the spaces of a scenario, in the order of its file.
///
/// # Errors
///
/// There is no memory for them.
pub fn make_porters(store: &mut Store, entries: &[SpaceEntry]) -> Result<(), NoMemory>
    requires { AreNestable (world store.old) entries.now }
    ensures { OnOk result (world store.new ≡ apply_all (flat_map definitions.porter_changes entries.now) (world store.old)) }
{
    for entry in entries {
        make_porter(store, entry)?;
    }
    Ok(())
}
