//! The store with which a scenario begins.
ghost use Rattle.std.specs.Prelude.{◌≡◌, ◌≤◌, [], All, OnOk, IfOk};
ghost use Rattle.std.specs.List.{flat_map};
ghost use Rattle.fk_model.specs.Valid.{IsValid, kind_there};
ghost use Rattle.fk_model.specs.Whole.{IsSavable};
ghost use Rattle.laws_moves.specs.Whole.Runnable.{IsRunnable};
ghost use Rattle.fk_model.specs.World.{apply_all};
ghost use Rattle.fk_scenario.specs.Sections.Kept.{EachAfter, KeepsSpace, KeepsObject};
ghost use Rattle.fk_scenario.specs.Scenario.Kept.{KeepsScenario};
ghost use Rattle.fk_scenario.specs.Sections.Spaces.{count_beneath};
ghost use Rattle.fk_store.specs.Store.World.{world, first_world};
ghost use Rattle.fk_boot.specs.FirstWorld.{booted, space_changes, object_changes, aim_changes, served_ports};
ghost use Rattle.fk_boot.specs.MadeSoFar.{CanStand, CanAim, StandsAt, AreBorn, HasSpaces, HasObjects};

use crate::aims::aim_object;
use crate::making::{make_object, make_space};
use crate::pages::{put_program, put_zeros, words_of_program};
use crate::porters::make_porters;
use crate::words::read_words;
use fk_model::NoMemory;
use fk_scenario::Scenario;
use fk_scenario::entries::{ObjectEntry, Program, ServerEntry, SpaceEntry};
use fk_scenario::fields::{Entries, Path};
use fk_store::Store;
use std::alloc::Global;

/// Makes a space with its pages of zeros and its program.
fn put_space(store: &mut Store, programs: &[Program], entry: &SpaceEntry) -> Result<(), NoMemory>
    requires place { CanStand (world store.old) entry.now.path }
    requires births { AreBorn (world store.old) }
    requires few { (world store.old).next ≤ 256 }
    ensures { OnOk result (world store.new ≡ apply_all (space_changes programs.now entry.now) (world store.old)) }
{
    let space = make_space(store, entry.path.as_slice())?;
    put_zeros(store, space, entry.pages.as_slice())?;
    put_program(store, space, words_of_program(programs, entry.program))
}

/// Makes the spaces of a scenario, in the order of its file.
fn make_spaces(
    store: &mut Store,
    programs: &[Program],
    entries: &[SpaceEntry],
) -> Result<(), NoMemory>
    requires first { world store.old ≡ first_world }
    requires keeps { EachAfter (KeepsSpace programs.now) [] entries.now }
    requires few { count_beneath entries.now ≤ 255 }
    ensures world { OnOk result (world store.new ≡ apply_all (flat_map (space_changes programs.now) entries.now) (world store.old)) }
    ensures stands { OnOk result (HasSpaces (world store.new) entries.now) }
{
    for entry in entries {
        put_space(store, programs, entry)?;
    }
    Ok(())
}

/// Makes the objects of a scenario, in the order of its file. The ports with these paths are served.
fn make_objects(
    store: &mut Store,
    ports: &Entries<Path>,
    spaces: &[SpaceEntry],
    entries: &[ObjectEntry],
) -> Result<(), NoMemory>
    requires spaces { HasSpaces (world store.old) spaces.now }
    requires keeps { EachAfter (KeepsObject spaces.now) [] entries.now }
    ensures world { OnOk result (world store.new ≡ apply_all (flat_map (object_changes ports.now) entries.now) (world store.old)) }
    ensures stands { OnOk result (HasObjects (world store.new) spaces.now entries.now) }
{
    for entry in entries {
        make_object(store, ports, entry)?;
    }
    Ok(())
}

/// Lets the objects of a scenario lead where they are to, in the order of its file.
fn aim_objects(store: &mut Store, entries: &[ObjectEntry])
    requires { All (CanAim (world store.old)) entries.now }
    ensures world { world store.new ≡ apply_all (flat_map aim_changes entries.now) (world store.old) }
    ensures kinds { kind_there (world store.new) ≡ kind_there (world store.old) }
{
    for entry in entries {
        aim_object(store, entry);
    }
}

/// The ports that servers have.
fn ports_of(alloc: Global, servers: &[ServerEntry]) -> Result<Entries<Path>, NoMemory>
    ensures { IfOk result (λ ports. ports ≡ served_ports servers.now) }
{
    let mut ports = Entries::new(alloc);
    for server in servers {
        ports = ports.with(alloc, server.port.copy()?)?;
    }
    Ok(ports)
}

/// The store with which a scenario begins: its spaces with their pages of zeros and their programs,
/// then its objects, of which the ports of servers are served, then where these lead, and then the porters
/// of nesters, each in the order of the file. Spaces have birth numbers from 1 on, and the root 0. Its world is valid, a run may begin in it,
/// and it can be saved. For want of memory there is none.
///
/// # Errors
///
/// There is no memory for the store.
pub fn first_store(alloc: Global, scenario: &Scenario) -> Result<Store, NoMemory>
    requires { KeepsScenario scenario.now }
    ensures world { IfOk result (λ store. world store ≡ booted scenario.now) }
    ensures ports { IfOk result (λ store. All (λ s. StandsAt (world store) s.port) scenario.now.servers) }
    ensures valid { IfOk result (λ store. IsValid (world store)) }
    ensures runnable { IfOk result (λ store. IsRunnable (world store)) }
    ensures savable { IfOk result (λ store. IsSavable (world store)) }
{
    read_words(scenario);
    let mut store = Store::new(alloc)?;
    let spaces = scenario.spaces.as_slice();
    make_spaces(&mut store, scenario.programs.as_slice(), spaces)?;
    let ports = ports_of(alloc, scenario.servers.as_slice())?;
    let objects = scenario.objects.as_slice();
    make_objects(&mut store, &ports, spaces, objects)?;
    aim_objects(&mut store, objects);
    make_porters(&mut store, spaces)?;
    Ok(store)
}
