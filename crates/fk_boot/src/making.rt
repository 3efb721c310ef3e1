//! The spaces and the objects with which a scenario begins.
ghost use Rattle.std.specs.Prelude.{◌≡◌, ℕ, ◌<◌, ◌≤◌, length, reverse, false, None, OnOk, IfOk};
ghost use Rattle.fk_model.specs.Objects.Body.{Thread_of};
ghost use Rattle.fk_model.specs.Places.{Path};
ghost use Rattle.fk_model.specs.World.{apply_all};
ghost use Rattle.fk_scenario.specs.Entries.Kept.{IsSpecInRange};
ghost use Rattle.fk_scenario.specs.declared.entries.types.Spec.TheVariants as specs;
ghost use Rattle.fk_store.specs.Store.Contents.{Contents};
ghost use Rattle.fk_store.specs.Store.Bodies.{body_by, thread_by};
ghost use Rattle.fk_store.specs.Store.Makes.{IsNext};
ghost use Rattle.fk_store.specs.Store.Named.{OnNamed};
ghost use Rattle.fk_store.specs.Store.WellFormed.{IsSized};
ghost use Rattle.fk_store.specs.Store.Paths.{path};
ghost use Rattle.fk_store.specs.Store.World.{world, IsLive, IsSpace};
ghost use Rattle.fk_boot.specs.FirstWorld as definitions;
ghost use Rattle.fk_boot.specs.MadeSoFar.{HasPlace, CanStand, AreBorn};

use crate::names::name_of;
use fk_model::{Body, Mode, NoMemory, Ptr, Thread};
use fk_scenario::entries::{ObjectEntry, Spec};
use fk_scenario::fields::{Entries, Path as Slots};
use fk_store::Store;

/// Makes a space, unless it is the root, and gives its birth number.
///
/// # Errors
///
/// There is no memory for it.
pub fn make_space(store: &mut Store, slots: &[u8]) -> Result<u32, NoMemory>
    requires place { CanStand (world store.old) slots.now }
    requires births { AreBorn (world store.old) }
    requires few { (world store.old).next ≤ 256 }
    ensures world { OnOk result (world store.new ≡ apply_all (definitions.space_itself (reverse slots.now)) (world store.old)) }
    ensures path { IfOk result (λ space. path store.new space ≡ reverse slots.now) }
    ensures space { IfOk result (λ space. IsSpace store.new space) }
{
    if slots.is_empty() {
        return Ok(0);
    }
    let who = name_of(store, slots);
    let birth = store.next_birth();
    store.make(
        who,
        Body::Space {
            birth,
            holder: None,
        },
    )?;
    Ok(birth)
}

/// A thread that runs from its entry on, with these first registers, at most 16, and zeros in the
/// others.
fn first_thread(entry: u16, given: &[u64], stops: u16) -> Thread
    requires { length given.now ≤ 16 }
    ensures body { (paths : ℕ → Path) → Thread_of (thread_by paths result) ≡ definitions.first_body false (specs.Thread entry given.now stops) }
    ensures talk { result.talk ≡ None }
    ensures fault { result.fault ≡ None }
    ensures sized { IsSized (Body.Thread result) }
{
    let mut regs = [0; 16];
    regs[..given.len()].copy_from_slice(given);
    Thread {
        regs,
        pc: u64::from(entry),
        mode: Mode::Running,
        stops,
        talk: None,
        fault: None,
    }
}

/// What an object is at first. Nothing leads anywhere, and no port is in a set. A port may be served.
fn first_body(spec: &Spec, served: bool) -> Body
    requires { IsSpecInRange spec.now }
    ensures body { (paths : ℕ → Path) → body_by paths result ≡ definitions.first_body served spec.now }
    ensures birth { (next : ℕ) → IsNext next result }
    ensures named { (m : Contents) → OnNamed (IsLive m) result }
    ensures sized { IsSized result }
{
    match spec {
        Spec::Thread { entry, regs, stops } => {
            Body::Thread(first_thread(*entry, regs.as_slice(), *stops))
        }
        Spec::Mutex { locked } => Body::Mutex { locked: *locked },
        Spec::Cond => Body::Cond,
        Spec::Portset => Body::Portset,
        Spec::Mapping {
            first,
            count,
            offset,
            write,
            ..
        } => Body::Mapping {
            first: *first,
            count: *count,
            offset: *offset,
            write: *write,
            region: Ptr::Null,
        },
        Spec::Region {
            first,
            count,
            write,
            ..
        } => Body::Region {
            first: *first,
            count: *count,
            write: *write,
            keeper: Ptr::Null,
        },
        Spec::Port { set } => Body::Port {
            set: None,
            served: set.is_none() && served,
        },
        Spec::Reference { .. } => Body::Reference { to: Ptr::Null },
    }
}

/// Makes an object. The ports with these paths are served.
///
/// # Errors
///
/// There is no memory for it.
pub fn make_object(
    store: &mut Store,
    ports: &Entries<Slots>,
    object: &ObjectEntry,
) -> Result<(), NoMemory>
    requires beneath { 0 < length object.now.path }
    requires place { HasPlace (world store.old) object.now.path }
    requires range { IsSpecInRange object.now.spec }
    ensures { OnOk result (world store.new ≡ apply_all (definitions.object_changes ports.now object.now) (world store.old)) }
{
    let path = object.path.as_slice();
    let who = name_of(store, path);
    store.make(who, first_body(&object.spec, ports.has(path)))
}
