//! Making an object.
ghost use Rattle.std.specs.Prelude.{◌≡◌, ◌<◌, ◌-◌, ◌^◌, ℕ, [], Some, None, IsSome, OnOk, OnErr, replicate};
ghost use Rattle.fk_model.specs.ObjectRows.{new_object};
ghost use Rattle.fk_model.specs.Places.{Path};
ghost use Rattle.fk_model.specs.Places.Ptr.{At};
ghost use Rattle.fk_model.specs.World.{apply, apply_all};
ghost use Rattle.fk_model.specs.World.Change.{MakeSpace};
ghost use Rattle.fk_model.specs.declared.thread.Mode.TheVariants as modes;
ghost use Rattle.fk_store.specs.Store.Bodies.{body_by};
ghost use Rattle.fk_store.specs.Store.Contents.{Contents};
ghost use Rattle.fk_store.specs.Store.WellFormed.{IsSized};
ghost use Rattle.fk_store.specs.Store.Makes.{making, IsNext};
ghost use Rattle.fk_store.specs.Store.Named.{OnNamed};
ghost use Rattle.fk_store.specs.Store.Paths.{path, place};
ghost use Rattle.fk_store.specs.Store.World.{world, IsLive};
ghost use Rattle.fk_plans.specs.Plans.Plans.{IsMaking, IsMakingHeld, made};

use fk_model::kind::{COND, MAPPING, MUTEX, PORT, PORTSET, REFERENCE, REGION, SPACE, THREAD};
use fk_model::{Body, Mode, NoMemory, Ptr, Thread, Who};
use fk_store::Store;

/// A new object of the kind with this number. A space has the birth number.
fn blank(kind: u64, birth: u32) -> Body
    requires kind { IsSome (new_object [] kind) }
    ensures change { (p : ℕ → Path) (x : Path) → new_object x kind ≡ Some (making x (body_by p result)) }
    ensures next { birth < 2 ^ 32 - 1 → IsNext birth result }
    ensures named { (m : Contents) → OnNamed (IsLive m) result }
    ensures sized { IsSized result }
{
    match kind {
        MUTEX => Body::Mutex { locked: false },
        COND => Body::Cond,
        MAPPING => Body::Mapping {
            first: 0,
            count: 1,
            offset: 0,
            write: false,
            region: Ptr::Null,
        },
        REGION => Body::Region {
            first: 0,
            count: 1,
            write: false,
            keeper: Ptr::Null,
        },
        PORT => Body::Port {
            set: None,
            served: false,
        },
        PORTSET => Body::Portset,
        SPACE => Body::Space {
            birth,
            holder: None,
        },
        THREAD => Body::Thread(new_thread()),
        REFERENCE => Body::Reference { to: Ptr::Null },
        _ => unreachable!(),
    }
}

/// A thread that is stopped once.
fn new_thread() -> Thread
    ensures { result ≡ record { regs = replicate 16 0; pc = 0; mode = modes.Running; stops = 1; talk = None; fault = None } }
{
    Thread {
        regs: [0; 16],
        pc: 0,
        mode: Mode::Running,
        stops: 1,
        talk: None,
        fault: None,
    }
}

/// Makes a new object. For want of memory, or of a birth number, all stays as it was.
///
/// # Errors
///
/// There is no memory for the object, or no birth number for a space; the store is as before then.
pub fn make(store: &mut Store, object: Who, kind: u64) -> Result<(), NoMemory>
    requires fits { IsMaking (path store.old) (world store.old) object kind }
    ensures world { OnOk result (world store.new ≡ apply_all (made (new_object (place (path store.old) object) kind)) (world store.old)) }
    ensures err { OnErr result (store.new ≡ store.old) }
    ensures places { (other : Who) → IsLive store.old other → place (path store.new) other ≡ place (path store.old) other }
{
    let birth = store.next_birth();
    if birth == u32::MAX {
        return Err(NoMemory);
    }
    store.make(object, blank(kind, birth))
}

/// Makes a new space that a thread holds. For want of memory, or of a birth number, all stays as it
/// was.
///
/// # Errors
///
/// There is no memory for the space, or no birth number; the store is as before then.
pub fn make_held(store: &mut Store, object: Who, holder: Who) -> Result<(), NoMemory>
    requires fits { IsMakingHeld (path store.old) (world store.old) object holder }
    ensures world { let change = MakeSpace (place (path store.old) object) (Some (At (place (path store.old) holder))) in
        OnOk result (world store.new ≡ apply change (world store.old)) }
    ensures err { OnErr result (store.new ≡ store.old) }
    ensures places { (other : Who) → IsLive store.old other → place (path store.new) other ≡ place (path store.old) other }
{
    let birth = store.next_birth();
    if birth == u32::MAX {
        return Err(NoMemory);
    }
    let holder = Some(holder);
    store.make(object, Body::Space { birth, holder })
}
