//! The user threads of a store, as a report has them.
ghost use Rattle.std.specs.Prelude.{◌≡◌, ◌<◌, IfOk, OnOk, IfSome, IfNone, Contains, Some, [], ◌∷◌, ◌++◌, reverse};
ghost use Rattle.std.specs.Bool.{OnTrue};
ghost use Rattle.std.specs.Cmp.Lexicographic.{slice_cmp};
ghost use Rattle.std.specs.Ordering.{nat_cmp};
ghost use Rattle.std.specs.declared.cmp.Ordering.TheVariants.{Less};
ghost use Rattle.std.specs.BTreeMap.{values, IsOrdered};
ghost use Rattle.fk_store.specs.Store.Paths.{path};
ghost use Rattle.fk_store.specs.Store.World.{world, place_of, IsLive};
ghost use Rattle.fk_model.specs.Places.{Path};
ghost use Rattle.fk_model.specs.World.{World};
ghost use Rattle.fk_report.specs.Threads.{state_at, AreThreads, AreKept, IsLine, by_slots};

use fk_model::{List, Mode, NoMemory, Who};
use fk_store::Store;
use std::alloc::Global;
use std::cmp::Ordering;
use std::collections::BTreeMap;

/// A thread as the report has it. Its path goes from its slot outwards: the last slot is one of the
/// root's.
#[derive(Drop)]
pub struct ThreadState {
    pub path: List<u8>,
    pub mode: Mode,
}

/// The space in which an object lies; nothing where that is the root.
fn space_of(store: &Store, who: Who) -> Option<Who>
    requires { IsLive store.now who }
    ensures root { IfNone result (path store.now who.space ≡ []) }
    ensures place { IfSome result (λ space. path store.now who.space ≡ place_of store.now space) }
    ensures live { IfSome result (λ space. IsLive store.now space) }
    ensures older { IfSome result (λ space. space.space < who.space) }
{
    // What is there lies in a live space, so only the root has no home.
    store.at(who)?;
    store.home(who.space)
}

/// The path of an object, from its slot outwards.
///
/// # Errors
///
/// There is no memory for it.
fn path_of(alloc: Global, store: &Store, who: Who) -> Result<List<u8>, NoMemory>
    requires { IsLive store.now who }
    ensures { IfOk result (λ path. path ≡ place_of store.now who) }
{
    let mut path = List::new(alloc);
    path.push(who.slot)?;
    let mut at = who;
    while let Some(space) = space_of(store, at) {
        path.push(space.slot)?;
        at = space;
    }
    Ok(path)
}

/// The state of the user thread that stands in a slot, if one does.
///
/// # Errors
///
/// There is no memory for its path.
fn state_of(alloc: Global, store: &Store, who: Who) -> Result<Option<ThreadState>, NoMemory>
    ensures { IfOk result (λ state. state ≡ state_at (world store.now) (place_of store.now who)) }
{
    let Some(thread) = store.thread(who) else {
        return Ok(None);
    };
    match thread.mode {
        Mode::Native => Ok(None),
        mode => Ok(Some(ThreadState {
            path: path_of(alloc, store, who)?,
            mode,
        })),
    }
}

/// A path from the root down.
///
/// # Errors
///
/// There is no memory for it.
fn from_root(alloc: Global, path: &[u8]) -> Result<Vec<u8>, NoMemory>
    ensures { IfOk result (λ slots. slots.items ≡ reverse path.now) }
{
    let mut slots = Vec::from_slice(alloc, path)?;
    slots.reverse();
    Ok(slots)
}

/// Keeps a thread under its path from the root down, which is how paths are compared.
///
/// # Errors
///
/// There is no memory for it.
fn keep(
    alloc: Global,
    kept: &mut BTreeMap<Vec<u8>, ThreadState>,
    thread: ThreadState,
) -> Result<(), NoMemory>
    ensures kept { (w : World) → state_at w thread.path ≡ Some thread → AreKept w kept.old.entries
        → OnOk result (AreKept w kept.new.entries) }
    ensures others { (w : World) → state_at w thread.path ≡ Some thread → AreKept w kept.old.entries
        → (other : ThreadState) → state_at w other.path ≡ Some other
        → Contains (values kept.old) other → OnOk result (Contains (values kept.new) other) }
    ensures itself { OnOk result (Contains (values kept.new) thread) }
{
    let slots = from_root(alloc, thread.path.as_slice())?;
    kept.insert(slots, thread)?;
    Ok(())
}

/// Keeps the user thread that stands in a slot, if one does.
///
/// # Errors
///
/// There is no memory for it.
fn keep_at(
    alloc: Global,
    kept: &mut BTreeMap<Vec<u8>, ThreadState>,
    store: &Store,
    who: Who,
) -> Result<(), NoMemory>
    ensures kept { AreKept (world store.now) kept.old.entries → OnOk result (AreKept (world store.now) kept.new.entries) }
    ensures others { AreKept (world store.now) kept.old.entries
        → (other : ThreadState) → state_at (world store.now) other.path ≡ Some other
        → Contains (values kept.old) other → OnOk result (Contains (values kept.new) other) }
    ensures itself { (thread : ThreadState) → state_at (world store.now) (place_of store.now who) ≡ Some thread
        → OnOk result (Contains (values kept.new) thread) }
{
    match state_of(alloc, store, who)? {
        None => Ok(()),
        Some(thread) => keep(alloc, kept, thread),
    }
}

/// The user threads of a store, by their paths from the root down.
///
/// # Errors
///
/// There is no memory for them.
fn kept_of(alloc: Global, store: &Store) -> Result<BTreeMap<Vec<u8>, ThreadState>, NoMemory>
    ensures kept { IfOk result (λ kept. AreKept (world store.now) kept.entries) }
    ensures whole { IfOk result (λ kept. (x : Path) → (thread : ThreadState)
        → state_at (world store.now) x ≡ Some thread → Contains (values kept) thread) }
{
    let mut kept = BTreeMap::new(alloc);
    let mut at = store.after(None);
    while let Some(who) = at {
        keep_at(alloc, &mut kept, store, who)?;
        at = store.after(Some(who));
    }
    Ok(kept)
}

/// The threads that are kept, in the order of their paths.
///
/// # Errors
///
/// There is no memory for the list.
fn listed(
    alloc: Global,
    kept: BTreeMap<Vec<u8>, ThreadState>,
) -> Result<List<ThreadState>, NoMemory>
    ensures values { IfOk result (λ threads. threads ≡ values kept) }
    ensures ordered { OnOk result (IsOrdered by_slots kept) }
{
    let mut threads = List::new(alloc);
    for (_, thread) in kept {
        threads.push(thread)?;
    }
    Ok(threads)
}

/// User threads in the order of their paths, and the path of the last of them from the root down.
#[derive(Drop)]
struct Line {
    threads: List<ThreadState>,
    last: Vec<u8>,
}

/// A thread comes behind those of a line where its path is later, and whether it does.
///
/// # Errors
///
/// There is no memory for it.
fn line_up(alloc: Global, line: &mut Line, thread: ThreadState) -> Result<bool, NoMemory>
    ensures later { IfOk result (λ later. OnTrue later (slice_cmp nat_cmp line.old.last.items (reverse thread.path) ≡ Less)) }
    ensures last { IfOk result (λ later. OnTrue later (line.new.last.items ≡ reverse thread.path)) }
    ensures threads { IfOk result (λ later. OnTrue later (line.new.threads ≡ line.old.threads ++ thread ∷ [])) }
{
    let slots = from_root(alloc, thread.path.as_slice())?;
    match line.last.cmp(&slots) {
        Ordering::Less => {
            line.threads.push(thread)?;
            line.last = slots;
            Ok(true)
        }
        Ordering::Equal | Ordering::Greater => Ok(false),
    }
}

/// The user thread that stands in a slot comes behind those of a line, if one does; and whether they are a line then.
///
/// # Errors
///
/// There is no memory for it.
fn line_up_at(alloc: Global, line: &mut Line, store: &Store, who: Who) -> Result<bool, NoMemory>
    ensures line { IsLine (world store.now) line.old.threads line.old.last.items
        → IfOk result (λ still. OnTrue still (IsLine (world store.now) line.new.threads line.new.last.items)) }
    ensures others { (other : ThreadState) → Contains line.old.threads other → IfOk result (λ still. OnTrue still (Contains line.new.threads other)) }
    ensures itself { (thread : ThreadState) → state_at (world store.now) (place_of store.now who) ≡ Some thread
        → IfOk result (λ still. OnTrue still (Contains line.new.threads thread)) }
{
    match state_of(alloc, store, who)? {
        None => Ok(true),
        Some(thread) => line_up(alloc, line, thread),
    }
}

/// The user threads of a store, where its objects stand in the order of their paths.
///
/// # Errors
///
/// There is no memory for the list.
fn in_line(alloc: Global, store: &Store) -> Result<Option<List<ThreadState>>, NoMemory>
    ensures { IfOk result (λ found. IfSome found (λ threads. AreThreads (world store.now) threads)) }
{
    let mut line = Line {
        threads: List::new(alloc),
        last: Vec::new(alloc),
    };
    let mut at = store.after(None);
    while let Some(who) = at {
        if !line_up_at(alloc, &mut line, store, who)? {
            return Ok(None);
        }
        at = store.after(Some(who));
    }
    let Line { threads, last: _ } = line;
    Ok(Some(threads))
}

/// The user threads of a store, in the order of their paths, whatever the order of its objects.
///
/// # Errors
///
/// There is no memory for the list.
fn in_order(alloc: Global, store: &Store) -> Result<List<ThreadState>, NoMemory>
    ensures { IfOk result (λ threads. AreThreads (world store.now) threads) }
{
    let kept = kept_of(alloc, store)?;
    listed(alloc, kept)
}

/// The user threads of a store, in the order of their paths.
///
/// # Errors
///
/// There is no memory for the list.
pub fn threads_of(alloc: Global, store: &Store) -> Result<List<ThreadState>, NoMemory>
    ensures { IfOk result (λ threads. AreThreads (world store.now) threads) }
{
    // What a scenario lists mostly stands in this order already.
    match in_line(alloc, store)? {
        Some(threads) => Ok(threads),
        None => in_order(alloc, store),
    }
}
