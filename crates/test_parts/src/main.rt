//! What stands below whole commands: single values (`values`), stores (`stores`), and kernels, with the calls of porters, each with every status,
//! the acts of native servers, leases, and who is queued at what (`world`).
//!
//! Each file `NAME.steps` of the current folder has a step a line, a word and numbers, and behind `=` what must be found; a line
//! that is empty or begins with `#` says nothing, and neither does a word of small letters among the numbers. `world SCENARIO SPACE SLOT` begins
//! a kernel: the file of a scenario, and where a porter is put. `soak N FILE = LENGTH` compares the text of the scenario of `soak N`
//! with a file, where one is named. Expected answers are worked by hand from the rules. A new file of steps needs no other edit.
//!
//! The program says which steps differ, and ends with a line of counts; it fails where one differs, or where
//! a file has none. It promises of the world to which it gives a porter that this stays valid, and nothing else.
#![tactic(auto)]

mod line;
mod making;
mod numbers;
mod porter;
mod showing;
mod stores;
mod values;
mod world;

use crate::line::{Line, line_of};
use crate::numbers::{Numbers, place_of};
use crate::world::World;
use anyhow::{Context, ensure};
use fk_gen::scenario_of;
use fk_store::Store;
use std::alloc::Global;
use std::fs;
use std::rt::Files;

/// How many steps were made, and how many of them differ from what their line says.
#[derive(Drop)]
struct Tally {
    steps: u32,
    differ: u32,
}

/// The world of a line: the file of a scenario, and the porter's name.
fn world_of<R: Files + AllocGlobal>(rt: &R, line: &Line) -> anyhow::Result<World> {
    let (path, _) = line.text.split_once(' ').context("a file and a name")?;
    let scenario = fs::read(rt, path)?;
    World::new(rt.alloc(), scenario.as_slice(), line.subject.name_at(0))
}

/// Begins the world of a line.
fn begin_world<R: Files + AllocGlobal>(
    rt: &R,
    world: &mut Option<World>,
    line: &Line,
) -> anyhow::Result<()> {
    *world = Some(world_of(rt, line)?);
    Ok(())
}

/// Begins a store that holds the root alone.
fn begin_store(alloc: Global, store: &mut Store) -> anyhow::Result<()> {
    *store = Store::new(alloc).ok().context("no memory")?;
    Ok(())
}

/// Says how long the text of the scenario of `soak` is; it must be that of the file that the line names.
fn say_soak<R: Files + AllocGlobal>(
    rt: &R,
    line: &Line,
    found: &mut Numbers,
) -> anyhow::Result<()> {
    let count = u32::try_from(line.subject.at(0)).ok().context("no number")?;
    ensure!(count > 0 && count <= 100, "no such scenario");
    let text = scenario_of(rt.alloc(), count).ok().context("no memory")?;
    found.say(text.len() as u64);
    if let Some((_, path)) = line.text.split_once(' ') {
        if fs::read(rt, path)? != text {
            found.fail();
        }
    }
    Ok(())
}

/// Makes the step of a line, and says what is found then.
fn step(
    alloc: Global,
    world: &mut Option<World>,
    store: &mut Store,
    line: &Line,
    found: &mut Numbers,
) {
    let verb = place_of(stores::VERBS, line.verb);
    if verb < 28 {
        return stores::step(alloc, store, verb, line, found);
    }
    let verb = place_of(world::VERBS, line.verb);
    if verb > 25 {
        return values::step(alloc, place_of(values::VERBS, line.verb), line, found);
    }
    match world {
        Some(world) => world.step(verb, line, found),
        None => found.fail(),
    }
}

/// Takes a line: it begins a world, or is a step.
fn take_line<R: Files + Print + AllocGlobal>(
    rt: &R,
    tally: &mut Tally,
    world: &mut Option<World>,
    store: &mut Store,
    text: &str,
) -> anyhow::Result<()> {
    if text.is_empty() || text.starts_with('#') {
        return Ok(());
    }
    let line = line_of(text);
    let mut found = Numbers::none();
    if line.verb == "world" {
        return begin_world(rt, world, &line);
    }
    if line.verb == "anew" {
        begin_store(rt.alloc(), store)?;
    }
    if line.verb == "soak" {
        say_soak(rt, &line, &mut found)?;
    } else {
        step(rt.alloc(), world, store, &line, &mut found);
    }
    tally.steps = tally.steps.saturating_add(1);
    if !found.is_as(&line.wanted) {
        tally.differ = tally.differ.saturating_add(1);
        println!(rt; "differs: {text}\nfound {:?}", found.list())?;
    }
    Ok(())
}

/// Makes all steps of a file.
fn try_file<R: Files + Print + AllocGlobal>(
    rt: &R,
    tally: &mut Tally,
    world: &mut Option<World>,
    store: &mut Store,
    path: &str,
) -> anyhow::Result<()> {
    let text = fs::read_to_string(rt, path)?;
    let before = tally.steps;
    for line in text.as_str().lines() {
        take_line(rt, tally, world, store, line).context(format_args!("at {line}"))?;
    }
    ensure!(tally.steps > before, "no step was found");
    Ok(())
}

/// Makes all steps of the files of steps in the folder.
fn try_files<R: Files + Print + AllocGlobal + Clone + Drop>(
    rt: &R,
    tally: &mut Tally,
    world: &mut Option<World>,
    store: &mut Store,
) -> anyhow::Result<()> {
    for entry in fs::read_dir(rt, ".")? {
        let entry = entry?;
        let path = entry.file_name();
        if path.ends_with(".steps") {
            try_file(rt, tally, world, store, path).context(format_args!("{path}"))?;
        }
    }
    Ok(())
}

/// Makes them in this store, and in a world. What is large is owned by a function of its own, which has one end.
fn try_in_store<R: Files + Print + AllocGlobal + Clone + Drop>(
    rt: &R,
    tally: &mut Tally,
    store: &mut Store,
) -> anyhow::Result<()> {
    let mut world = None;
    try_files(rt, tally, &mut world, store)
}

/// Makes them in a store, which holds the root alone at first.
fn try_all<R: Files + Print + AllocGlobal + Clone + Drop>(
    rt: &R,
    tally: &mut Tally,
) -> anyhow::Result<()> {
    let mut store = Store::new(rt.alloc()).ok().context("no memory")?;
    try_in_store(rt, tally, &mut store)
}

fn main(rt: HostRuntime) -> anyhow::Result<()> {
    let mut tally = Tally {
        steps: 0,
        differ: 0,
    };
    try_all(&rt, &mut tally)?;
    let Tally { steps, differ } = tally;
    println!(rt; "{steps} steps, {differ} differ")?;
    ensure!(steps > 0, "no step was found");
    ensure!(differ == 0, "{differ} steps differ");
    Ok(())
}
