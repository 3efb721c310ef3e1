//! Objects. Each kind has a reader of its own.
ghost use Rattle.std.specs.Prelude.{◌≡◌};
ghost use Rattle.toml.specs.View.{view, table_view};
ghost use Rattle.fk_scenario.specs.Fields.Gives.{Gives};
ghost use Rattle.fk_scenario.specs.Entries.Objects as definitions;

use crate::entries::types::{ObjectEntry, Spec};
use crate::fields::{
    Fail, flag_in, integer_in, integers_in, known, needed_text, optional_path, parse_path, ranged,
    ranged_or, rule, text_in, unless, words_of,
};
use std::alloc::Global;
use toml::{Table, Value};

#[tactic(auto, unfolding(crate::specs::Entries::Objects::thread_spec))]
fn thread_spec(alloc: Global, table: &Table) -> Result<Spec, Fail>
    ensures { Gives (λ x. x) result (definitions.thread_spec (table_view table.now)) }
{
    known(&["at", "kind", "entry", "regs", "stops"], table)?;
    let entry = integer_in(table, "entry")?;
    let regs = integers_in(alloc, table, "regs")?;
    let stops = integer_in(table, "stops")?;
    let entry = ranged_or(0, 0, 16_383, entry)?;
    let regs = words_of(alloc, regs.as_slice())?;
    unless(rule::RANGES, regs.len() <= 16)?;
    let stops = ranged_or(0, 0, 65_535, stops)?;
    Ok(Spec::Thread {
        entry: entry as u16,
        regs,
        stops: stops as u16,
    })
}

#[tactic(auto, unfolding(crate::specs::Entries::Objects::mutex_spec))]
fn mutex_spec(table: &Table) -> Result<Spec, Fail>
    ensures { Gives (λ x. x) result (definitions.mutex_spec (table_view table.now)) }
{
    known(&["at", "kind", "locked"], table)?;
    let locked = flag_in(table, "locked")?;
    Ok(Spec::Mutex {
        locked: locked.unwrap_or(false),
    })
}

/// The first page and the number of pages, as they are written.
#[tactic(auto, unfolding(crate::specs::Entries::Objects::extent_in))]
fn extent_in(table: &Table) -> Result<(Option<i64>, Option<i64>), Fail>
    ensures { Gives (λ x. x) result (definitions.extent_in (table_view table.now)) }
{
    let first = integer_in(table, "first")?;
    let count = integer_in(table, "count")?;
    Ok((first, count))
}

/// The first page and the number of pages.
#[tactic(auto, unfolding(crate::specs::Entries::Objects::window_of))]
fn window_of(extent: (Option<i64>, Option<i64>)) -> Result<(u8, u16), Fail>
    ensures { Gives (λ x. x) result (definitions.window_of extent) }
{
    let first = ranged_or(0, 0, 255, extent.0)?;
    // One that is left out is 1, as that of what is created; every other number is 0.
    let count = ranged_or(1, 1, 256, extent.1)?;
    unless(rule::RANGES, first + count <= 256)?;
    Ok((first as u8, count as u16))
}

/// What a mapping's keys have, as it is written.
#[derive(Clone, Copy)]
struct MappingKeys<'a> {
    region: Option<&'a str>,
    extent: (Option<i64>, Option<i64>),
    offset: Option<i64>,
    write: bool,
}

#[tactic(auto, unfolding(crate::specs::Entries::Objects::mapping_keys))]
fn mapping_keys<'a>(table: &'a Table) -> Result<MappingKeys<'a>, Fail>
    ensures { Gives definitions.mapping_keys_view result (definitions.mapping_keys (table_view table.now)) }
{
    known(
        &["at", "kind", "region", "first", "count", "offset", "write"],
        table,
    )?;
    let region = text_in(table, "region")?;
    let extent = extent_in(table)?;
    let offset = integer_in(table, "offset")?;
    let write = flag_in(table, "write")?;
    Ok(MappingKeys {
        region,
        extent,
        offset,
        write: write.unwrap_or(false),
    })
}

#[tactic(auto, unfolding(crate::specs::Entries::Objects::mapping_spec))]
fn mapping_spec(alloc: Global, table: &Table) -> Result<Spec, Fail>
    ensures { Gives (λ x. x) result (definitions.mapping_spec (table_view table.now)) }
{
    let keys = mapping_keys(table)?;
    let (first, count) = window_of(keys.extent)?;
    let offset = ranged_or(0, 0, 255, keys.offset)?;
    let region = optional_path(alloc, keys.region)?;
    Ok(Spec::Mapping {
        region,
        first,
        count,
        offset: offset as u8,
        write: keys.write,
    })
}

#[tactic(auto, unfolding(crate::specs::Entries::Objects::region_spec))]
fn region_spec(alloc: Global, table: &Table) -> Result<Spec, Fail>
    ensures { Gives (λ x. x) result (definitions.region_spec (table_view table.now)) }
{
    known(&["at", "kind", "first", "count", "write", "keeper"], table)?;
    let extent = extent_in(table)?;
    let write = flag_in(table, "write")?;
    let keeper = text_in(table, "keeper")?;
    let (first, count) = window_of(extent)?;
    let keeper = optional_path(alloc, keeper)?;
    Ok(Spec::Region {
        first,
        count,
        write: write.unwrap_or(false),
        keeper,
    })
}

fn set_of(number: Option<i64>) -> Result<Option<u8>, Fail>
    ensures { Gives (λ x. x) result (definitions.set_of number) }
{
    match number {
        None => Ok(None),
        Some(number) => Ok(Some(ranged(0, 239, number)? as u8)),
    }
}

#[tactic(auto, unfolding(crate::specs::Entries::Objects::port_spec))]
fn port_spec(table: &Table) -> Result<Spec, Fail>
    ensures { Gives (λ x. x) result (definitions.port_spec (table_view table.now)) }
{
    known(&["at", "kind", "set"], table)?;
    let set = integer_in(table, "set")?;
    let set = set_of(set)?;
    Ok(Spec::Port { set })
}

#[tactic(auto, unfolding(crate::specs::Entries::Objects::reference_spec))]
fn reference_spec(alloc: Global, table: &Table) -> Result<Spec, Fail>
    ensures { Gives (λ x. x) result (definitions.reference_spec (table_view table.now)) }
{
    known(&["at", "kind", "to"], table)?;
    let to = text_in(table, "to")?;
    let to = optional_path(alloc, to)?;
    Ok(Spec::Reference { to })
}

/// A kind with no keys of its own, or an unknown kind.
#[tactic(auto, unfolding(crate::specs::Entries::Objects::plain_spec))]
fn plain_spec(spec: Option<Spec>, table: &Table) -> Result<Spec, Fail>
    ensures { Gives (λ x. x) result (definitions.plain_spec spec (table_view table.now)) }
{
    known(&["at", "kind"], table)?;
    match spec {
        Some(spec) => Ok(spec),
        None => Err(Fail::Rule(rule::FORMS)),
    }
}

#[tactic(auto, unfolding(crate::specs::Entries::Objects::spec_of))]
fn spec_of(alloc: Global, kind: &str, table: &Table) -> Result<Spec, Fail>
    ensures { Gives (λ x. x) result (definitions.spec_of kind.now (table_view table.now)) }
{
    match kind {
        "thread" => thread_spec(alloc, table),
        "mutex" => mutex_spec(table),
        "cond" => plain_spec(Some(Spec::Cond), table),
        "mapping" => mapping_spec(alloc, table),
        "region" => region_spec(alloc, table),
        "port" => port_spec(table),
        "portset" => plain_spec(Some(Spec::Portset), table),
        "reference" => reference_spec(alloc, table),
        _ => plain_spec(None, table),
    }
}

#[tactic(auto, unfolding(crate::specs::Entries::Objects::object_of))]
fn object_of(alloc: Global, table: &Table) -> Result<ObjectEntry, Fail>
    ensures { Gives (λ x. x) result (definitions.object_of (table_view table.now)) }
{
    let text = needed_text(table, "at")?;
    let kind = needed_text(table, "kind")?;
    let spec = spec_of(alloc, kind, table)?;
    let path = parse_path(alloc, text)?;
    unless(rule::FORMS, path.len() > 0)?;
    Ok(ObjectEntry { path, spec })
}

/// The object of an entry.
///
/// # Errors
///
/// `Rule`: the first rule that the entry breaks. `NoMemory`: there is none for the object.
#[tactic(auto, unfolding(crate::specs::Entries::Objects::object_entry))]
pub fn object_entry(alloc: Global, value: &Value) -> Result<ObjectEntry, Fail>
    ensures { Gives (λ x. x) result (definitions.object_entry (view value.now)) }
{
    match value.as_table() {
        Some(table) => object_of(alloc, table),
        None => Err(Fail::Rule(rule::KEYS)),
    }
}
