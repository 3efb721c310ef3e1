//! Jobs.
ghost use Rattle.std.specs.Prelude.{◌≡◌, ◌≤◌, [], map, option_map, IfOk};
ghost use Rattle.toml.specs.View.{view, table_view, array_view};
ghost use Rattle.fk_scenario.specs.Fields.Gives.{Gives};
ghost use Rattle.fk_scenario.specs.Entries.Jobs as definitions;

use crate::fields::{
    Fail, array_in, integer_in, integers_of, is_name, known, needed_integer, needed_text,
    parse_path, ranged, ranged_or, rule, unless,
};
use fk_model::{List, Text};
use std::alloc::Global;
use toml::value::Array;
use toml::{Table, Value};

/// What a job does.
#[derive(Drop)]
pub enum JobKind {
    /// It saves the subtree in its slot as its image.
    Checkpoint,
    /// It makes the subtree of its image again in its slot. Each pair of `bind` is an outward slot of the
    /// image and the slot of the nester that stands for it; no outward slot is there twice.
    Restore { bind: List<(u8, u8)> },
}

/// A job.
#[derive(Drop)]
pub struct JobEntry {
    /// After how many events it is due, 0 to 1,000,000.
    pub moment: u64,
    /// The path of the nester whose porter does it.
    pub nester: List<u8>,
    /// The slot of the nester, 0 to 239.
    pub slot: u8,
    pub image: Text,
    pub kind: JobKind,
}

/// What a job's keys have, as it is written.
#[derive(Drop)]
struct JobFields<'a> {
    kind: &'a str,
    bind: List<List<i64>>,
    moment: Option<i64>,
    nester: &'a str,
    slot: i64,
    image: &'a str,
}

fn list_of(alloc: Global, value: &Value) -> Result<List<i64>, Fail>
    ensures { Gives (λ x. x) result (definitions.list_of (view value.now)) }
{
    match value.as_array() {
        Some(array) => integers_of(alloc, array),
        None => Err(Fail::Rule(rule::KEYS)),
    }
}

/// The arrays of integers of an array.
#[tactic(auto, unfolding(crate::specs::Entries::Jobs::lists_from))]
fn lists_of(alloc: Global, array: &Array) -> Result<List<List<i64>>, Fail>
    ensures { Gives (λ x. x) result (definitions.lists_from [] (array_view array.now)) }
{
    let mut lists = List::new(alloc);
    for value in array {
        lists.push(list_of(alloc, value)?)?;
    }
    Ok(lists)
}

fn is_restore(kind: &str) -> bool
    ensures { result ≡ definitions.is_restore kind.now }
{
    kind == "restore"
}

/// The pairs of a restore, as they are written.
#[tactic(auto, unfolding(crate::specs::Entries::Jobs::pairs_in))]
fn pairs_in(alloc: Global, table: &Table) -> Result<List<List<i64>>, Fail>
    ensures { Gives (λ x. x) result (definitions.pairs_in (table_view table.now)) }
{
    known(&["kind", "at", "nester", "slot", "image", "bind"], table)?;
    match array_in(table, "bind")? {
        Some(array) => lists_of(alloc, array),
        None => Ok(List::new(alloc)),
    }
}

/// The pairs of a job, which a restore alone may have.
#[tactic(auto, unfolding(crate::specs::Entries::Jobs::bind_in))]
fn bind_in(alloc: Global, kind: &str, table: &Table) -> Result<List<List<i64>>, Fail>
    ensures { Gives (λ x. x) result (definitions.bind_in kind.now (table_view table.now)) }
{
    if is_restore(kind) {
        return pairs_in(alloc, table);
    }
    known(&["kind", "at", "nester", "slot", "image"], table)?;
    Ok(List::new(alloc))
}

#[tactic(auto, unfolding(crate::specs::Entries::Jobs::job_fields))]
fn job_fields<'a>(alloc: Global, table: &'a Table) -> Result<JobFields<'a>, Fail>
    ensures { Gives definitions.job_fields_view result (definitions.job_fields (table_view table.now)) }
{
    let kind = needed_text(table, "kind")?;
    let bind = bind_in(alloc, kind, table)?;
    let moment = integer_in(table, "at")?;
    let nester = needed_text(table, "nester")?;
    let slot = needed_integer(table, "slot")?;
    let image = needed_text(table, "image")?;
    Ok(JobFields {
        kind,
        bind,
        moment,
        nester,
        slot,
        image,
    })
}

fn pair_of(numbers: &[i64]) -> Result<(u8, u8), Fail>
    ensures { Gives (λ x. x) result (definitions.pair_of numbers.now) }
{
    match numbers {
        [outward, stands] => {
            let outward = ranged(0, 239, *outward)?;
            let stands = ranged(0, 239, *stands)?;
            Ok((outward as u8, stands as u8))
        }
        _ => Err(Fail::Rule(rule::RANGES)),
    }
}

#[tactic(auto, unfolding(crate::specs::Entries::Jobs::pairs_from))]
fn pairs_of(alloc: Global, lists: &[List<i64>]) -> Result<List<(u8, u8)>, Fail>
    ensures { Gives (λ x. x) result (definitions.pairs_from [] lists.now) }
{
    let mut pairs = List::new(alloc);
    for list in lists {
        pairs.push(pair_of(list.as_slice())?)?;
    }
    Ok(pairs)
}

fn is_bound(pairs: &[(u8, u8)], slot: u8) -> bool
    ensures { result ≡ definitions.is_bound pairs.now slot }
{
    pairs.iter().any(|pair| pair.0 == slot)
}

/// These pairs as a list, where their first slots are distinct. These are at most 240, so looking back takes little.
#[tactic(auto, unfolding(crate::specs::Entries::Jobs::distinct_from))]
fn distinct(alloc: Global, pairs: &[(u8, u8)]) -> Result<List<(u8, u8)>, Fail>
    ensures { Gives (λ x. x) result (definitions.distinct_from [] pairs.now) }
{
    let mut bind = List::new(alloc);
    for pair in pairs {
        unless(rule::SLOTS, !is_bound(bind.as_slice(), pair.0))?;
        bind.push(*pair)?;
    }
    Ok(bind)
}

/// The event and the slot of a job, and its pairs of slots.
type Numbers = (u64, u8, List<(u8, u8)>);

#[tactic(auto, unfolding(crate::specs::Entries::Jobs::numbers_of))]
fn numbers_of(alloc: Global, before: usize, fields: &JobFields<'_>) -> Result<Numbers, Fail>
    ensures { Gives (λ x. x) result (definitions.numbers_of before (definitions.job_fields_view fields.now)) }
{
    let moment = ranged_or(0, 0, 1_000_000, fields.moment)?;
    let slot = ranged(0, 239, fields.slot)?;
    let pairs = pairs_of(alloc, fields.bind.as_slice())?;
    unless(rule::RANGES, before < 16)?;
    Ok((moment, slot as u8, pairs))
}

#[tactic(auto, unfolding(crate::specs::Entries::Jobs::job_kind))]
fn job_kind(alloc: Global, kind: &str, pairs: &[(u8, u8)]) -> Result<JobKind, Fail>
    ensures { Gives (λ x. x) result (definitions.job_kind kind.now pairs.now) }
{
    if is_restore(kind) {
        let bind = distinct(alloc, pairs)?;
        return Ok(JobKind::Restore { bind });
    }
    match kind {
        "checkpoint" => Ok(JobKind::Checkpoint),
        _ => Err(Fail::Rule(rule::FORMS)),
    }
}

#[tactic(auto, unfolding(crate::specs::Entries::Jobs::job_of))]
fn job_of(alloc: Global, before: usize, table: &Table) -> Result<JobEntry, Fail>
    ensures { Gives (λ x. x) result (definitions.job_of before (table_view table.now)) }
{
    let fields = job_fields(alloc, table)?;
    let (moment, slot, pairs) = numbers_of(alloc, before, &fields)?;
    let nester = parse_path(alloc, fields.nester)?;
    unless(rule::FORMS, is_name(fields.image))?;
    let kind = job_kind(alloc, fields.kind, pairs.as_slice())?;
    Ok(JobEntry {
        moment,
        nester,
        slot,
        image: Text::of(alloc, fields.image)?,
        kind,
    })
}

/// The job of an entry, where `before` jobs stand before it.
///
/// # Errors
///
/// `Rule`: the first rule that the entry breaks. `NoMemory`: there is none for the job.
#[tactic(auto, unfolding(crate::specs::Entries::Jobs::job_in))]
pub fn job_in(alloc: Global, before: usize, value: &Value) -> Result<JobEntry, Fail>
    ensures { Gives (λ x. x) result (definitions.job_in before (view value.now)) }
{
    match value.as_table() {
        Some(table) => job_of(alloc, before, table),
        None => Err(Fail::Rule(rule::KEYS)),
    }
}
