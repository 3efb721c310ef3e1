//! The spaces of a document.
ghost use Rattle.std.specs.Prelude.{◌≡◌, [], option_map, unwrap_or};
ghost use Rattle.toml.specs.Data.{no_items};
ghost use Rattle.toml.specs.View.{view, table_view, array_view};
ghost use Rattle.fk_scenario.specs.Fields.Gives.{Gives, Answers};
ghost use Rattle.fk_scenario.specs.Sections.Spaces as definitions;

use crate::entries::{Program, SpaceEntry};
use crate::fields::{
    Entries, Fail, ScenarioFail, bytes_of, enclosing, flag_in, index_at, integers_in, is_name,
    known, needed_text, parse_path, rule, text_in, unless,
};
use crate::sections::programs::index_of;
use fk_model::List;
use std::alloc::Global;
use toml::value::Array;
use toml::{Table, Value};

const SECTION: u8 = 3;

fn is_no_name(name: Option<&str>) -> bool
    ensures { result ≡ definitions.is_no_name (option_map (λ s. s.now) name.entry) }
{
    match name {
        None => false,
        Some(name) => !is_name(name),
    }
}

/// Whether a space has this path.
pub fn has_space(spaces: &Entries<SpaceEntry>, path: &[u8]) -> bool
    ensures { result ≡ definitions.has_space spaces.now path.now }
{
    spaces.has(path)
}

/// Whether a path is the root's, or that of a space.
pub fn has_space_or_root(spaces: &Entries<SpaceEntry>, path: &[u8]) -> bool
    ensures { result ≡ definitions.has_space_or_root spaces.now path.now }
{
    path.is_empty() || has_space(spaces, path)
}

fn may_stand(done: &Entries<SpaceEntry>, path: &[u8]) -> bool
    ensures { result ≡ definitions.may_stand done.now path.now }
{
    if path.is_empty() {
        done.len() == 0
    } else {
        has_space_or_root(done, enclosing(path)) && !has_space(done, path)
    }
}

fn count_beneath(done: &[SpaceEntry]) -> usize
    ensures { result ≡ definitions.count_beneath done.now }
{
    done.iter().filter(|space| space.path.len() > 0).count()
}

/// Whether there is room for one more space, at most 256 with the root. There are never many to count.
fn has_room_for_space(done: &Entries<SpaceEntry>, text: &str) -> bool
    ensures { result ≡ definitions.has_room_for_space done.now text.now }
{
    text == "/" || count_beneath(done.as_slice()) < 255
}

/// What a space's keys have, as it is written.
#[derive(Drop)]
struct SpaceFields<'a> {
    path: &'a str,
    program: Option<&'a str>,
    pages: List<i64>,
    nester: bool,
}

#[tactic(auto, unfolding(crate::specs::Sections::Spaces::space_fields))]
fn space_fields<'a>(alloc: Global, table: &'a Table) -> Result<SpaceFields<'a>, Fail>
    ensures { Gives definitions.space_fields_view result (definitions.space_fields (table_view table.now)) }
{
    known(&["path", "program", "pages", "nester"], table)?;
    let path = needed_text(table, "path")?;
    let program = text_in(table, "program")?;
    let pages = integers_in(alloc, table, "pages")?;
    let nester = flag_in(table, "nester")?;
    Ok(SpaceFields {
        path,
        program,
        pages,
        nester: nester.unwrap_or(false),
    })
}

#[tactic(auto, unfolding(crate::specs::Sections::Spaces::space_after))]
fn space_after(
    alloc: Global,
    programs: &Entries<Program>,
    done: &Entries<SpaceEntry>,
    table: &Table,
) -> Result<SpaceEntry, Fail>
    ensures { Gives (λ x. x) result (definitions.space_after programs.now done.now (table_view table.now)) }
{
    let fields = space_fields(alloc, table)?;
    let pages = bytes_of(alloc, fields.pages.as_slice())?;
    unless(rule::RANGES, has_room_for_space(done, fields.path))?;
    let path = parse_path(alloc, fields.path)?;
    unless(rule::FORMS, !is_no_name(fields.program))?;
    unless(rule::PLACES, may_stand(done, path.as_slice()))?;
    let program = index_of(programs, fields.program)?;
    Ok(SpaceEntry {
        path,
        program,
        pages,
        nester: fields.nester,
    })
}

#[tactic(auto, unfolding(crate::specs::Sections::Spaces::space_in))]
fn space_in(
    alloc: Global,
    programs: &Entries<Program>,
    done: &Entries<SpaceEntry>,
    value: &Value,
) -> Result<SpaceEntry, Fail>
    ensures { Gives (λ x. x) result (definitions.space_in programs.now done.now (view value.now)) }
{
    match value.as_table() {
        Some(table) => space_after(alloc, programs, done, table),
        None => Err(Fail::Rule(rule::KEYS)),
    }
}

#[tactic(auto, unfolding(crate::specs::Sections::Spaces::spaces_from))]
fn spaces_of(
    alloc: Global,
    programs: &Entries<Program>,
    array: &Array,
) -> Result<Entries<SpaceEntry>, ScenarioFail>
    ensures { Answers result (definitions.spaces_from programs.now [] (array_view array.now)) }
{
    let mut spaces = Entries::new(alloc);
    for value in array {
        let index = index_at(spaces.len())?;
        match space_in(alloc, programs, &spaces, value) {
            Ok(space) => spaces = spaces.with(alloc, space)?,
            Err(fail) => return Err(fail.at(SECTION, index)),
        }
    }
    Ok(spaces)
}

/// The spaces of the section, if it is there.
///
/// # Errors
///
/// `Scenario`: the refusal of the first entry that is refused. `NoMemory`: there is none for the entries.
#[tactic(auto, unfolding(crate::specs::Sections::Spaces::spaces_from))]
pub fn spaces_in(
    alloc: Global,
    programs: &Entries<Program>,
    array: Option<&Array>,
) -> Result<Entries<SpaceEntry>, ScenarioFail>
    ensures { Answers result (definitions.spaces_from programs.now [] (unwrap_or (option_map (λ a. array_view a.now) array.entry) no_items)) }
{
    match array {
        Some(array) => spaces_of(alloc, programs, array),
        None => Ok(Entries::new(alloc)),
    }
}
