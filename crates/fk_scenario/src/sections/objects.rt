//! The objects of a document.
ghost use Rattle.std.specs.Prelude.{◌≡◌, [], option_map, unwrap_or};
ghost use Rattle.toml.specs.Data.{no_items};
ghost use Rattle.toml.specs.View.{view, array_view};
ghost use Rattle.fk_scenario.specs.Fields.Gives.{Gives, Answers};
ghost use Rattle.fk_scenario.specs.Sections.Objects as definitions;

use crate::entries::{ObjectEntry, SpaceEntry, object_entry};
use crate::fields::{Entries, Fail, ScenarioFail, enclosing, index_at, rule, unless};
use crate::sections::spaces::{has_space, has_space_or_root};
use std::alloc::Global;
use toml::Value;
use toml::value::Array;

const SECTION: u8 = 4;

fn has_object(objects: &Entries<ObjectEntry>, path: &[u8]) -> bool
    ensures { result ≡ definitions.has_object objects.now path.now }
{
    objects.has(path)
}

#[tactic(auto, unfolding(crate::specs::Sections::Objects::object_after))]
fn object_after(
    alloc: Global,
    spaces: &Entries<SpaceEntry>,
    done: &Entries<ObjectEntry>,
    value: &Value,
) -> Result<ObjectEntry, Fail>
    ensures { Gives (λ x. x) result (definitions.object_after spaces.now done.now (view value.now)) }
{
    let object = object_entry(alloc, value)?;
    let path = object.path.as_slice();
    unless(rule::PLACES, has_space_or_root(spaces, enclosing(path)))?;
    unless(
        rule::SLOTS,
        !has_space(spaces, path) && !has_object(done, path),
    )?;
    Ok(object)
}

#[tactic(auto, unfolding(crate::specs::Sections::Objects::objects_from))]
fn objects_of(
    alloc: Global,
    spaces: &Entries<SpaceEntry>,
    array: &Array,
) -> Result<Entries<ObjectEntry>, ScenarioFail>
    ensures { Answers result (definitions.objects_from spaces.now [] (array_view array.now)) }
{
    let mut objects = Entries::new(alloc);
    for value in array {
        let index = index_at(objects.len())?;
        match object_after(alloc, spaces, &objects, value) {
            Ok(object) => objects = objects.with(alloc, object)?,
            Err(fail) => return Err(fail.at(SECTION, index)),
        }
    }
    Ok(objects)
}

/// The objects of the section, if it is there.
///
/// # Errors
///
/// `Scenario`: the refusal of the first entry that is refused. `NoMemory`: there is none for the entries.
#[tactic(auto, unfolding(crate::specs::Sections::Objects::objects_from))]
pub fn objects_in(
    alloc: Global,
    spaces: &Entries<SpaceEntry>,
    array: Option<&Array>,
) -> Result<Entries<ObjectEntry>, ScenarioFail>
    ensures { Answers result (definitions.objects_from spaces.now [] (unwrap_or (option_map (λ a. array_view a.now) array.entry) no_items)) }
{
    match array {
        Some(array) => objects_of(alloc, spaces, array),
        None => Ok(Entries::new(alloc)),
    }
}
