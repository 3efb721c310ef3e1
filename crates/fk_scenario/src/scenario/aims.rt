//! What paths and sets of objects lead to.
ghost use Rattle.std.specs.Prelude.{◌≡◌, ◌++◌, ◌∷◌, [], option_map, option_copied, IfOk};
ghost use Rattle.fk_scenario.specs.Fields.Gives.{Answers};
ghost use Rattle.fk_scenario.specs.Scenario.Aims as definitions;

use crate::entries::{ObjectEntry, SpaceEntry, Spec};
use crate::fields::{Entries, Fail, ScenarioFail, enclosing, index_at, rule};
use crate::sections::has_space;
use fk_model::{List, NoMemory};
use std::alloc::Global;

const SECTION: u8 = 4;

fn is_region_spec(spec: &Spec) -> bool
    ensures { result ≡ definitions.is_region_spec spec.now }
{
    matches!(spec, Spec::Region { .. })
}

fn is_port_spec(spec: &Spec) -> bool
    ensures { result ≡ definitions.is_port_spec spec.now }
{
    matches!(spec, Spec::Port { .. })
}

fn is_portset_spec(spec: &Spec) -> bool
    ensures { result ≡ definitions.is_portset_spec spec.now }
{
    matches!(spec, Spec::Portset)
}

fn can_be_referred_to(spec: &Spec) -> bool
    ensures { result ≡ definitions.can_be_referred_to spec.now }
{
    match spec {
        Spec::Mapping { .. } | Spec::Region { .. } | Spec::Port { .. } | Spec::Thread { .. } =>
            true,
        Spec::Mutex { .. } | Spec::Cond | Spec::Portset | Spec::Reference { .. } => false,
    }
}

fn has_region(objects: &Entries<ObjectEntry>, path: &[u8]) -> bool
    ensures { result ≡ definitions.is_one definitions.is_region_spec (definitions.object_with objects.now path.now) }
{
    match objects.find(path) {
        Some(object) => is_region_spec(&object.spec),
        None => false,
    }
}

fn has_port(objects: &Entries<ObjectEntry>, path: &[u8]) -> bool
    ensures { result ≡ definitions.is_one definitions.is_port_spec (definitions.object_with objects.now path.now) }
{
    match objects.find(path) {
        Some(object) => is_port_spec(&object.spec),
        None => false,
    }
}

fn has_portset(objects: &Entries<ObjectEntry>, path: &[u8]) -> bool
    ensures { result ≡ definitions.is_one definitions.is_portset_spec (definitions.object_with objects.now path.now) }
{
    match objects.find(path) {
        Some(object) => is_portset_spec(&object.spec),
        None => false,
    }
}

fn leads_to_region(objects: &Entries<ObjectEntry>, path: &Option<List<u8>>) -> bool
    ensures { result ≡ definitions.aims_at objects.now definitions.is_region_spec path.now }
{
    match path {
        None => true,
        Some(path) => has_region(objects, path.as_slice()),
    }
}

fn leads_to_port(objects: &Entries<ObjectEntry>, path: &Option<List<u8>>) -> bool
    ensures { result ≡ definitions.aims_at objects.now definitions.is_port_spec path.now }
{
    match path {
        None => true,
        Some(path) => has_port(objects, path.as_slice()),
    }
}

/// Whether an object is there to which a reference may lead.
fn has_referent(objects: &Entries<ObjectEntry>, path: &[u8]) -> bool
    ensures { result ≡ definitions.is_one definitions.can_be_referred_to (definitions.object_with objects.now path.now) }
{
    match objects.find(path) {
        Some(object) => can_be_referred_to(&object.spec),
        None => false,
    }
}

fn refers_to(
    spaces: &Entries<SpaceEntry>,
    objects: &Entries<ObjectEntry>,
    path: &Option<List<u8>>,
) -> bool
    ensures { result ≡ definitions.refers_to spaces.now objects.now path.now }
{
    match path {
        None => true,
        Some(path) => {
            let path = path.as_slice();
            !path.is_empty() && (has_space(spaces, path) || has_referent(objects, path))
        }
    }
}

/// The path of a slot of a space.
fn path_in(alloc: Global, space: &[u8], slot: u8) -> Result<Vec<u8>, NoMemory>
    ensures { IfOk result (λ path. path.items ≡ space.now ++ slot ∷ []) }
{
    let mut path = Vec::from_slice(alloc, space)?;
    path.push(slot)?;
    Ok(path)
}

fn has_set(
    alloc: Global,
    objects: &Entries<ObjectEntry>,
    space: &[u8],
    set: Option<u8>,
) -> Result<bool, NoMemory>
    ensures { IfOk result (λ has. has ≡ definitions.has_set objects.now space.now set) }
{
    let Some(slot) = set else {
        return Ok(true);
    };
    let path = path_in(alloc, space, slot)?;
    Ok(has_portset(objects, &path))
}

fn aims_well(
    alloc: Global,
    spaces: &Entries<SpaceEntry>,
    objects: &Entries<ObjectEntry>,
    object: &ObjectEntry,
) -> Result<bool, NoMemory>
    ensures { IfOk result (λ well. well ≡ definitions.aims_well spaces.now objects.now (definitions.entry_space object.now) object.now.spec) }
{
    match &object.spec {
        Spec::Mapping { region, .. } => Ok(leads_to_region(objects, region)),
        Spec::Region { keeper, .. } => Ok(leads_to_port(objects, keeper)),
        Spec::Port { set } => has_set(alloc, objects, enclosing(object.path.as_slice()), *set),
        Spec::Reference { to } => Ok(refers_to(spaces, objects, to)),
        Spec::Thread { .. } | Spec::Mutex { .. } | Spec::Cond | Spec::Portset => Ok(true),
    }
}

/// Refuses the first object that aims badly.
///
/// # Errors
///
/// `Scenario`: that refusal. `NoMemory`: there is none for the look, or there are more objects than an index can count.
#[tactic(auto, unfolding(crate::specs::Scenario::Aims::aims_from))]
pub fn check_aims(
    alloc: Global,
    spaces: &Entries<SpaceEntry>,
    objects: &Entries<ObjectEntry>,
) -> Result<(), ScenarioFail>
    ensures { Answers result (definitions.aims_from spaces.now objects.now 0 objects.now) }
{
    let mut place = 0usize;
    for object in objects.as_slice() {
        let index = index_at(place)?;
        if !aims_well(alloc, spaces, objects, object)? {
            return Err(Fail::Rule(rule::AIMS).at(SECTION, index));
        }
        place = match place.checked_add(1) {
            Some(place) => place,
            None => return Err(ScenarioFail::NoMemory),
        };
    }
    Ok(())
}
