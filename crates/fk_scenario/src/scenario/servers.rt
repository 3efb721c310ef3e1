//! Whether servers may serve.
ghost use Rattle.std.specs.Prelude.{◌≡◌, ◌++◌, ◌∷◌, [], IfOk};
ghost use Rattle.fk_scenario.specs.Fields.Gives.{Answers};
ghost use Rattle.fk_scenario.specs.Scenario.Aims.{object_with, is_one};
ghost use Rattle.fk_scenario.specs.Scenario.Servers as definitions;

use crate::entries::{ObjectEntry, ServerEntry, ServiceSpec, Spec};
use crate::fields::{Entries, Fail, Path, ScenarioFail, index_at, rule};
use fk_model::{NoMemory, Text};
use std::alloc::Global;

const SECTION: u8 = 5;

fn is_lone_port(spec: &Spec) -> bool
    ensures { result ≡ definitions.is_lone_port spec.now }
{
    matches!(spec, Spec::Port { set: None })
}

fn has_lone_port(objects: &Entries<ObjectEntry>, path: &[u8]) -> bool
    ensures { result ≡ is_one definitions.is_lone_port (object_with objects.now path.now) }
{
    match objects.find(path) {
        Some(object) => is_lone_port(&object.spec),
        None => false,
    }
}

fn has_new_alias(aliases: &Entries<Text>, service: &ServiceSpec) -> bool
    ensures { result ≡ definitions.has_new_alias aliases.now service.now }
{
    match service {
        ServiceSpec::Console { alias } => !aliases.has(alias.as_str().as_bytes()),
        ServiceSpec::Listed { .. } => true,
    }
}

fn may_serve(
    objects: &Entries<ObjectEntry>,
    ports: &Entries<Path>,
    aliases: &Entries<Text>,
    server: &ServerEntry,
) -> bool
    ensures { result ≡ definitions.may_serve objects.now ports.now aliases.now server.now }
{
    let port = server.port.as_slice();
    has_lone_port(objects, port) && !ports.has(port) && has_new_alias(aliases, &server.service)
}

/// The aliases with that of one more server, if it has one.
fn with_alias(
    alloc: Global,
    aliases: Entries<Text>,
    service: &ServiceSpec,
) -> Result<Entries<Text>, NoMemory>
    ensures { IfOk result (λ more. more ≡ aliases ++ definitions.alias_of service.now) }
{
    match service {
        ServiceSpec::Console { alias } => aliases.with(alloc, alias.copy()?),
        ServiceSpec::Listed { .. } => Ok(aliases),
    }
}

/// Refuses a server that may not serve, after those whose ports and aliases these are.
fn check_server(
    objects: &Entries<ObjectEntry>,
    ports: &Entries<Path>,
    aliases: &Entries<Text>,
    server: &ServerEntry,
) -> Result<(), ScenarioFail>
    ensures { Answers result (definitions.serving_one objects.now ports.now aliases.now server.now) }
{
    let index = index_at(ports.len())?;
    if may_serve(objects, ports, aliases, server) {
        Ok(())
    } else {
        Err(Fail::Rule(rule::SERVERS).at(SECTION, index))
    }
}

/// Refuses the first server that may not serve.
///
/// # Errors
///
/// `Scenario`: that refusal. `NoMemory`: there is none for the ports that were met.
#[tactic(auto, unfolding(crate::specs::Scenario::Servers::serving_from))]
pub fn check_servers(
    alloc: Global,
    objects: &Entries<ObjectEntry>,
    servers: &[ServerEntry],
) -> Result<(), ScenarioFail>
    ensures { Answers result (definitions.serving_from objects.now [] [] servers.now) }
{
    let mut ports = Entries::new(alloc);
    let mut aliases = Entries::new(alloc);
    for server in servers {
        check_server(objects, &ports, &aliases, server)?;
        ports = ports.with(alloc, server.port.copy()?)?;
        aliases = with_alias(alloc, aliases, &server.service)?;
    }
    Ok(())
}
