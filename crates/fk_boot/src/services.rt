//! The native servers with which a scenario begins.
ghost use Rattle.std.specs.Prelude.{◌≡◌, IfOk, reverse};
ghost use Rattle.std.specs.List.{All};
ghost use Rattle.fk_model.specs.Who.{named};
ghost use Rattle.fk_natives.specs.Both.{meaning};
ghost use Rattle.fk_store.specs.Store.World.{world};
ghost use Rattle.fk_boot.specs.MadeSoFar.{StandsAt};
ghost use Rattle.fk_boot.specs.Services.{first_state, first_services, by_paths};

use crate::names::name_of;
use fk_model::{NoMemory, Reply, Who};
use fk_natives::{Console, Native, Server, Side};
use fk_scenario::entries::{ServerEntry, ServiceSpec};
use fk_store::Store;
use std::alloc::Global;

const EMPTY: Reply = Reply {
    words: [0; 64],
    len: 0,
};

/// A server as it is at first: it has no client, and has neither been sent nor replied anything.
fn native_of(alloc: Global, service: &ServiceSpec) -> Result<Native, NoMemory>
    ensures { IfOk result (λ native. meaning native ≡ first_state service.now) }
{
    match service {
        ServiceSpec::Console { alias } => Ok(Native::Console(Console {
            alias: alias.copy()?,
            words: Vec::new(alloc),
            side: Side::Idle,
        })),
        ServiceSpec::Listed {
            index,
            rule,
            config,
        } => Ok(Native::Server(Server {
            index: *index,
            rule: *rule,
            config: config.copy()?,
            position: 0,
            request: EMPTY,
            left: EMPTY,
            side: Side::Idle,
        })),
    }
}

/// The name of a port that is there.
#[tactic(auto, using(crate::proofs::Aiming::above_there))]
fn port_of(store: &Store, server: &ServerEntry) -> Who
    requires { StandsAt (world store.now) server.now.port }
    ensures { named (world store.now) result ≡ reverse server.now.port }
{
    store.names();
    name_of(store, server.port.as_slice())
}

/// The servers of a scenario, each by the name of its port, in the order of the file.
///
/// # Errors
///
/// There is no memory for them.
pub fn services_of(
    alloc: Global,
    store: &Store,
    servers: &[ServerEntry],
) -> Result<Vec<(Who, Native)>, NoMemory>
    requires { All (λ s. StandsAt (world store.now) s.port) servers.now }
    ensures { IfOk result (λ services. by_paths (world store.now) services.items ≡ first_services servers.now) }
{
    let mut services = Vec::new(alloc);
    for server in servers {
        let native = native_of(alloc, &server.service)?;
        services.push((port_of(store, server), native))?;
    }
    Ok(services)
}
