//! What a scenario begins with.
ghost use Rattle.std.specs.Prelude.{◌≡◌, ◌++◌, IfOk, map};
ghost use Rattle.fk_model.specs.Valid.{IsValid};
ghost use Rattle.fk_model.specs.Sound.{IsSoundStart};
ghost use Rattle.fk_model.specs.Whole.{IsSavable};
ghost use Rattle.laws_moves.specs.Whole.Runnable.{IsRunnable};
ghost use Rattle.fk_scenario.specs.Scenario.Kept.{KeepsScenario};
ghost use Rattle.fk_kernel.specs.Kernels.{world_of as world};
ghost use Rattle.fk_boot.specs.FirstWorld.{booted};
ghost use Rattle.fk_boot.specs.Services.{first_services, by_paths};
ghost use Rattle.fk_boot.specs.Starts.{start_with, ports_by};

use crate::entries::first_store;
use crate::services::services_of;
use fk_kernel::Kernel;
use fk_model::{NoMemory, Who};
use fk_natives::Native;
use fk_scenario::Scenario;
use std::alloc::Global;

/// What a scenario begins with: a kernel of its first world, its native servers by their ports, in the order of
/// the file, and how many moves may be made on how many workers.
#[derive(Drop)]
pub struct First {
    pub kernel: Kernel,
    pub services: Vec<(Who, Native)>,
    pub budget: u64,
    pub workers: u32,
}

/// What a scenario begins with: its spaces with their pages of zeros and their programs,
/// then its objects, of which the ports of servers are served, then where these lead, and then the porters
/// of nesters, each in the order of the file. Spaces have birth numbers from 1 on, and the root 0. That world is valid, a
/// run may begin in it, and it can be saved; with the servers, the nesters and the jobs it is a sound start. Each server stands at its port, has no client, and was neither sent nor
/// replied anything. For want of memory there is none.
///
/// # Errors
///
/// There is no memory for the kernel or the servers.
pub fn boot(alloc: Global, scenario: &Scenario) -> Result<First, NoMemory>
    requires { KeepsScenario scenario.now }
    ensures world { IfOk result (λ first. world first.kernel ≡ booted scenario.now) }
    ensures valid { IfOk result (λ first. IsValid (world first.kernel)) }
    ensures runnable { IfOk result (λ first. IsRunnable (world first.kernel)) }
    ensures savable { IfOk result (λ first. IsSavable (world first.kernel)) }
    ensures services { IfOk result (λ first. by_paths (world first.kernel) first.services.items ≡ first_services scenario.now.servers) }
    ensures sound { IfOk result (λ first.
        IsSoundStart (start_with scenario.now (world first.kernel) (ports_by (world first.kernel) first.services.items) first.budget)) }
    ensures budget { IfOk result (λ first. first.budget ≡ scenario.now.budget) }
    ensures workers { IfOk result (λ first. first.workers ≡ scenario.now.workers) }
{
    let store = first_store(alloc, scenario)?;
    let services = services_of(alloc, &store, scenario.servers.as_slice())?;
    Ok(First {
        kernel: Kernel::of(alloc, store)?,
        services,
        budget: scenario.budget,
        workers: scenario.workers,
    })
}
