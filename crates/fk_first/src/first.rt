//! The core with which a scenario begins.
ghost use Rattle.std.specs.Prelude.{◌≡◌, [], List, None, IfOk};
ghost use Rattle.fk_model.specs.declared.moves.Rule.{Rule};
ghost use Rattle.fk_core.specs.Cores.Cores.{run_core};
ghost use Rattle.fk_core.specs.Cores.Goings.{IsReachable};
ghost use Rattle.fk_first.specs.First.{IsFirst};
ghost use Rattle.fk_scenario.specs.Scenario.Kept.{KeepsScenario, HasRules};
ghost use Rattle.fk_core.specs.Cores.Served.{AllFit};
ghost use Rattle.laws_house.specs.Houses.{jobs_of};

use crate::plans::plans_of;
use fk_boot::boot;
use fk_core::Core;
use fk_finish::ValidImage;
use fk_jobs::{Jobs, Porter};
use fk_model::NoMemory;
use fk_natives::Native;
use fk_scenario::Scenario;
use std::alloc::Global;

/// The jobs of a scenario, none of which has begun. An image is given for each, or none; one that an earlier job makes needs none.
///
/// # Errors
///
/// There is no memory for the jobs.
pub fn first_jobs(
    alloc: Global,
    scenario: &Scenario,
    images: &[Option<ValidImage>],
) -> Result<Jobs<Porter>, NoMemory>
    requires { KeepsScenario scenario.now }
    ensures jobs { IfOk result (λ jobs. jobs.jobs ≡ jobs_of scenario.now.jobs images.now) }
    ensures ends { IfOk result (λ jobs. jobs.ends ≡ []) }
    ensures work { IfOk result (λ jobs. jobs.work ≡ None) }
{
    let plans = plans_of(alloc, scenario.jobs.as_slice(), images)?;
    let jobs = Jobs::new(alloc, plans)?;
    Ok(jobs)
}

/// The core with which a scenario begins. An image is given for each of its jobs, or none; one that an earlier job makes needs none. A table
/// by which the scenario was read fits its servers.
///
/// # Errors
///
/// There is no memory for the kernel, the servers or the jobs.
pub fn first_core(
    alloc: Global,
    scenario: &Scenario,
    images: &[Option<ValidImage>],
) -> Result<Core<Native, Porter>, NoMemory>
    requires { KeepsScenario scenario.now }
    ensures first { IfOk result (λ core. IsFirst scenario.now (run_core core)) }
    ensures come { IfOk result (λ core. IsReachable core) }
    ensures fits { (rules : List Rule) → HasRules rules scenario.now → IfOk result (λ core. AllFit rules core.services.list) }
    ensures jobs { IfOk result (λ core. core.jobs.jobs ≡ jobs_of scenario.now.jobs images.now) }
    ensures events { IfOk result (λ core. core.events ≡ 0) }
    ensures budget { IfOk result (λ core. core.budget ≡ scenario.now.budget) }
{
    let first = boot(alloc, scenario)?;
    let jobs = first_jobs(alloc, scenario, images)?;
    Ok(Core::new(first.kernel, first.services, jobs, first.budget))
}
