//! The core with which a scenario begins, with taps or replays of its servers.
ghost use Rattle.std.specs.Prelude.{◌≡◌, ◌≤◌, List, IfOk};
ghost use Rattle.fk_core.specs.Cores.Cores.{run_core};
ghost use Rattle.fk_core.specs.Cores.Goings.{IsReachable};
ghost use Rattle.fk_core.specs.Cores.Served.{AllFit};
ghost use Rattle.fk_model.specs.declared.moves.Rule.{Rule};
ghost use Rattle.fk_first.specs.First.{IsFirstWith};
ghost use Rattle.fk_scenario.specs.Scenario.Kept.{KeepsScenario, HasRules};
ghost use Rattle.fk_trace.specs.Posts.{all_tapped, all_replaying, words_of_all};
ghost use Rattle.laws_house.specs.Houses.{jobs_of};

use crate::first::first_jobs;
use fk_boot::boot;
use fk_core::Core;
use fk_finish::ValidImage;
use fk_jobs::Porter;
use fk_model::{NoMemory, Reply};
use fk_scenario::Scenario;
use fk_trace::{Post, replaying_posts, tapped_posts};
use std::alloc::Global;

/// The core with which a scenario begins, with a tap of each server that is no console, by the observer at a place of the table.
///
/// # Errors
///
/// There is no memory for the kernel, the taps or the jobs.
pub fn tapped_core(
    alloc: Global,
    scenario: &Scenario,
    images: &[Option<ValidImage>],
    watch: u8,
) -> Result<Core<Post, Porter>, NoMemory>
    requires keeps { KeepsScenario scenario.now }
    requires watch { watch ≤ 2 }
    ensures first { IfOk result (λ core. IsFirstWith scenario.now (all_tapped watch) (run_core core)) }
    ensures come { IfOk result (λ core. IsReachable core) }
    ensures fits { (rules : List Rule) → HasRules rules scenario.now → IfOk result (λ core. AllFit rules core.services.list) }
    ensures jobs { IfOk result (λ core. core.jobs.jobs ≡ jobs_of scenario.now.jobs images.now) }
    ensures events { IfOk result (λ core. core.events ≡ 0) }
    ensures budget { IfOk result (λ core. core.budget ≡ scenario.now.budget) }
{
    let first = boot(alloc, scenario)?;
    let jobs = first_jobs(alloc, scenario, images)?;
    let posts = tapped_posts(alloc, first.services, watch)?;
    Ok(Core::new(first.kernel, posts, jobs, first.budget))
}

/// The core with which a scenario begins, with a replay in the place of each server that is no console, by these lists of replies in order.
///
/// # Errors
///
/// There is no memory for the kernel, the replays or the jobs.
pub fn replaying_core(
    alloc: Global,
    scenario: &Scenario,
    images: &[Option<ValidImage>],
    lists: Vec<Vec<Reply>>,
) -> Result<Core<Post, Porter>, NoMemory>
    requires { KeepsScenario scenario.now }
    ensures first { IfOk result (λ core. IsFirstWith scenario.now (all_replaying (words_of_all lists.items)) (run_core core)) }
    ensures come { IfOk result (λ core. IsReachable core) }
    ensures fits { (rules : List Rule) → HasRules rules scenario.now → IfOk result (λ core. AllFit rules core.services.list) }
    ensures jobs { IfOk result (λ core. core.jobs.jobs ≡ jobs_of scenario.now.jobs images.now) }
    ensures events { IfOk result (λ core. core.events ≡ 0) }
    ensures budget { IfOk result (λ core. core.budget ≡ scenario.now.budget) }
{
    let first = boot(alloc, scenario)?;
    let jobs = first_jobs(alloc, scenario, images)?;
    let posts = replaying_posts(alloc, first.services, lists)?;
    Ok(Core::new(first.kernel, posts, jobs, first.budget))
}
