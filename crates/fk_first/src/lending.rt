//! The core with which a scenario begins, lent to who plays.
ghost use Rattle.std.specs.Prelude.{map};
ghost use Rattle.fk_first.specs.First.{IsFirst};
ghost use Rattle.fk_first.specs.Lent.{IsPlayed, ArePlayed};
ghost use Rattle.fk_scenario.specs.Scenario.Kept.{KeepsScenario, HasRules};

use crate::first::first_core;
use crate::plans::maker_of;
use crate::seen::{Images, Player};
use fk_finish::ValidImage;
use fk_model::{JobSpec, NoMemory};
use fk_responders::Table;
use fk_scenario::Scenario;
use std::alloc::Global;

/// The image that a job behind others needs of who has images: that of a restore which none of them makes.
fn image_for<I: Images>(
    before: &[JobSpec],
    job: &JobSpec,
    images: &mut I,
) -> Result<Option<ValidImage>, I::Fault> {
    let JobSpec::Restore { image, .. } = job else {
        return Ok(None);
    };
    let name = image.as_str();
    match maker_of(before, name) {
        Some(_) => Ok(None),
        None => Ok(Some(images.image(name)?)),
    }
}

/// The images that jobs need of who has them, in their order: one for each, or none.
fn images_for<I: Images>(
    alloc: Global,
    jobs: &[JobSpec],
    images: &mut I,
) -> Result<Vec<Option<ValidImage>>, I::Fault> {
    let mut list = Vec::new(alloc);
    while let Some(job) = jobs.get(list.len()) {
        let image = image_for(&jobs[..list.len()], job, images)?;
        if list.push(image).is_err() {
            return Err(I::Fault::from(NoMemory));
        }
    }
    Ok(list)
}

/// Lends a player the core with which a scenario begins that was read by the rules of a table, and hands on what it answers. The core is let go here.
fn lend_core<P: Player>(
    alloc: Global,
    table: &Table,
    scenario: &Scenario,
    images: &[Option<ValidImage>],
    player: &mut P,
) -> Result<bool, NoMemory>
    requires keeps { KeepsScenario scenario.now }
    requires rules { HasRules (map (λ r. r.rule) table.now.list.items) scenario.now }
    ensures { IsPlayed P.plays (IsFirst scenario.now) player.old result player.new }
{
    let mut core = first_core(alloc, scenario, images)?;
    Ok(player.play(table, scenario, &mut core))
}

/// Lends a player the core with which a scenario begins, with the images that its jobs need, again and again for as long as it wants another. The scenario
/// was read by the rules of the table. Cores and images are let go here, so that who plays proves nothing of them.
///
/// # Errors
///
/// There is no memory for a core, or an image can't be had.
pub fn lend_cores<I: Images, P: Player>(
    alloc: Global,
    table: &Table,
    scenario: &Scenario,
    images: &mut I,
    player: &mut P,
) -> Result<(), I::Fault>
    requires keeps { KeepsScenario scenario.now }
    requires rules { HasRules (map (λ r. r.rule) table.now.list.items) scenario.now }
    ensures { ArePlayed P.plays (IsFirst scenario.now) player.old player.new }
{
    let images = images_for(alloc, scenario.jobs.as_slice(), images)?;
    for _ in 0..u64::MAX {
        match lend_core(alloc, table, scenario, &images, player) {
            Ok(true) => {}
            Ok(false) => break,
            Err(NoMemory) => return Err(I::Fault::from(NoMemory)),
        }
    }
    Ok(())
}
