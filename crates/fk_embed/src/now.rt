//! A save and a restore now.
ghost use Rattle.std.specs.Prelude.{◌≡◌, ◌≤◌, map, IfOk};
ghost use Rattle.fk_embed.specs.Jobs.{ComesTo};
ghost use Rattle.fk_embed.specs.Now.{Restores, Saves};
ghost use Rattle.fk_jobs.specs.Porters.{state_of};
ghost use Rattle.fk_model.specs.Places.{Path};
ghost use Rattle.fk_model.specs.declared.limits.TheConstants.{LAST_USER_SLOT};
ghost use Rattle.fk_served.specs.Kernels.{world_of as world};
ghost use Rattle.fk_served.specs.Served.{AllFit};
ghost use Rattle.laws_jobs.specs.Jobs.{MayBegin};
ghost use Rattle.laws_restore.specs.Rooms.Restoring.{IsRestoreJob};

use crate::job::{HostJob, Stop};
use fk_finish::ValidImage;
use fk_host::Host;
use fk_jobs::Finish;
use fk_model::List;
use fk_natives::Service;
use fk_responders::Table;
use std::alloc::Global;

/// A job that has stopped before its end, and why. It can go on later.
#[derive(Drop)]
pub struct Stopped {
    pub job: HostJob,
    pub why: Stop,
}

/// Makes a job's calls until it has ended.
fn to_end<S: Service + Drop>(
    mut job: HostJob,
    host: &mut Host<S>,
    table: &Table,
) -> Result<Finish, Stopped>
    requires fits { AllFit (map (λ r. r.rule) table.now.list.items) host.old.services.list }
    ensures comes { IfOk result (λ finish. ComesTo job.nester (world host.old.kernel) (state_of job.porter) (world host.new.kernel) finish) }
    ensures fits { AllFit (map (λ r. r.rule) table.now.list.items) host.new.services.list }
{
    match job.go(host, table, u64::MAX) {
        Ok(()) => Ok(job.finish()),
        Err(why) => Err(Stopped { job, why }),
    }
}

/// Saves the subtree in a slot of the nester with this birth number, as it stands: by calls of the nester's porter alone, between which nobody else moves.
/// Answers its image, or the first place where it isn't closed, or that there is no space.
///
/// # Errors
///
/// The job has stopped: a space outside of the subtree is held or the nester has no porter (`Waits`), or there is no memory.
pub fn save_now<S: Service + Drop>(
    alloc: Global,
    host: &mut Host<S>,
    table: &Table,
    nester: u32,
    slot: u8,
) -> Result<Finish, Stopped>
    requires fits { AllFit (map (λ r. r.rule) table.now.list.items) host.old.services.list }
    ensures saved { IfOk result (λ finish. (path : Path) → slot ≤ LAST_USER_SLOT → MayBegin (world host.old.kernel) path nester →
        Saves path slot (world host.old.kernel) (world host.new.kernel) finish) }
    ensures fits { AllFit (map (λ r. r.rule) table.now.list.items) host.new.services.list }
{
    to_end(HostJob::save(alloc, nester, slot), host, table)
}

/// Makes an image again in a slot of the nester with this birth number: by calls of the nester's porter alone, between which nobody else moves. Pairs bind
/// outward slots of the image to slots of the nester. Answers that it is done, that the slot is taken, or a slot in which no port stands.
///
/// # Errors
///
/// The job has stopped: a space outside of the subtree is held or the nester has no porter (`Waits`), or there is no memory.
pub fn restore_now<S: Service + Drop>(
    host: &mut Host<S>,
    table: &Table,
    nester: u32,
    slot: u8,
    image: ValidImage,
    pairs: List<(u8, u8)>,
) -> Result<Finish, Stopped>
    requires job { IsRestoreJob slot image pairs }
    requires fits { AllFit (map (λ r. r.rule) table.now.list.items) host.old.services.list }
    ensures restored { IfOk result (λ finish. (path : Path) → MayBegin (world host.old.kernel) path nester →
        Restores path slot pairs image (world host.old.kernel) (world host.new.kernel) finish) }
    ensures fits { AllFit (map (λ r. r.rule) table.now.list.items) host.new.services.list }
{
    to_end(HostJob::restore(nester, slot, image, pairs), host, table)
}
