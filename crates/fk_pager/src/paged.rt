//! A whole run with a pager.
ghost use Rattle.std.specs.Prelude.{◌≤◌, IfOk, map};
ghost use Rattle.fk_host.specs.Kernels.{world_of as world};
ghost use Rattle.fk_host.specs.Served.{AllFit};
ghost use Rattle.laws_migrate.specs.Porters.{HasPorter};
ghost use Rattle.fk_pager.specs.Desks.{desk_of_root};
ghost use Rattle.fk_pager.specs.Paged.{first_of, IsPaged};

use crate::desks::Desk;
use crate::driver::PagedRun;
use fk_extras::Paged;
use fk_host::Host;
use fk_model::NoMemory;
use fk_natives::Service;
use fk_responders::Table;
use std::alloc::Global;

/// Runs a host with a pager of the subtree in a slot of its root, until so many moves are made or none is ready: once the pager's opening is done, at most
/// `room` of the pages that it took are home. Gives back the host as the run leaves it, and what the run came to.
///
/// # Errors
///
/// There is no memory for the pager's list or for a move.
pub fn run_paged<S: Service + Drop>(
    alloc: Global,
    host: Host<S>,
    table: &Table,
    slot: u8,
    desk: Desk,
    room: u16,
    budget: u64,
) -> Result<(Host<S>, Paged), NoMemory>
    requires low { slot ≤ 239 }
    requires some { 1 ≤ room }
    requires most { room ≤ 256 }
    requires porter { HasPorter (world host.kernel) }
    requires fits { AllFit (map (λ r. r.rule) table.now.list.items) host.services.list }
    ensures { IfOk result (λ out. IsPaged (desk_of_root slot desk.port desk.set room) (first_of host.kernel host.services.list) budget
        out.0.kernel out.0.services.list out.1) }
{
    let mut run = PagedRun::new(alloc, host, slot, desk.port, desk.set, room)?;
    let end = run.drive(table, budget)?;
    Ok(run.into_parts(end))
}
