//! A scenario that runs with a pager.
ghost use Rattle.std.specs.Prelude.{◌≤◌, IfOk, map, string_bytes};
ghost use Rattle.fk_host.specs.Kernels.{world_of as world};
ghost use Rattle.fk_host.specs.Served.{AllFit, shown};
ghost use Rattle.fk_natives.specs.Both.{meaning};
ghost use Rattle.fk_pager.specs.Desks.{HasDesk};
ghost use Rattle.fk_pager.specs.Paged.{first_of};
ghost use Rattle.fk_pager.specs.Pages.{IsPage, IsWritten};
ghost use Rattle.fk_scenario.specs.Scenario.Kept.{KeepsScenario, HasRules};

use crate::desks::{Desk, desk_at};
use crate::paged::run_paged;
use crate::text::text_of;
use fk_boot::{First, boot};
use fk_extras::Paged;
use fk_host::Host;
use fk_model::NoMemory;
use fk_responders::Table;
use fk_scenario::Scenario;
use std::alloc::Global;

/// A run with a pager, and its text.
#[derive(Drop)]
pub struct Page {
    pub paged: Paged,
    pub text: String,
}

/// What a scenario begins with runs with a pager at a desk.
fn page_at(
    alloc: Global,
    table: &Table,
    slot: u8,
    room: u16,
    desk: Desk,
    first: First,
) -> Result<Page, NoMemory>
    requires low { slot ≤ 239 }
    requires some { 1 ≤ room }
    requires most { room ≤ 256 }
    requires desk { HasDesk (world first.kernel) slot desk.port desk.set }
    requires fits { AllFit (map (λ r. r.rule) table.now.list.items) (shown meaning first.services.items) }
    ensures { IfOk result (λ page. IsWritten slot desk.port desk.set room (first_of first.kernel (shown meaning first.services.items)) first.budget
        page.paged (string_bytes page.text)) }
{
    let First {
        kernel,
        services,
        budget,
        ..
    } = first;
    let host = Host::new(kernel, services)?;
    let ran = run_paged(alloc, host, table, slot, desk, room, budget)?;
    let (last, paged) = ran;
    let text = text_of(alloc, slot, room, &paged, &last)?;
    Ok(Page { paged, text })
}

/// Runs a scenario with a pager of the subtree in a slot of its root, of which so many pages may be home once they were all taken. Nothing where the scenario
/// has jobs or that subtree may not be paged.
///
/// # Errors
///
/// There is no memory for the run or its text.
pub fn page_scenario(
    alloc: Global,
    table: &Table,
    slot: u8,
    room: u16,
    scenario: &Scenario,
) -> Result<Option<Page>, NoMemory>
    requires keeps { KeepsScenario scenario.now }
    requires rules { HasRules (map (λ r. r.rule) table.now.list.items) scenario.now }
    requires low { slot ≤ 239 }
    requires some { 1 ≤ room }
    requires most { room ≤ 256 }
    ensures { IfOk result (IsPage slot room scenario.now) }
{
    if scenario.jobs.len() != 0 {
        return Ok(None);
    }
    let first = boot(alloc, scenario)?;
    match desk_at(first.kernel.store(), slot) {
        None => Ok(None),
        Some(desk) => {
            let made = page_at(alloc, table, slot, room, desk, first)?;
            Ok(Some(made))
        }
    }
}
