//! A run by a trace, watched.
ghost use Rattle.std.specs.Prelude.{⊤, map};
ghost use Rattle.fk_core.specs.Cores.Goings.{IsReachable};
ghost use Rattle.fk_scenario.specs.Scenario.Kept.{KeepsScenario, HasRules};
ghost use Rattle.fk_core.specs.Cores.Served.{AllFit};

use crate::lending::lend_cores;
use crate::ready::ready_threads;
use crate::seen::{Images, Job, Player, Seen, Stop, Trace, Watcher};
use fk_core::Core;
use fk_jobs::Porter;
use fk_model::limits::LAST_PORTER_SLOT;
use fk_model::{NoMemory, Who};
use fk_natives::Native;
use fk_responders::Table;
use fk_scenario::Scenario;
use fk_trace_text::{after_first_line, first_move};
use std::alloc::Global;

/// The job whose turn it is, with the call that it asks for.
fn job_of(core: &Core<Native, Porter>) -> Option<Job> {
    let jobs = core.jobs();
    let plan = jobs.current()?;
    let mut words = [0; 64];
    let stage = jobs.next(&mut words)?;
    Some(Job {
        porter: Who {
            space: plan.nester,
            slot: LAST_PORTER_SLOT as u8,
        },
        stage,
        at: plan.at,
        is_at_work: jobs.is_at_work(),
    })
}

/// What is seen of a core, and of its job.
fn seen<'a>(core: &'a Core<Native, Porter>, job: Option<&'a Job>) -> Seen<'a> {
    Seen {
        store: core.kernel().store(),
        services: core.services(),
        job,
        events: core.events(),
    }
}

/// Where a run stops behind the moves that were asked for: where the next one isn't ready, at that.
fn ahead(core: &Core<Native, Porter>, rest: &[u8], index: u64) -> Stop {
    match first_move(rest) {
        Some((one, _)) if !core.ready(&one) => Stop::Unready { index, one },
        _ => Stop::Enough,
    }
}

/// Makes the moves of a trace, as many as are asked for, and answers where that stops.
fn play<V: Watcher>(
    core: &mut Core<Native, Porter>,
    table: &Table,
    trace: Trace<'_>,
    watcher: &mut V,
) -> Result<Stop, NoMemory>
    requires fits { AllFit (map (λ r. r.rule) table.now.list.items) core.old.services.list }
    requires come { IsReachable core.old }
{
    let Some(mut rest) = after_first_line(trace.bytes) else {
        return Ok(Stop::NoTrace);
    };
    for index in 0..trace.most {
        if rest.is_empty() {
            return Ok(Stop::Ended);
        }
        let Some((one, after)) = first_move(rest) else {
            return Ok(Stop::Misspelled { index });
        };
        if !core.is_below_budget() {
            return Ok(Stop::Budget { index });
        }
        let job = job_of(core);
        watcher.before(&seen(core, job.as_ref()), &one);
        if !core.go(table, &one)? {
            return Ok(Stop::Unready { index, one });
        }
        watcher.after(&seen(core, None), core.jobs(), &one);
        rest = after;
    }
    if trace.looks_ahead {
        return Ok(ahead(core, rest, trace.most));
    }
    Ok(Stop::Enough)
}

/// Makes the moves of a trace, and shows the watcher where that stops.
fn play_to_stop<V: Watcher>(
    alloc: Global,
    core: &mut Core<Native, Porter>,
    table: &Table,
    trace: Trace<'_>,
    watcher: &mut V,
) -> Result<Stop, NoMemory>
    requires fits { AllFit (map (λ r. r.rule) table.now.list.items) core.old.services.list }
    requires come { IsReachable core.old }
{
    let stop = play(core, table, trace, watcher)?;
    let job = job_of(core);
    let ready = ready_threads(alloc, core, job)?;
    watcher.stops(&seen(core, job.as_ref()), core.jobs(), &ready, stop);
    Ok(stop)
}

/// A watcher of the run by a trace, and where that has stopped.
#[derive(Drop)]
struct Viewing<'t, 'w, V: Watcher> {
    alloc: Global,
    trace: Trace<'t>,
    watcher: &'w mut V,
    stop: Result<Stop, NoMemory>,
}

impl<V: Watcher> Player for Viewing<'_, '_, V> {
    ghost plays = { λ _ _ _ _. ⊤ };

    fn play(
        &mut self,
        table: &Table,
        _scenario: &Scenario,
        core: &mut Core<Native, Porter>,
    ) -> bool {
        self.stop = play_to_stop(self.alloc, core, table, self.trace, self.watcher);
        false
    }
}

/// Makes the moves of a trace from the first core of a scenario that was read by the rules of a table, with the images that its jobs need; shows
/// them to a watcher, and answers where that stops. Of what is no trace the watcher sees the first core alone. The core is let go here, and so are the
/// images, so that who watches proves nothing of them.
///
/// # Errors
///
/// There is no memory, or an image can't be had.
pub fn watch<I: Images, V: Watcher>(
    alloc: Global,
    table: &Table,
    scenario: &Scenario,
    images: &mut I,
    trace: Trace<'_>,
    watcher: &mut V,
) -> Result<Stop, I::Fault>
    requires keeps { KeepsScenario scenario.now }
    requires rules { HasRules (map (λ r. r.rule) table.now.list.items) scenario.now }
{
    let mut viewing = Viewing {
        alloc,
        trace,
        watcher,
        stop: Ok(Stop::Ended),
    };
    lend_cores(alloc, table, scenario, images, &mut viewing)?;
    match viewing.stop {
        Ok(stop) => Ok(stop),
        Err(NoMemory) => Err(I::Fault::from(NoMemory)),
    }
}
