//! Room for what a move tells servers and jobs. Where it lacks, the move is made none the less if it tells nobody by whom room is used.
ghost use Rattle.std.specs.Prelude.{◌≡◌, ◌↔◌, true, false, Some, IsTrue, IfOk, OnErr};
ghost use Rattle.fk_model.specs.declared.moves.Ask.TheVariants as asks;
ghost use Rattle.fk_model.specs.Who.{event_of};
ghost use Rattle.fk_core.specs.Rounds.Events.{is_fit_event, IsReadyEvent};
ghost use Rattle.fk_core.specs.Rounds.Kernels.{world_of as world};
ghost use Rattle.fk_core.specs.Rounds.Served.{some_grow};
ghost use Rattle.fk_core.specs.Cores.Cores.{run_core};
ghost use Rattle.fk_core.specs.Cores.Memory.{may_lack_call, IsStill};

use crate::cores::turns::Core;
use fk_jobs::JobMachine;
use fk_model::{Ask, Move, NoMemory, Stage};
use fk_natives::Service;
use fk_served::foretell;

/// What comes of a move that lacks memory, where it is ready; of any other it is answered that it isn't.
#[inline(never)]
pub(crate) fn unmade(ready: bool) -> Result<bool, NoMemory>
    ensures lacking { OnErr result (ready ≡ true) }
    ensures unready { IfOk result (λ made. (made ≡ false) × (ready ≡ false)) }
{
    if ready { Err(NoMemory) } else { Ok(false) }
}

impl<S: Service + Drop, W: JobMachine + Drop> Core<S, W> {
    /// Whether a server would grow by what a move tells it.
    #[inline(never)]
    fn would_grow(&self, m: &Move, ask: &Ask) -> bool
        requires fit { is_fit_event (world self.now.kernel) (event_of (world self.now.kernel) ask.now m.now) ≡ true }
        ensures grows { result ≡ true → some_grow (world self.now.kernel) (event_of (world self.now.kernel) ask.now m.now) self.now.services.list ≡ true }
        ensures still { result ≡ false → IsStill (world self.now.kernel) (event_of (world self.now.kernel) ask.now m.now) self.now.services.list }
    {
        match foretell(&self.kernel, m, ask) {
            Some(told) => self.services.some_told(&told),
            None => false,
        }
    }

    /// Makes room for what a move may tell servers, and says whether it lacks where it is wanted.
    pub(crate) fn lacks_room(&mut self, m: &Move, ask: &Ask) -> bool
        requires fit { is_fit_event (world self.old.kernel) (event_of (world self.old.kernel) ask.now m.now) ≡ true }
        ensures grows { result ≡ true → some_grow (world self.old.kernel) (event_of (world self.old.kernel) ask.now m.now) self.old.services.list ≡ true }
        ensures still { result ≡ false → self.new.services.ready ≡ false
            → IsStill (world self.old.kernel) (event_of (world self.old.kernel) ask.now m.now) self.old.services.list }
        ensures kernel { self.new.kernel ≡ self.old.kernel }
        ensures services { self.new.services.list ≡ self.old.services.list }
        ensures queue { self.new.jobs ≡ self.old.jobs }
        ensures events { self.new.events ≡ self.old.events }
        ensures budget { self.new.budget ≡ self.old.budget }
    {
        match self.services.reserve() {
            Ok(()) => false,
            Err(_) => self.would_grow(m, ask),
        }
    }

    /// Whether a server would grow by what the call tells it that a job asks for.
    #[inline(never)]
    fn call_would_grow(&self, m: &Move, stage: &Stage) -> bool
        requires fit { is_fit_event (world self.now.kernel) (event_of (world self.now.kernel) (asks.Call stage.now self.now.given) m.now) ≡ true }
        ensures grows { result ≡ true
            → some_grow (world self.now.kernel) (event_of (world self.now.kernel) (asks.Call stage.now self.now.given) m.now) self.now.services.list ≡ true }
        ensures still { result ≡ false
            → IsStill (world self.now.kernel) (event_of (world self.now.kernel) (asks.Call stage.now self.now.given) m.now) self.now.services.list }
    {
        let ask = Ask::Call {
            stage: *stage,
            words: *self.given.words(),
        };
        self.would_grow(m, &ask)
    }

    /// Whether the call is ready that a job asks for.
    #[inline(never)]
    pub(crate) fn is_call_ready(&self, m: &Move, stage: &Stage) -> bool
        ensures { IsTrue result ↔ IsReadyEvent (world self.now.kernel) (event_of (world self.now.kernel) (asks.Call stage.now self.now.given) m.now) }
    {
        let ask = Ask::Call {
            stage: *stage,
            words: *self.given.words(),
        };
        self.kernel.ready(m, &ask)
    }

    /// Makes room for what a job's call may tell servers, and says whether it lacks where it is wanted.
    fn lacks_room_for_call(&mut self, m: &Move, stage: &Stage) -> bool
        requires fit { is_fit_event (world self.old.kernel) (event_of (world self.old.kernel) (asks.Call stage.now self.old.given) m.now) ≡ true }
        ensures grows { result ≡ true
            → some_grow (world self.old.kernel) (event_of (world self.old.kernel) (asks.Call stage.now self.old.given) m.now) self.old.services.list ≡ true }
        ensures still { result ≡ false → self.new.services.ready ≡ false
            → IsStill (world self.old.kernel) (event_of (world self.old.kernel) (asks.Call stage.now self.old.given) m.now) self.old.services.list }
        ensures kernel { self.new.kernel ≡ self.old.kernel }
        ensures services { self.new.services.list ≡ self.old.services.list }
        ensures queue { self.new.jobs ≡ self.old.jobs }
        ensures events { self.new.events ≡ self.old.events }
        ensures budget { self.new.budget ≡ self.old.budget }
        ensures given { self.new.given ≡ self.old.given }
    {
        match self.services.reserve() {
            Ok(()) => false,
            Err(_) => self.call_would_grow(m, stage),
        }
    }

    /// Makes room for the answer to a job's call, and for what the call may tell servers, and says whether it lacks where it is wanted.
    pub(crate) fn lacks_for_call(&mut self, m: &Move, stage: &Stage) -> bool
        requires fit { is_fit_event (world self.old.kernel) (event_of (world self.old.kernel) (asks.Call stage.now self.old.given) m.now) ≡ true }
        ensures lacks { result ≡ true → may_lack_call self.old.jobs (run_core self.old) m.now (Some (asks.Call stage.now self.old.given)) ≡ true }
        ensures ready { result ≡ false → self.new.jobs.ready ≡ true }
        ensures still { result ≡ false → self.new.services.ready ≡ false
            → IsStill (world self.old.kernel) (event_of (world self.old.kernel) (asks.Call stage.now self.old.given) m.now) self.old.services.list }
        ensures kernel { self.new.kernel ≡ self.old.kernel }
        ensures services { self.new.services.list ≡ self.old.services.list }
        ensures jobs { self.new.jobs.jobs ≡ self.old.jobs.jobs }
        ensures ends { self.new.jobs.ends ≡ self.old.jobs.ends }
        ensures work { self.new.jobs.work ≡ self.old.jobs.work }
        ensures events { self.new.events ≡ self.old.events }
        ensures budget { self.new.budget ≡ self.old.budget }
        ensures given { self.new.given ≡ self.old.given }
    {
        match self.jobs.reserve() {
            Ok(()) => self.lacks_room_for_call(m, stage),
            Err(_) => true,
        }
    }
}
