//! Moves that a core makes by itself, several of one mover at once.
ghost use Rattle.std.specs.Prelude.{◌≡◌, ◌+◌, ◌-◌, ◌%◌, ◌<◌, ◌≤◌, None, IfOk, OnErr, IfSome, IfNone, IsSome, map, replicate};
ghost use Rattle.std.specs.Bool.{OnTrue};
ghost use Rattle.fk_core.specs.Rounds.Served.{AllFit};
ghost use Rattle.fk_core.specs.Cores.Bursts.{mover_of, AreMade, IsAdvancedSo};
ghost use Rattle.fk_core.specs.Cores.Cores.{house, run_core, IsFirstDue, IsLacking, IsOver};
ghost use Rattle.fk_core.specs.Cores.Goings.{IsReachable};
ghost use Rattle.fk_jobs.specs.Jobs.{current};
ghost use Rattle.fk_core.specs.Rounds.Kernels.{world_of as world};
ghost use Rattle.laws_runs.specs.Cores.{IsRun};
ghost use Rattle.laws_turns.specs.Quiet.{LeadRunning};

use crate::cores::turns::Core;
use crate::rounds::ROUND;
use fk_jobs::JobMachine;
use fk_model::{Move, NoMemory, Who};
use fk_natives::Service;
use fk_responders::Table;
use fk_served::Kernel;

/// A call may follow so many instructions, where so many moves may be made at most. Who made none is mostly in a call already.
#[inline(always)]
fn may_follow(made: u64, most: u64) -> bool
    ensures { OnTrue result (made < most) }
{
    if made == 0 {
        return false;
    }
    made < most
}

/// Makes instructions of a thread, at most so many, and enters the call to which they lead where one more may be made, and says how many moves these were.
/// Where it makes none all is as before.
fn run_into(kernel: &mut Kernel, thread: Who, most: u64) -> u64
    ensures ran { LeadRunning (record { who = thread; pick = None }) result (world kernel.old) (world kernel.new) }
    ensures none { result ≡ 0 → kernel.new ≡ kernel.old }
    ensures few { result ≤ most }
{
    let made = kernel.run_on(thread, most);
    if !may_follow(made, most) {
        return made;
    }
    if kernel.enter(thread) {
        return made + 1;
    }
    made
}

impl<S: Service + Drop, W: JobMachine + Drop> Core<S, W> {
    /// So many moves are left until the look goes round or the budget is used.
    fn left(&self) -> u64
        ensures round { self.now.events % 64 + result ≤ 64 }
        ensures budget { result ≤ self.now.budget - self.now.events }
    {
        let round = ROUND - self.events % ROUND;
        round.min(self.budget.saturating_sub(self.events))
    }

    /// Makes instructions of a thread, the last of them maybe one by which it enters a call, at most so many, where the budget has so many left, and says how
    /// many they were. Where it makes none all is as before.
    fn run_on(&mut self, who: Who, most: u64) -> u64
        requires few { self.old.events + most ≤ self.old.budget }
        requires come { IsReachable self.old }
        ensures turns { 0 < result → IsRun (house self.old.jobs.jobs) (run_core self.old)
            (replicate result (record { who = who; pick = None })) (run_core self.new) }
        ensures kernel { result ≡ 0 → self.new.kernel ≡ self.old.kernel }
        ensures queue { result ≡ 0 → self.new.jobs ≡ self.old.jobs }
        ensures services { self.new.services.list ≡ self.old.services.list }
        ensures few { result ≤ most }
        ensures budget { self.new.budget ≡ self.old.budget }
        ensures jobs { self.new.jobs.jobs ≡ self.old.jobs.jobs }
        ensures events { self.new.events ≡ self.old.events + result }
    {
        let made = run_into(&mut self.kernel, who, most);
        if made == 0 {
            return 0;
        }
        self.goes_so(who, made);
        made
    }

    /// Whose instructions are to be made: those of the thread that moved last, or where that waits, of the first of the ready. It is a hint.
    fn runner(&self) -> Option<Who>
        ensures { IsSome result → self.now.events < self.now.budget }
    {
        match self.same_thread() {
            Some(who) => Some(who),
            None => self.front(),
        }
    }

    /// The first of the ready, but where the look goes round, or a server heard of the last move.
    fn front(&self) -> Option<Who>
        ensures { IsSome result → self.now.events < self.now.budget }
    {
        if self.events >= self.budget {
            return None;
        }
        if self.is_turning() {
            return None;
        }
        self.kernel.waits().next()
    }

    /// The look goes round, or a server heard of the last move. It is a hint: nothing is said of it.
    fn is_turning(&self) -> bool {
        self.events % ROUND == 0 || self.rounds.may_serve(&self.moment())
    }

    /// Makes instructions of the thread that moved last, or of the first of the ready where that waits, at most so many and none past the end of the round,
    /// where no job is left, and gives whose they are and how many. Where it makes none all is as before.
    fn proceed_by(&mut self, most: u64) -> Option<(Move, u64)>
        requires come { IsReachable self.old }
        ensures made { IfSome result (λ made. AreMade self.old.jobs.jobs self.old.budget most (run_core self.old) made.0 made.1 (run_core self.new)) }
        ensures none { IsSome result → current self.old.jobs ≡ None }
        ensures kernel { IfNone result (self.new.kernel ≡ self.old.kernel) }
        ensures queue { IfNone result (self.new.jobs ≡ self.old.jobs) }
        ensures events { IfNone result (self.new.events ≡ self.old.events) }
        ensures services { self.new.services.list ≡ self.old.services.list }
        ensures budget { self.new.budget ≡ self.old.budget }
        ensures jobs { self.new.jobs.jobs ≡ self.old.jobs.jobs }
    {
        if self.rounds.is_lone() {
            return None;
        }
        if self.jobs.current().is_some() {
            return None;
        }
        let who = self.runner()?;
        let most = most.min(self.left());
        let made = self.run_on(who, most);
        self.rounds.lone_if(made < most);
        if made == 0 {
            return None;
        }
        Some((Move { who, pick: None }, made))
    }

    /// Makes one move, or none, as `advance` does.
    fn advance_one(&mut self, table: &Table, most: u64) -> Result<Option<(Move, u64)>, NoMemory>
        requires some { 0 < most }
        requires fits { AllFit (map (λ r. r.rule) table.now.list.items) self.old.services.list }
        requires come { IsReachable self.old }
        ensures advanced { IfOk result (λ made. IsAdvancedSo self.old.jobs.jobs self.old.budget most (run_core self.old) made (run_core self.new)) }
        ensures none { IfOk result (λ made. IfNone made (IsOver self.old.jobs.jobs self.old.budget (run_core self.old))) }
        ensures first { IfOk result (λ made. IsFirstDue self.old.jobs self.old.budget (run_core self.old) (mover_of made)) }
        ensures lacking { OnErr result (run_core self.new ≡ run_core self.old) }
        ensures lacks { OnErr result (IsLacking self.old.jobs.jobs self.old.budget (run_core self.old)) }
        ensures fits { AllFit (map (λ r. r.rule) table.now.list.items) self.new.services.list }
        ensures budget { self.new.budget ≡ self.old.budget }
        ensures jobs { self.new.jobs.jobs ≡ self.old.jobs.jobs }
        ensures come { IsReachable self.new }
    {
        match self.advance(table)? {
            Some(m) => Ok(Some((m, 1))),
            None => Ok(None),
        }
    }

    /// Makes moves of one mover that are ready, at least one, at most so many and none past the end of the round of 64, and gives whose and how many: what
    /// `advance` makes, or instructions of the thread that moved last. There is none exactly where none is ready or the budget is used, and then, and for
    /// want of memory, all is as before. Memory lacks only where a ready move may want it.
    ///
    /// # Errors
    ///
    /// There is no memory for what a ready move may want: an object, a page, a server that grows, a job that grows by its answer. All is as before then.
    pub fn advance_by(&mut self, table: &Table, most: u64) -> Result<Option<(Move, u64)>, NoMemory>
        requires some { 0 < most }
        requires fits { AllFit (map (λ r. r.rule) table.now.list.items) self.old.services.list }
        requires come { IsReachable self.old }
        ensures advanced { IfOk result (λ made. IsAdvancedSo self.old.jobs.jobs self.old.budget most (run_core self.old) made (run_core self.new)) }
        ensures none { IfOk result (λ made. IfNone made (IsOver self.old.jobs.jobs self.old.budget (run_core self.old))) }
        ensures first { IfOk result (λ made. IsFirstDue self.old.jobs self.old.budget (run_core self.old) (mover_of made)) }
        ensures lacking { OnErr result (run_core self.new ≡ run_core self.old) }
        ensures lacks { OnErr result (IsLacking self.old.jobs.jobs self.old.budget (run_core self.old)) }
        ensures fits { AllFit (map (λ r. r.rule) table.now.list.items) self.new.services.list }
        ensures budget { self.new.budget ≡ self.old.budget }
        ensures jobs { self.new.jobs.jobs ≡ self.old.jobs.jobs }
        ensures come { IsReachable self.new }
    {
        if let Some(made) = self.proceed_by(most) {
            return Ok(Some(made));
        }
        self.advance_one(table, most)
    }
}
