//! The core: a kernel with its native servers and its jobs.
ghost use Rattle.fk_model.specs.declared.moves.Ask.TheVariants as asks;
ghost use Rattle.fk_model.specs.Places.{Path};
ghost use Rattle.fk_model.specs.Sound.{IsSoundStart};
ghost use Rattle.std.specs.Prelude.{◌≡◌, ◌↔◌, List, [], ◌+◌, ◌<◌, Some, None, true, false, IsTrue, OnOk, OnErr, map};
ghost use Rattle.std.specs.Bool.{OnTrue, OnFalse};
ghost use Rattle.fk_core.specs.Rounds.Served.{asked, AllFit, shown};
ghost use Rattle.laws_moves.specs.Whole.Runnable.{has_all_words};
ghost use Rattle.fk_core.specs.Cores.Cores.{run_core, is_porter, reply_to, IsReadyMove, IsAskedMove, IsCalledMove, IsTurned, IsTried, IsAdvanced, is_timely};
ghost use Rattle.fk_core.specs.Cores.Memory.{may_lack, may_lack_asked, may_lack_called};
ghost use Rattle.fk_core.specs.Cores.Cuts.{KeepsCuts, LeavesStrangers};
ghost use Rattle.fk_core.specs.Cores.Goings.{start_at, IsReachable};
ghost use Rattle.fk_core.specs.Cores.Leaves.{LeavesTheRest};
ghost use Rattle.fk_core.specs.Rounds.Kernels.{world_of as world};
ghost use Rattle.fk_jobs.specs.Jobs.{hears};

use crate::cores::given::Given;
use crate::cores::lacking::unmade;
use crate::cores::room::Room;
use crate::rounds::Rounds;
use fk_jobs::{JobMachine, Jobs};
use fk_model::{Answer, Ask, Move, NoMemory, Said, Who};
use fk_natives::Service;
use fk_responders::Table;
use fk_served::asking::is_served;
use fk_served::{Gone, Kernel, Services};

/// A kernel with its native servers and its jobs, and how many moves it has made of how many.
#[derive(Drop)]
pub struct Core<S: Service + Drop, W: JobMachine + Drop> {
    /// What each move writes stands together, and first: where workers take turns it passes from one processor to another.
    pub(crate) events: u64,
    /// The thread that has moved last, after which the next is sought.
    pub(crate) last: Option<Who>,
    pub(crate) budget: u64,
    pub(crate) rounds: Rounds,
    pub(crate) kernel: Kernel,
    pub(crate) services: Services<S>,
    pub(crate) jobs: Jobs<W>,
    /// What a porter is told is laid here, so that no call on the way copies it.
    pub(crate) room: Room,
    /// The words that a job gives with its call are laid here.
    pub(crate) given: Given,
}

/// The thread that has moved last, once this one has or a server.
fn last_thread(ask: &Ask, who: Who, last: Option<Who>) -> Option<Who> {
    match ask {
        Ask::Run => Some(who),
        _ => last,
    }
}

/// The port whose server hears what a move tells.
fn hearer(said: &Said) -> Option<Who> {
    match said {
        Said::Taken { port, .. }
        | Said::Words { port, .. }
        | Said::Given { port, .. }
        | Said::Full { port }
        | Said::Over { port } => Some(*port),
        Said::Nothing | Said::Answer(_) | Said::Ended { .. } => None,
    }
}

/// The jobs hear that a move of theirs told nothing. It stands apart, since it is rare and takes much room.
#[inline(never)]
fn tell_nothing<W: JobMachine + Drop>(jobs: &mut Jobs<W>, events: u64)
    requires { jobs.old.ready ≡ true }
    ensures { jobs.new ≡ hears jobs.old events 0 [] }
{
    jobs.absorb(
        events,
        &Answer {
            status: 0,
            words: [0; 64],
            len: 0,
        },
    );
}

/// The jobs hear what a move of theirs tells.
fn tell_jobs<W: JobMachine + Drop>(jobs: &mut Jobs<W>, events: u64, said: &Said)
    requires { jobs.old.ready ≡ true }
    ensures { jobs.new ≡ hears jobs.old events (reply_to said.now).status (reply_to said.now).words }
{
    match said {
        Said::Answer(answer) => jobs.absorb(events, answer),
        _ => tell_nothing(jobs, events),
    }
}

impl<S: Service + Drop, W: JobMachine + Drop> Core<S, W> {
    /// A kernel with its servers, each by its port, and its jobs, before the first of so many moves. It goes on where these are a sound start.
    pub fn new(kernel: Kernel, services: Vec<(Who, S)>, jobs: Jobs<W>, budget: u64) -> Core<S, W>
        ensures kernel { result.kernel ≡ kernel }
        ensures services { result.services.list ≡ shown S.meaning services.items }
        ensures jobs { result.jobs ≡ jobs }
        ensures budget { result.budget ≡ budget }
        ensures events { result.events ≡ 0 }
        ensures begins { (nesters : List Path) → IsSoundStart (start_at jobs.jobs budget nesters (run_core result)) → jobs.ends ≡ [] → jobs.work ≡ None →
            IsReachable result }
    {
        Core {
            kernel,
            services: Services::of(services),
            jobs,
            budget,
            events: 0,
            last: None,
            rounds: Rounds::new(),
            room: Room::new(),
            given: Given::new(),
        }
    }

    /// The kernel.
    pub fn kernel(&self) -> &Kernel
        ensures { result.now ≡ self.now.kernel }
    {
        &self.kernel
    }

    /// The servers with their ports, in the order of the file.
    pub fn services(&self) -> &[(Who, S)]
        ensures { shown S.meaning result.now ≡ self.now.services.list }
    {
        self.services.as_slice()
    }

    /// The jobs: what is planned of each, and how those have ended that have.
    pub fn jobs(&self) -> &Jobs<W>
        ensures { result.now ≡ self.now.jobs }
    {
        &self.jobs
    }

    /// They are handed out, and the rest is let go.
    pub fn into_jobs(self) -> Jobs<W>
        ensures { result ≡ self.jobs }
    {
        self.jobs
    }

    /// Whether the budget has a move more.
    pub fn is_below_budget(&self) -> bool
        ensures { IsTrue result ↔ (self.now.events < self.now.budget) }
    {
        self.events < self.budget
    }

    /// How many moves may be made.
    pub fn budget(&self) -> u64
        ensures { result ≡ self.now.budget }
    {
        self.budget
    }

    /// How many moves were made.
    pub fn events(&self) -> u64
        ensures { result ≡ self.now.events }
    {
        self.events
    }

    /// Makes a move that is ready, and tells the servers, or the jobs. For want of memory all is as before, and memory lacks only for a move that
    /// may want it. That a run has come here makes it known that what a job asks for is fit.
    ///
    /// # Errors
    ///
    /// There is no memory for what the move may want: an object, a page, a server that grows, a job that grows by its answer. All is as before then.
    pub fn turn(&mut self, table: &Table, m: &Move) -> Result<(), NoMemory>
        requires ready { IsReadyMove self.old.jobs.jobs (run_core self.old) m.now }
        requires few { self.old.events < self.old.budget }
        requires come { IsReachable self.old }
        requires fits { AllFit (map (λ r. r.rule) table.now.list.items) self.old.services.list }
        ensures turned { OnOk result (IsTurned self.old.jobs.jobs (run_core self.old) m.now (run_core self.new)) }
        ensures lacking { OnErr result (run_core self.new ≡ run_core self.old) }
        ensures lacks { OnErr result (may_lack self.old.jobs.jobs (run_core self.old) m.now ≡ true) }
        ensures lacking_kernel { OnErr result (self.new.kernel ≡ self.old.kernel) }
        ensures fits { AllFit (map (λ r. r.rule) table.now.list.items) self.new.services.list }
        ensures budget { self.new.budget ≡ self.old.budget }
        ensures jobs { self.new.jobs.jobs ≡ self.old.jobs.jobs }
        ensures come { IsReachable self.new }
        ensures events { OnOk result (self.new.events ≡ self.old.events + 1) }
        ensures cut { OnOk result (KeepsCuts self.old.jobs.jobs (run_core self.old) m.now (world self.new.kernel)) }
        ensures strangers { OnOk result (LeavesStrangers self.old.jobs.jobs (run_core self.old) m.now (world self.new.kernel)) }
        ensures rest { OnOk result (LeavesTheRest self.old.jobs.jobs (run_core self.old) m.now (run_core self.new)) }
    {
        self.go(table, m)?;
        Ok(())
    }

    /// Makes a move where it is ready, tells the servers, and answers whether it was. Where it wasn't, and for
    /// want of memory, all is as before. Memory lacks only for a ready move that may want it.
    ///
    /// # Errors
    ///
    /// There is no memory for what the move may want: an object, a page, a server that grows, a job that grows by its answer. All is as before then.
    pub fn go(&mut self, table: &Table, m: &Move) -> Result<bool, NoMemory>
        requires few { self.old.events < self.old.budget }
        requires come { IsReachable self.old }
        requires fits { AllFit (map (λ r. r.rule) table.now.list.items) self.old.services.list }
        ensures tried { IsTried (IsReadyMove self.old.jobs.jobs (run_core self.old) m.now)
            (may_lack self.old.jobs.jobs (run_core self.old) m.now ≡ true) self.old.jobs.jobs (run_core self.old) m.now (run_core self.new) result }
        ensures lacking_kernel { OnErr result (self.new.kernel ≡ self.old.kernel) }
        ensures fits { AllFit (map (λ r. r.rule) table.now.list.items) self.new.services.list }
        ensures budget { self.new.budget ≡ self.old.budget }
        ensures jobs { self.new.jobs.jobs ≡ self.old.jobs.jobs }
        ensures come { IsReachable self.new }
    {
        if self.go_plain(m) {
            return Ok(true);
        }
        self.go_told(table, m)
    }

    /// Makes an instruction, or a stage that tells nobody of anything, where that is what a move is and where it is ready, and
    /// answers whether it did; else all is as before. What other moves tell takes much room; this needs none.
    pub(crate) fn go_plain(&mut self, m: &Move) -> bool
        requires few { self.old.events < self.old.budget }
        ensures made { OnTrue result (IsAdvanced self.old.jobs.jobs self.old.budget (run_core self.old) (Some m.now) (run_core self.new)) }
        ensures kernel { OnFalse result (self.new.kernel ≡ self.old.kernel) }
        ensures events { OnFalse result (self.new.events ≡ self.old.events) }
        ensures services { self.new.services.list ≡ self.old.services.list }
        ensures queue { OnFalse result (self.new.jobs ≡ self.old.jobs) }
        ensures budget { self.new.budget ≡ self.old.budget }
        ensures jobs { self.new.jobs.jobs ≡ self.old.jobs.jobs }
    {
        if m.pick.is_some() || self.is_porter(m.who) {
            return false;
        }
        let Gone::Made = self.kernel.proceed(m.who) else {
            return false;
        };
        self.events += 1;
        self.last = Some(m.who);
        self.rounds.hear(None);
        self.settle();
        true
    }

    /// The same of any move.
    pub(crate) fn go_told(&mut self, table: &Table, m: &Move) -> Result<bool, NoMemory>
        requires few { self.old.events < self.old.budget }
        requires come { IsReachable self.old }
        requires fits { AllFit (map (λ r. r.rule) table.now.list.items) self.old.services.list }
        ensures tried { IsTried (IsReadyMove self.old.jobs.jobs (run_core self.old) m.now)
            (may_lack self.old.jobs.jobs (run_core self.old) m.now ≡ true) self.old.jobs.jobs (run_core self.old) m.now (run_core self.new) result }
        ensures lacking_kernel { OnErr result (self.new.kernel ≡ self.old.kernel) }
        ensures fits { AllFit (map (λ r. r.rule) table.now.list.items) self.new.services.list }
        ensures budget { self.new.budget ≡ self.old.budget }
        ensures jobs { self.new.jobs.jobs ≡ self.old.jobs.jobs }
    {
        if self.is_porter(m.who) {
            self.go_job(table, m)
        } else {
            self.go_other(table, m)
        }
    }

    /// The same of a move of a user or a server.
    fn go_other(&mut self, table: &Table, m: &Move) -> Result<bool, NoMemory>
        requires other { is_porter self.old.jobs m.now.who ≡ false }
        requires few { self.old.events < self.old.budget }
        requires fits { AllFit (map (λ r. r.rule) table.now.list.items) self.old.services.list }
        ensures tried { IsTried (IsAskedMove self.old.jobs.jobs (run_core self.old) m.now)
            (may_lack_asked (run_core self.old) m.now ≡ true) self.old.jobs.jobs (run_core self.old) m.now (run_core self.new) result }
        ensures lacking_kernel { OnErr result (self.new.kernel ≡ self.old.kernel) }
        ensures fits { AllFit (map (λ r. r.rule) table.now.list.items) self.new.services.list }
        ensures budget { self.new.budget ≡ self.old.budget }
        ensures jobs { self.new.jobs.jobs ≡ self.old.jobs.jobs }
    {
        if is_served(&self.kernel, m.who) {
            self.go_acting(table, m)
        } else {
            self.go_user(table, m)
        }
    }

    /// The same of a user's.
    fn go_user(&mut self, table: &Table, m: &Move) -> Result<bool, NoMemory>
        requires other { is_porter self.old.jobs m.now.who ≡ false }
        requires few { self.old.events < self.old.budget }
        requires fits { AllFit (map (λ r. r.rule) table.now.list.items) self.old.services.list }
        requires runs { asked self.old.services.list (world self.old.kernel) m.now.who ≡ Some asks.Run }
        ensures tried { IsTried (IsAskedMove self.old.jobs.jobs (run_core self.old) m.now)
            (may_lack_asked (run_core self.old) m.now ≡ true) self.old.jobs.jobs (run_core self.old) m.now (run_core self.new) result }
        ensures lacking_kernel { OnErr result (self.new.kernel ≡ self.old.kernel) }
        ensures fits { AllFit (map (λ r. r.rule) table.now.list.items) self.new.services.list }
        ensures budget { self.new.budget ≡ self.old.budget }
        ensures jobs { self.new.jobs.jobs ≡ self.old.jobs.jobs }
    {
        if m.pick.is_some() {
            return self.go_running(table, m);
        }
        if self.speak_at(table, m.who) {
            return Ok(true);
        }
        self.go_running(table, m)
    }

    /// The same of one that runs. What it asks for takes much room, so it stands apart.
    #[inline(never)]
    fn go_running(&mut self, table: &Table, m: &Move) -> Result<bool, NoMemory>
        requires other { is_porter self.old.jobs m.now.who ≡ false }
        requires few { self.old.events < self.old.budget }
        requires fits { AllFit (map (λ r. r.rule) table.now.list.items) self.old.services.list }
        requires runs { asked self.old.services.list (world self.old.kernel) m.now.who ≡ Some asks.Run }
        ensures tried { IsTried (IsAskedMove self.old.jobs.jobs (run_core self.old) m.now)
            (may_lack_asked (run_core self.old) m.now ≡ true) self.old.jobs.jobs (run_core self.old) m.now (run_core self.new) result }
        ensures lacking_kernel { OnErr result (self.new.kernel ≡ self.old.kernel) }
        ensures fits { AllFit (map (λ r. r.rule) table.now.list.items) self.new.services.list }
        ensures budget { self.new.budget ≡ self.old.budget }
        ensures jobs { self.new.jobs.jobs ≡ self.old.jobs.jobs }
    {
        self.go_by(table, m, &Ask::Run)
    }

    /// The same of what a mover asks for.
    #[inline(never)]
    pub(crate) fn go_asked(&mut self, table: &Table, m: &Move) -> Result<bool, NoMemory>
        requires other { is_porter self.old.jobs m.now.who ≡ false }
        requires few { self.old.events < self.old.budget }
        requires fits { AllFit (map (λ r. r.rule) table.now.list.items) self.old.services.list }
        ensures tried { IsTried (IsAskedMove self.old.jobs.jobs (run_core self.old) m.now)
            (may_lack_asked (run_core self.old) m.now ≡ true) self.old.jobs.jobs (run_core self.old) m.now (run_core self.new) result }
        ensures lacking_kernel { OnErr result (self.new.kernel ≡ self.old.kernel) }
        ensures fits { AllFit (map (λ r. r.rule) table.now.list.items) self.new.services.list }
        ensures budget { self.new.budget ≡ self.old.budget }
        ensures jobs { self.new.jobs.jobs ≡ self.old.jobs.jobs }
    {
        let asked = self.ask(m.who);
        let Some(ask) = &asked else {
            return Ok(false);
        };
        self.go_by(table, m, ask)
    }

    /// The same of this, for which it asks.
    #[inline(never)]
    fn go_by(&mut self, table: &Table, m: &Move, ask: &Ask) -> Result<bool, NoMemory>
        requires other { is_porter self.old.jobs m.now.who ≡ false }
        requires few { self.old.events < self.old.budget }
        requires fits { AllFit (map (λ r. r.rule) table.now.list.items) self.old.services.list }
        requires asked { asked self.old.services.list (world self.old.kernel) m.now.who ≡ Some ask.now }
        requires words { has_all_words ask.now ≡ true }
        ensures tried { IsTried (IsAskedMove self.old.jobs.jobs (run_core self.old) m.now)
            (may_lack_asked (run_core self.old) m.now ≡ true) self.old.jobs.jobs (run_core self.old) m.now (run_core self.new) result }
        ensures lacking_kernel { OnErr result (self.new.kernel ≡ self.old.kernel) }
        ensures fits { AllFit (map (λ r. r.rule) table.now.list.items) self.new.services.list }
        ensures budget { self.new.budget ≡ self.old.budget }
        ensures jobs { self.new.jobs.jobs ≡ self.old.jobs.jobs }
    {
        if self.lacks_room(m, ask) {
            return unmade(self.kernel.ready(m, ask));
        }
        // What is told takes much room, so it stands there once.
        let made = self.kernel.attempt(m, ask);
        let Ok(tried) = &made else {
            return unmade(self.kernel.ready(m, ask));
        };
        let Some(told) = tried else {
            return Ok(false);
        };
        // Where the move has led is known by this.
        self.kernel.names();
        self.services.hear(table, told);
        self.events += 1;
        self.last = last_thread(ask, m.who, self.last);
        self.rounds.hear(hearer(&told.said));
        self.settle();
        Ok(true)
    }

    /// The same of a job's move, where the job is due.
    pub(crate) fn go_job(&mut self, table: &Table, m: &Move) -> Result<bool, NoMemory>
        requires job { is_porter self.old.jobs m.now.who ≡ true }
        requires few { self.old.events < self.old.budget }
        requires come { IsReachable self.old }
        requires fits { AllFit (map (λ r. r.rule) table.now.list.items) self.old.services.list }
        ensures tried { IsTried (IsReadyMove self.old.jobs.jobs (run_core self.old) m.now)
            (may_lack self.old.jobs.jobs (run_core self.old) m.now ≡ true) self.old.jobs.jobs (run_core self.old) m.now (run_core self.new) result }
        ensures lacking_kernel { OnErr result (self.new.kernel ≡ self.old.kernel) }
        ensures fits { AllFit (map (λ r. r.rule) table.now.list.items) self.new.services.list }
        ensures budget { self.new.budget ≡ self.old.budget }
        ensures jobs { self.new.jobs.jobs ≡ self.old.jobs.jobs }
    {
        if self.is_due() {
            self.go_call(table, m)
        } else {
            Ok(false)
        }
    }

    /// The same of a job's move whose time has come.
    #[inline(always)]
    pub(crate) fn go_timely_job(&mut self, table: &Table, m: &Move) -> Result<bool, NoMemory>
        requires job { is_porter self.old.jobs m.now.who ≡ true }
        requires few { self.old.events < self.old.budget }
        requires timely { is_timely self.old.jobs self.old.events ≡ true }
        requires come { IsReachable self.old }
        requires fits { AllFit (map (λ r. r.rule) table.now.list.items) self.old.services.list }
        ensures tried { IsTried (IsReadyMove self.old.jobs.jobs (run_core self.old) m.now)
            (may_lack self.old.jobs.jobs (run_core self.old) m.now ≡ true) self.old.jobs.jobs (run_core self.old) m.now (run_core self.new) result }
        ensures lacking_kernel { OnErr result (self.new.kernel ≡ self.old.kernel) }
        ensures fits { AllFit (map (λ r. r.rule) table.now.list.items) self.new.services.list }
        ensures budget { self.new.budget ≡ self.old.budget }
        ensures jobs { self.new.jobs.jobs ≡ self.old.jobs.jobs }
    {
        self.go_call(table, m)
    }

    /// Makes the call that the job asks for whose turn it is, where it is ready.
    #[inline(never)]
    fn go_call(&mut self, table: &Table, m: &Move) -> Result<bool, NoMemory>
        requires job { is_porter self.old.jobs m.now.who ≡ true }
        requires few { self.old.events < self.old.budget }
        requires come { IsReachable self.old }
        requires fits { AllFit (map (λ r. r.rule) table.now.list.items) self.old.services.list }
        ensures tried { IsTried (IsCalledMove self.old.jobs (run_core self.old) m.now)
            (may_lack_called self.old.jobs (run_core self.old) m.now ≡ true) self.old.jobs.jobs (run_core self.old) m.now (run_core self.new) result }
        ensures lacking_kernel { OnErr result (self.new.kernel ≡ self.old.kernel) }
        ensures fits { AllFit (map (λ r. r.rule) table.now.list.items) self.new.services.list }
        ensures budget { self.new.budget ≡ self.old.budget }
        ensures jobs { self.new.jobs.jobs ≡ self.old.jobs.jobs }
    {
        let next = self.given.next(&self.jobs);
        let Some(stage) = next else {
            return Ok(false);
        };
        if self.lacks_for_call(m, &stage) {
            return unmade(self.is_call_ready(m, &stage));
        }
        let Ok(made) = self.room.call(&mut self.kernel, m, &stage, &self.given) else {
            return unmade(self.is_call_ready(m, &stage));
        };
        if !made {
            return Ok(false);
        }
        // Where the move has led is known by this.
        self.kernel.names();
        let told = self.room.told();
        self.services.hear(table, told);
        tell_jobs(&mut self.jobs, self.events, &told.said);
        self.events += 1;
        self.rounds.hear(hearer(&told.said));
        self.settle();
        Ok(true)
    }
}
