//! What is seen of a core, and who moves next.
ghost use Rattle.std.specs.Prelude.{◌≡◌, ◌↔◌, ◌<◌, true, IsTrue, IfSome, IfNone, IsSome};
ghost use Rattle.laws_runs.specs.Cores as runs;
ghost use Rattle.laws_runs.specs.Cores.{EndsNow};
ghost use Rattle.laws_moves.specs.Whole.Runnable.{has_all_words};
ghost use Rattle.fk_jobs.specs.Ended.{unmoved_of};
ghost use Rattle.fk_jobs.specs.Jobs.{current};
ghost use Rattle.fk_core.specs.Rounds.Moments.{seen, AreUsersIdle};
ghost use Rattle.fk_core.specs.Rounds.Served.{asked};
ghost use Rattle.fk_core.specs.Cores.Cores.{house, run_core, porter_of, is_porter, has_come, IsReadyMove, IsAnyMove, IsChoice, IsDue, IsOver};
ghost use Rattle.fk_core.specs.Cores.Ends.{IsEnded};
ghost use Rattle.fk_core.specs.Rounds.Kernels.{world_of as world};

use crate::cores::turns::Core;
use crate::moment::Moment;
use fk_jobs::{JobMachine, Unmoved};
use fk_model::{Ask, Move, Who};
use fk_natives::Service;
use fk_report::End;

impl<S: Service + Drop, W: JobMachine + Drop> Core<S, W> {
    /// What there is to look at.
    pub(crate) fn moment(&self) -> Moment<'_, S, W>
        ensures seen { seen result ≡ run_core self.now }
        ensures jobs { result.jobs.now ≡ self.now.jobs }
        ensures budget { result.budget ≡ self.now.budget }
        ensures events { result.events ≡ self.now.events }
    {
        Moment::of(
            &self.kernel,
            &self.services,
            &self.jobs,
            self.budget,
            self.events,
            self.last,
        )
    }

    /// The porter of the job whose turn it is.
    pub(crate) fn porter(&self) -> Option<Who>
        ensures { result ≡ porter_of (current self.now.jobs) }
    {
        self.moment().porter()
    }

    /// Whether a name is its.
    pub(crate) fn is_porter(&self, who: Who) -> bool
        ensures { result ≡ is_porter self.now.jobs who }
    {
        self.moment().is_porter(who)
    }

    /// Whether its move goes first: the number of moves is even, the budget has one more, and its time has come.
    pub(crate) fn has_come(&self) -> bool
        ensures { result ≡ has_come self.now.jobs self.now.budget self.now.events }
    {
        self.moment().has_come()
    }

    /// Whether the job whose turn it is is due: it has made a move, or its time has come, or nobody else can move.
    pub(crate) fn is_due(&self) -> bool
        ensures { IsTrue result ↔ IsDue self.now.jobs.jobs (run_core self.now) }
    {
        self.moment().is_due()
    }

    /// Why it ends without a move, if it does.
    pub(crate) fn can_end(&self) -> Option<Unmoved>
        ensures some { IfSome result (λ why. EndsNow (house self.now.jobs.jobs) (run_core self.now) (unmoved_of why)) }
        ensures none { IfNone result ((why : runs.Unmoved) → EndsNow (house self.now.jobs.jobs) (run_core self.now) why → ⊥) }
    {
        self.moment().can_end()
    }

    /// What a mover asks for that is no job's porter.
    pub(crate) fn ask(&self, who: Who) -> Option<Ask>
        ensures asked { result ≡ asked self.now.services.list (world self.now.kernel) who }
        ensures words { IfSome result (λ ask. has_all_words ask ≡ true) }
    {
        self.moment().ask(who)
    }

    /// Whether a move is ready: what its mover asks for is, and a job's is due.
    pub fn ready(&self, m: &Move) -> bool
        ensures { IsTrue result ↔ IsReadyMove self.now.jobs.jobs (run_core self.now) m.now }
    {
        self.moment().ready(m)
    }

    /// Whether a move is left: one is ready, whatever the budget.
    pub fn has_move(&self) -> bool
        ensures { IsTrue result ↔ IsAnyMove self.now.jobs.jobs (run_core self.now) }
    {
        self.moment().has_move()
    }

    /// How the run has ended: with the budget used while a move is ready, or with none ready, and then whether every user
    /// thread has halted. It hasn't while a move is ready and the budget has one more.
    pub fn ended(&self) -> Option<End>
        ensures { IsEnded self.now.jobs.jobs self.now.budget (run_core self.now) result }
    {
        self.moment().ended()
    }

    // ---- who moves next

    /// The thread that moved last, but where the look goes round and where the budget is used.
    pub(crate) fn same_thread(&self) -> Option<Who>
        ensures { IsSome result → self.now.events < self.now.budget }
    {
        self.rounds.same_thread(&self.moment())
    }

    /// The thread that moved last, if one has. It is a hint: nothing is said of it.
    pub fn last_thread(&self) -> Option<Who> {
        self.last
    }

    /// The first thread of those that may be ready, or the one behind another. It is a hint: nothing is said of it.
    pub fn next_thread(&self, after: Option<Who>) -> Option<Who> {
        match after {
            Some(who) => self.kernel.waits().behind(who),
            None => self.kernel.waits().next(),
        }
    }

    /// Whether there is no server, and no thread that may be ready. It is a hint: nothing is said of it.
    #[inline(always)]
    pub(crate) fn is_quiet(&self) -> bool {
        self.services.len() == 0 && self.kernel.waits().next().is_none()
    }

    /// A legal choice of the next move, for who takes turns by hand: a move that is ready. There is none exactly where none is ready or the budget is used.
    ///
    /// At an even number of moves the job whose turn it is goes first, where it is due and ready. Else the thread that
    /// moved last goes on where it is ready, or else the server that heard of its move answers, but at one move of 64. Then, and where
    /// neither is ready, the look goes round: in every second round of 64 moves one server is looked at first, each in its turn, and then
    /// the thread moves that is first of the ready. It is meant so that nobody who is ready waits for ever behind others; nothing is proved of that.
    pub fn choose(&mut self) -> Option<Move>
        ensures choice { IsChoice self.old.jobs self.old.budget (run_core self.old) result }
        ensures same { (run_core self.new) ≡ (run_core self.old) }
        ensures budget { self.new.budget ≡ self.old.budget }
        ensures jobs { self.new.jobs.jobs ≡ self.old.jobs.jobs }
    {
        match self.job_first() {
            Some(m) => Some(m),
            None => self.choose_other(),
        }
    }

    /// The move of the job whose turn it is, at an even number of moves, where its time has come.
    fn job_first(&self) -> Option<Move>
        ensures ready { IfSome result (λ m. (self.now.events < self.now.budget) × IsReadyMove self.now.jobs.jobs (run_core self.now) m) }
        ensures porter { IfSome result (λ m. is_porter self.now.jobs m.who ≡ true) }
        ensures none { IfNone result (has_come self.now.jobs self.now.budget self.now.events ≡ true
            → (m : _) → is_porter self.now.jobs m.who ≡ true → IsReadyMove self.now.jobs.jobs (run_core self.now) m → ⊥) }
    {
        self.moment().job_first()
    }

    /// A ready move of whoever has moved last, or comes next.
    fn choose_other(&mut self) -> Option<Move>
        ensures ready { IfSome result (λ m. (self.old.events < self.old.budget) × IsReadyMove self.old.jobs.jobs (run_core self.old) m) }
        ensures none { IfNone result (IsOver self.old.jobs.jobs self.old.budget (run_core self.old)) }
        ensures same { run_core self.new ≡ run_core self.old }
        ensures budget { self.new.budget ≡ self.old.budget }
        ensures jobs { self.new.jobs.jobs ≡ self.old.jobs.jobs }
    {
        match self.again() {
            Some(m) => Some(m),
            None => self.choose_next(),
        }
    }

    /// The move of the thread that moved last, where that is ready and picks nobody.
    fn again(&self) -> Option<Move>
        ensures { IfSome result (λ m. (self.now.events < self.now.budget) × IsReadyMove self.now.jobs.jobs (run_core self.now) m) }
    {
        self.rounds.again(&self.moment())
    }

    /// A move that is ready, of whoever comes next. There is none exactly where none is ready or the budget is used.
    pub(crate) fn choose_next(&mut self) -> Option<Move>
        ensures ready { IfSome result (λ m. (self.old.events < self.old.budget) × IsReadyMove self.old.jobs.jobs (run_core self.old) m) }
        ensures none { IfNone result (IsOver self.old.jobs.jobs self.old.budget (run_core self.old)) }
        ensures same { run_core self.new ≡ run_core self.old }
        ensures budget { self.new.budget ≡ self.old.budget }
        ensures jobs { self.new.jobs.jobs ≡ self.old.jobs.jobs }
    {
        match self.choose_act() {
            Some(m) => Some(m),
            None => self.choose_later(),
        }
    }

    /// A ready act of a server that comes before the threads.
    fn choose_act(&mut self) -> Option<Move>
        ensures ready { IfSome result (λ m. (self.old.events < self.old.budget) × IsReadyMove self.old.jobs.jobs (run_core self.old) m) }
        ensures same { run_core self.new ≡ run_core self.old }
        ensures queue { self.new.jobs ≡ self.old.jobs }
        ensures budget { self.new.budget ≡ self.old.budget }
        ensures events { self.new.events ≡ self.old.events }
    {
        let moment = Moment::of(
            &self.kernel,
            &self.services,
            &self.jobs,
            self.budget,
            self.events,
            self.last,
        );
        self.rounds.choose_act(&moment)
    }

    /// A ready move of a thread, or else of a server, or else of the due job.
    fn choose_later(&mut self) -> Option<Move>
        ensures ready { IfSome result (λ m. (self.old.events < self.old.budget) × IsReadyMove self.old.jobs.jobs (run_core self.old) m) }
        ensures none { IfNone result (IsOver self.old.jobs.jobs self.old.budget (run_core self.old)) }
        ensures same { run_core self.new ≡ run_core self.old }
        ensures budget { self.new.budget ≡ self.old.budget }
        ensures jobs { self.new.jobs.jobs ≡ self.old.jobs.jobs }
    {
        if self.events >= self.budget {
            return None;
        }
        match self.next_user() {
            Some(m) => Some(m),
            None => self.choose_besides(),
        }
    }

    /// The move of the first of the ready threads that can move, unless it stands by the name of the porter whose job's turn it is.
    fn next_user(&mut self) -> Option<Move>
        ensures ready { IfSome result (λ m. IsReadyMove self.old.jobs.jobs (run_core self.old) m) }
        ensures none { IfNone result (AreUsersIdle self.old.jobs (world self.old.kernel)) }
        ensures same { run_core self.new ≡ run_core self.old }
        ensures queue { self.new.jobs ≡ self.old.jobs }
        ensures budget { self.new.budget ≡ self.old.budget }
        ensures events { self.new.events ≡ self.old.events }
    {
        let porter = self.porter();
        self.kernel.next_besides(porter)
    }

    /// A ready act of a server, or else the due job's move, where no thread's is ready.
    fn choose_besides(&self) -> Option<Move>
        requires { AreUsersIdle self.now.jobs (world self.now.kernel) }
        ensures ready { IfSome result (λ m. IsReadyMove self.now.jobs.jobs (run_core self.now) m) }
        ensures none { IfNone result (IsAnyMove self.now.jobs.jobs (run_core self.now) → ⊥) }
    {
        self.moment().find_besides()
    }

    /// While the time has come of the job whose turn it is, a ready move of those who go before it: of a server, or of a thread, or of one of some few
    /// servers.
    pub(crate) fn choose_few(&mut self) -> Option<Move>
        ensures ready { IfSome result (λ m. (self.old.events < self.old.budget) × IsReadyMove self.old.jobs.jobs (run_core self.old) m) }
        ensures same { run_core self.new ≡ run_core self.old }
        ensures budget { self.new.budget ≡ self.old.budget }
        ensures jobs { self.new.jobs.jobs ≡ self.old.jobs.jobs }
    {
        if self.events >= self.budget || !self.moment().is_timely() {
            return None;
        }
        match self.choose_act() {
            Some(m) => Some(m),
            None => self.choose_among(),
        }
    }

    /// The same of a thread, or of one of some few servers.
    fn choose_among(&mut self) -> Option<Move>
        ensures ready { IfSome result (λ m. IsReadyMove self.old.jobs.jobs (run_core self.old) m) }
        ensures same { run_core self.new ≡ run_core self.old }
        ensures budget { self.new.budget ≡ self.old.budget }
        ensures jobs { self.new.jobs.jobs ≡ self.old.jobs.jobs }
    {
        match self.next_user() {
            Some(m) => Some(m),
            None => self.few_acts(),
        }
    }

    /// A ready act of one of some few servers.
    fn few_acts(&self) -> Option<Move>
        ensures { IfSome result (λ m. IsReadyMove self.now.jobs.jobs (run_core self.now) m) }
    {
        self.rounds.choose_few(&self.moment())
    }
}
