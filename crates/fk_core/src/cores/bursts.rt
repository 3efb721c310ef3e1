//! Several instructions of a thread, made at once.
ghost use Rattle.std.specs.Prelude.{◌≡◌, ◌+◌, ◌≤◌, ◌<◌, Bool, None, replicate, true};
ghost use Rattle.std.specs.Bool.{OnTrue, OnFalse};
ghost use Rattle.std.specs.Fn.{FnOnceReturnsAtMut, FnOnceTakesAtMut};
ghost use Rattle.laws_runs.specs.Cores.{IsRun, Settles};
ghost use Rattle.fk_core.specs.Rounds.Kernels.{Kept};
ghost use Rattle.fk_core.specs.Cores.Bursts.{MakesMoves};
ghost use Rattle.fk_core.specs.Cores.Cores.{core_at, house, run_core};
ghost use Rattle.fk_core.specs.Cores.Goings.{HasCome, IsReachable};

use crate::cores::turns::Core;
use fk_jobs::JobMachine;
use fk_model::Who;
use fk_natives::Service;
use fk_served::Kernel;

/// What a function makes of a kernel that makes so many instructions of a thread at once, or leaves it as it is.
fn let_make<F: FnOnce(&mut Kernel) -> bool>(
    kernel: &mut Kernel,
    thread: Who,
    count: u64,
    f: F,
) -> bool
    requires may { (k : Kept) → FnOnceTakesAtMut F.FnOnce f k }
    requires makes { (k n : Kept) (made : Bool) → FnOnceReturnsAtMut F.FnOnce f k made n → MakesMoves thread count k made n }
    ensures answer { FnOnceReturnsAtMut F.FnOnce f kernel.old result kernel.new }
    ensures makes { MakesMoves thread count kernel.old result kernel.new }
{
    f(kernel)
}

impl<S: Service + Drop, W: JobMachine + Drop> Core<S, W> {
    /// So many moves of a thread, which no server hears, were made in the kernel: they count, and the jobs end that are due and can't begin.
    fn went(&mut self, thread: Who, count: u64)
        requires few { self.old.events + count ≤ self.old.budget }
        requires some { 0 < count }
        ensures settles { Settles (house self.old.jobs.jobs)
            (core_at self.old.kernel self.old.services.list self.old.jobs (self.old.events + count)) (run_core self.new) }
        ensures kernel { self.new.kernel ≡ self.old.kernel }
        ensures services { self.new.services.list ≡ self.old.services.list }
        ensures budget { self.new.budget ≡ self.old.budget }
        ensures jobs { self.new.jobs.jobs ≡ self.old.jobs.jobs }
        ensures events { self.new.events ≡ self.old.events + count }
    {
        // What a count has room for is known where the budget is read.
        let _budget = self.budget;
        self.events += count;
        self.last = Some(thread);
        self.rounds.hear(None);
        self.settle();
    }

    /// The same of any number of moves. With none there is no turn, and a first core isn't settled.
    pub(crate) fn goes_so(&mut self, thread: Who, count: u64) -> bool
        requires few { self.old.events + count ≤ self.old.budget }
        ensures so { result ≡ true }
        ensures turns { (m : Kept) → HasCome self.old.jobs.jobs self.old.budget (core_at m self.old.services.list self.old.jobs self.old.events)
            → MakesMoves thread count m true self.old.kernel
            → IsRun (house self.old.jobs.jobs) (core_at m self.old.services.list self.old.jobs self.old.events)
            (replicate count (record { who = thread; pick = None })) (run_core self.new) }
        ensures services { self.new.services.list ≡ self.old.services.list }
        ensures budget { self.new.budget ≡ self.old.budget }
        ensures jobs { self.new.jobs.jobs ≡ self.old.jobs.jobs }
        ensures events { self.new.events ≡ self.old.events + count }
    {
        if count > 0 {
            self.went(thread, count);
            true
        } else {
            true
        }
    }

    /// Lets a function make so many ready moves of a thread in running mode, or leave the kernel as it is, and answers what the function
    /// answers. Where it made them the core has come as many turns further. The budget has so many left.
    pub fn burst<F: FnOnce(&mut Kernel) -> bool>(&mut self, thread: Who, count: u64, f: F) -> bool
        requires few { self.old.events + count ≤ self.old.budget }
        requires come { IsReachable self.old }
        requires may { (k : Kept) → FnOnceTakesAtMut F.FnOnce f k }
        requires makes { (k n : Kept) (made : Bool) → FnOnceReturnsAtMut F.FnOnce f k made n → MakesMoves thread count k made n }
        ensures answer { (n : Kept) × FnOnceReturnsAtMut F.FnOnce f self.old.kernel result n }
        ensures turns { OnTrue result (IsRun (house self.old.jobs.jobs) (run_core self.old)
            (replicate count (record { who = thread; pick = None })) (run_core self.new)) }
        ensures same { OnFalse result (run_core self.new ≡ run_core self.old) }
        ensures budget { self.new.budget ≡ self.old.budget }
        ensures jobs { self.new.jobs.jobs ≡ self.old.jobs.jobs }
        ensures come { IsReachable self.new }
        ensures events { OnTrue result (self.new.events ≡ self.old.events + count) }
    {
        if let_make(&mut self.kernel, thread, count, f) {
            self.goes_so(thread, count)
        } else {
            false
        }
    }
}
