//! Stages of users that tell native servers something, which is read where it stands.
ghost use Rattle.std.specs.Prelude.{◌≡◌, ◌≤◌, ◌<◌, ◌+◌, Some, None, false, true, map, take, drop};
ghost use Rattle.std.specs.Bool.{OnTrue, OnFalse};
ghost use Rattle.fk_model.specs.declared.moves.Said.TheVariants as says;
ghost use Rattle.fk_model.specs.Reach.{words_at};
ghost use Rattle.fk_plans.specs.Plans.Verdicts.{AreWords};
ghost use Rattle.fk_core.specs.Rounds.Kernels.{path_of, store_of, world_of};
ghost use Rattle.fk_core.specs.Rounds.Served.{told, AllFit};
ghost use Rattle.fk_core.specs.Rounds.Speaking.{said_of, HasSpokenWords};
ghost use Rattle.fk_core.specs.Cores.Cores.{run_core, is_porter, IsAdvanced};

use crate::cores::turns::Core;
use fk_jobs::JobMachine;
use fk_model::{Peer, Thread, Who, call};
use fk_natives::Service;
use fk_plans::Words;
use fk_responders::Table;
use fk_served::{Kernel, Services, Spoken};

/// A call begins with a Send or an Over of a client.
fn speaks(code: u64) -> bool {
    matches!(
        code,
        call::CLIENT_SEND
            | call::CLIENT_SEND_OVER_RECEIVE
            | call::CLIENT_OVER
            | call::CLIENT_OVER_RECEIVE
    )
}

/// A thread is in a talk with a native server.
fn is_served(thread: &Thread) -> bool {
    match thread.talk {
        Some(talk) => matches!(talk.peer, Peer::Service),
        None => false,
    }
}

/// So many words of a page from a place on.
#[inline(always)]
fn part(page: &[u64; 64], at: u8, count: u8) -> &[u64]
    requires { at + count ≤ 64 }
    ensures { result.now ≡ take count (drop at page.now) }
{
    let at = at as usize;
    let count = count as usize;
    &page[at..at + count]
}

/// The server of their port hears words of a page.
#[inline(always)]
fn hear_page<S: Service + Drop>(
    services: &mut Services<S>,
    kernel: &Kernel,
    table: &Table,
    words: Words,
)
    requires fits { AllFit (map (λ r. r.rule) table.now.list.items) services.old.list }
    requires ready { services.old.ready ≡ true }
    requires there { AreWords (path_of kernel.now) (world_of kernel.now) words }
    ensures { services.new.list ≡ map (told (says.Words words.port
        (drop words.at (words_at (world_of kernel.now) (path_of kernel.now words.space) words.page)) words.count) None) services.old.list }
{
    match kernel.store().page(words.space, words.page) {
        Some(page) => {
            services.hear_slice(table, words.port, part(page, words.at, words.count));
        }
        None => unreachable!(),
    }
}

/// The server hears what a stage of its client tells it; and whose it is.
#[inline(always)]
fn hear_spoken<S: Service + Drop>(
    services: &mut Services<S>,
    kernel: &Kernel,
    table: &Table,
    spoken: Spoken,
) -> Who
    requires fits { AllFit (map (λ r. r.rule) table.now.list.items) services.old.list }
    requires ready { services.old.ready ≡ true }
    requires there { HasSpokenWords (store_of kernel.now) spoken }
    ensures { services.new.list ≡ map (told (said_of (store_of kernel.now) spoken) None) services.old.list }
{
    match spoken {
        Spoken::Words(words) => {
            hear_page(services, kernel, table, words);
            words.port
        }
        Spoken::Over { port } => {
            services.hear_over(table, port);
            port
        }
    }
}

impl<S: Service + Drop, W: JobMachine + Drop> Core<S, W> {
    /// A thread is at such a stage, in a talk with a native server. It is a hint: nothing is said of it.
    fn is_speaking(&self, who: Who) -> bool {
        match self.kernel.store().thread(who) {
            Some(thread) => speaks(thread.regs[0]) && is_served(thread),
            None => false,
        }
    }

    /// Makes the Send or the Over of a user to a native server, where it is at one and that is ready, and answers whether it did; else, and for want of memory,
    /// all is as before. The server reads its words where they stand.
    #[inline(never)]
    pub(crate) fn speak_at(&mut self, table: &Table, who: Who) -> bool
        requires other { is_porter self.old.jobs who ≡ false }
        requires few { self.old.events < self.old.budget }
        requires fits { AllFit (map (λ r. r.rule) table.now.list.items) self.old.services.list }
        ensures made { OnTrue result (IsAdvanced self.old.jobs.jobs self.old.budget (run_core self.old) (Some (record { who = who; pick = None }))
            (run_core self.new)) }
        ensures kernel { OnFalse result (self.new.kernel ≡ self.old.kernel) }
        ensures events { OnFalse result (self.new.events ≡ self.old.events) }
        ensures services { OnFalse result (self.new.services.list ≡ self.old.services.list) }
        ensures queue { OnFalse result (self.new.jobs ≡ self.old.jobs) }
        ensures fits { AllFit (map (λ r. r.rule) table.now.list.items) self.new.services.list }
        ensures budget { self.new.budget ≡ self.old.budget }
        ensures jobs { self.new.jobs.jobs ≡ self.old.jobs.jobs }
    {
        let Ok(()) = self.services.reserve() else {
            return false;
        };
        let Some(spoken) = self.kernel.speak(who) else {
            return false;
        };
        let port = hear_spoken(&mut self.services, &self.kernel, table, spoken);
        self.events += 1;
        self.last = Some(who);
        self.rounds.hear(Some(port));
        self.settle();
        true
    }

    /// The same of a thread that is seen to be at such a stage.
    pub(crate) fn speaks_at(&mut self, table: &Table, who: Who) -> bool
        requires other { is_porter self.old.jobs who ≡ false }
        requires few { self.old.events < self.old.budget }
        requires fits { AllFit (map (λ r. r.rule) table.now.list.items) self.old.services.list }
        ensures made { OnTrue result (IsAdvanced self.old.jobs.jobs self.old.budget (run_core self.old) (Some (record { who = who; pick = None }))
            (run_core self.new)) }
        ensures kernel { OnFalse result (self.new.kernel ≡ self.old.kernel) }
        ensures events { OnFalse result (self.new.events ≡ self.old.events) }
        ensures services { OnFalse result (self.new.services.list ≡ self.old.services.list) }
        ensures queue { OnFalse result (self.new.jobs ≡ self.old.jobs) }
        ensures fits { AllFit (map (λ r. r.rule) table.now.list.items) self.new.services.list }
        ensures budget { self.new.budget ≡ self.old.budget }
        ensures jobs { self.new.jobs.jobs ≡ self.old.jobs.jobs }
    {
        if self.services.len() == 0 {
            return false;
        }
        if !self.is_speaking(who) {
            return false;
        }
        self.speak_at(table, who)
    }
}
