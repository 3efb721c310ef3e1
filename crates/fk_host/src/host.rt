//! One kernel with its native servers.
ghost use Rattle.std.specs.Prelude.{◌≡◌, ◌↔◌, ◌≤◌, true, None, IsTrue, IfNone, IfOk, IfSome, OnErr, map};
ghost use Rattle.std.specs.Bool.{OnFalse, OnTrue};
ghost use Rattle.fk_host.specs.Hosts.{AreQuietTurns, IsFitWith, IsReadyWith, IsTurn, asked_with};
ghost use Rattle.fk_model.specs.declared.moves.Ask.TheVariants as asks;
ghost use Rattle.fk_model.specs.declared.moves.Move as moves;
ghost use Rattle.fk_model.specs.declared.moves.Said.TheVariants as says;
ghost use Rattle.fk_served.specs.Acts.{IsReadyAsked};
ghost use Rattle.fk_served.specs.Events.{IsAnyReady};
ghost use Rattle.fk_served.specs.Kernels.{world_of as world};
ghost use Rattle.fk_served.specs.Rooms.{IsRoom};
ghost use Rattle.fk_served.specs.Served.{AllFit, asked, shown};
ghost use Rattle.laws_moves.specs.Whole.Runnable.{has_all_words};

use fk_model::{Answer, Ask, Move, NoMemory, Said, Stage, Who};
use fk_natives::Service;
use fk_responders::Table;
use fk_served::asking::{asked_by, find_act, is_ready};
use fk_served::{Gone, Kernel, Services, Told};

/// Room for what a porter's call tells: an answer of zeros.
pub fn room() -> Told
    ensures { IsRoom result.said }
{
    Told {
        said: Said::Answer(Answer {
            status: 0,
            words: [0; 64],
            len: 0,
        }),
        ended: None,
    }
}

/// A kernel with its native servers. Who has it says which move is made, and what a porter asks for.
#[derive(Drop)]
pub struct Host<S: Service + Drop> {
    kernel: Kernel,
    services: Services<S>,
}

impl<S: Service + Drop> Host<S> {
    /// A kernel with the server of each of its served ports. `NoMemory` where there is none for what the servers may hear.
    ///
    /// # Errors
    ///
    /// There is no memory for what the servers may hear.
    pub fn new(kernel: Kernel, services: Vec<(Who, S)>) -> Result<Host<S>, NoMemory>
        ensures kernel { IfOk result (λ host. host.kernel ≡ kernel) }
        ensures services { IfOk result (λ host. host.services.list ≡ shown S.meaning services.items) }
    {
        let mut services = Services::of(services);
        services.reserve()?;
        Ok(Host { kernel, services })
    }

    /// The kernel.
    pub fn kernel(&self) -> &Kernel
        ensures { result.now ≡ self.now.kernel }
    {
        &self.kernel
    }

    /// The servers with their ports.
    pub fn services(&self) -> &[(Who, S)]
        ensures { shown S.meaning result.now ≡ self.now.services.list }
    {
        self.services.as_slice()
    }

    /// The servers, as they are asked.
    pub fn served(&self) -> &Services<S>
        ensures { result.now ≡ self.now.services }
    {
        &self.services
    }

    /// What a mover asks for: what the server of a port does, or to run. What is given is words.
    pub fn asked(&self, who: Who) -> Option<Ask>
        ensures asked { result ≡ asked self.now.services.list (world self.now.kernel) who }
        ensures words { IfSome result (λ ask. has_all_words ask ≡ true) }
    {
        asked_by(&self.kernel, &self.services, who)
    }

    /// What a mover asks for: the call that is handed in; else what the server of a port does, or to run.
    fn ask(&self, who: Who, ask: &Ask) -> Option<Ask>
        ensures { result ≡ asked_with self.now.services.list (world self.now.kernel) who ask.now }
    {
        match ask {
            Ask::Call { .. } => Some(*ask),
            _ => asked_by(&self.kernel, &self.services, who),
        }
    }

    /// Whether a move is ready. `ask` is what a porter asks for; for everybody else it is `Run`.
    pub fn ready(&self, m: &Move, ask: &Ask) -> bool
        ensures { IsTrue result ↔ IsReadyWith self.now.services.list (world self.now.kernel) m.now ask.now }
    {
        match ask {
            Ask::Call { .. } => self.kernel.ready(m, ask),
            _ => is_ready(&self.kernel, &self.services, m),
        }
    }

    /// Makes a move, which is ready and fit, has each server hear what it tells, and answers what that is. `ask` is what a porter asks for; for
    /// everybody else it is `Run`. `NoMemory` where there is none for an object, a page or what servers hear; all is as before then.
    ///
    /// # Errors
    ///
    /// There is no memory for an object, a page or what servers hear; all is as before then.
    pub fn turn(&mut self, table: &Table, m: &Move, ask: &Ask) -> Result<Said, NoMemory>
        requires ready { IsReadyWith self.old.services.list (world self.old.kernel) m.now ask.now }
        requires fit { IsFitWith self.old.services.list (world self.old.kernel) m.now ask.now }
        requires fits { AllFit (map (λ r. r.rule) table.now.list.items) self.old.services.list }
        ensures turn { IfOk result (λ said. IsTurn self.old.kernel self.old.services.list m.now ask.now said self.new.kernel self.new.services.list) }
        ensures fits { AllFit (map (λ r. r.rule) table.now.list.items) self.new.services.list }
        ensures lacking_kernel { OnErr result (self.new.kernel ≡ self.old.kernel) }
        ensures lacking_services { OnErr result (self.new.services.list ≡ self.old.services.list) }
    {
        self.services.reserve()?;
        let Some(ask) = self.ask(m.who, ask) else {
            unreachable!()
        };
        let Some(told) = self.kernel.attempt(m, &ask)? else {
            unreachable!()
        };
        self.services.hear(table, &told);
        Ok(told.said)
    }

    /// Makes a porter's call, which is fit, where it is ready, has each server hear what it tells, and says whether it did; what it tells is laid into the
    /// room. Else, and for want of memory, all stays as it is. `turn` of a call does the same, by way of words that are copied more often.
    ///
    /// # Errors
    ///
    /// There is no memory for an object, a page or what servers hear; all is as before then.
    pub fn call(
        &mut self,
        table: &Table,
        m: &Move,
        stage: &Stage,
        words: &[u64; 64],
        told: &mut Told,
    ) -> Result<bool, NoMemory>
        requires fit { IsFitWith self.old.services.list (world self.old.kernel) m.now (asks.Call stage.now words.now) }
        requires room { IsRoom told.old.said }
        requires fits { AllFit (map (λ r. r.rule) table.now.list.items) self.old.services.list }
        ensures ready { IfOk result (λ made. OnTrue made (IsReadyWith self.old.services.list (world self.old.kernel) m.now
            (asks.Call stage.now words.now))) }
        ensures turn { IfOk result (λ made. OnTrue made (IsTurn self.old.kernel self.old.services.list m.now (asks.Call stage.now words.now)
            told.new.said self.new.kernel self.new.services.list)) }
        ensures unready { IfOk result (λ made. OnFalse made (IsReadyWith self.old.services.list (world self.old.kernel) m.now
            (asks.Call stage.now words.now) → ⊥)) }
        ensures same_kernel { IfOk result (λ made. OnFalse made (self.new.kernel ≡ self.old.kernel)) }
        ensures same_services { IfOk result (λ made. OnFalse made (self.new.services.list ≡ self.old.services.list)) }
        ensures fits { AllFit (map (λ r. r.rule) table.now.list.items) self.new.services.list }
        ensures lacking_kernel { OnErr result (self.new.kernel ≡ self.old.kernel) }
        ensures lacking_services { OnErr result (self.new.services.list ≡ self.old.services.list) }
    {
        self.services.reserve()?;
        if !self.kernel.call(m, stage, words, told)? {
            return Ok(false);
        }
        self.services.hear(table, told);
        Ok(true)
    }

    /// Makes the next instruction of the user in a slot, or the next stage of its call where that tells nothing, where it is ready; else all stays as it is. No
    /// server hears of it, and it leaves the user where it stands among those that are ready.
    pub fn proceed_on(&mut self, who: Who) -> bool
        ensures ready { OnTrue result (IsReadyAsked self.old.services.list (world self.old.kernel) (record { who = who; pick = None })) }
        ensures turn { OnTrue result (IsTurn self.old.kernel self.old.services.list (record { who = who; pick = None }) asks.Run says.Nothing
            self.new.kernel self.new.services.list) }
        ensures same { OnFalse result (self.new.kernel ≡ self.old.kernel) }
        ensures services { self.new.services.list ≡ self.old.services.list }
    {
        match self.kernel.proceed_on(who) {
            Gone::Made => true,
            Gone::Waits | Gone::Not => false,
        }
    }

    /// Makes instructions of the thread in a slot one after the other, at most so many, and says how many they were: up to one that is a call, would halt, or
    /// needs a page that its space hasn't itself. No server hears of them. Where it makes none, all stays as it is.
    pub fn run_on(&mut self, who: Who, most: u64) -> u64
        ensures turns { AreQuietTurns self.old.services.list (record { who = who; pick = None }) result (world self.old.kernel) (world self.new.kernel) }
        ensures services { self.new.services.list ≡ self.old.services.list }
        ensures few { result ≤ most }
    {
        self.kernel.names();
        self.kernel.run_on(who, most)
    }

    /// A ready move of a user or a server; none exactly where there is none, and then no user is ready wherever it stands.
    pub fn choose(&mut self) -> Option<Move>
        ensures ready { IfSome result (λ m. IsReadyAsked self.old.services.list (world self.old.kernel) m) }
        ensures none { IfNone result ((m : moves.Move) → IsReadyAsked self.old.services.list (world self.old.kernel) m → ⊥) }
        ensures users { IfNone result (IsAnyReady (world self.old.kernel) → ⊥) }
        ensures world { world self.new.kernel ≡ world self.old.kernel }
        ensures services { self.new.services.list ≡ self.old.services.list }
    {
        match self.kernel.next() {
            Some(m) => Some(m),
            None => find_act(&self.kernel, &self.services, None, 0, self.services.len()),
        }
    }
}
