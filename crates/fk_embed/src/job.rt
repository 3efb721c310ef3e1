//! A job in a host: a checkpoint or a restore, call by call.
ghost use Rattle.std.specs.Prelude.{◌≡◌, OnErr, OnOk, Some, false, is_some, map, take, ℕ};
ghost use Rattle.fk_embed.specs.Jobs.{GoesOn};
ghost use Rattle.fk_jobs.specs.Ended.{finish_of};
ghost use Rattle.fk_jobs.specs.Jobs.{call_at};
ghost use Rattle.fk_jobs.specs.Porters.{has_room, state_of};
ghost use Rattle.fk_model.specs.Places.{Path};
ghost use Rattle.fk_model.specs.declared.moves.Ask.TheVariants as asks;
ghost use Rattle.fk_served.specs.Kernels.{world_of as world};
ghost use Rattle.fk_served.specs.Served.{AllFit};
ghost use Rattle.fk_store.specs.Store.Moves.{said_by};
ghost use Rattle.laws_checkpoint.specs.Checkpoint.State.{Holds};
ghost use Rattle.laws_house.specs.Houses.State.{Checking, Restoring};
ghost use Rattle.laws_house.specs.Houses.{machine};
ghost use Rattle.laws_jobs.specs.Machines.Head.{Stops};
ghost use Rattle.laws_jobs.specs.Machines.{reply_of};
ghost use Rattle.laws_restore.specs.Restore.Restore.State.{Makes};
ghost use Rattle.laws_restore.specs.Rooms.Restoring.{IsRestoreJob};

use fk_finish::ValidImage;
use fk_host::Host;
use fk_jobs::{Finish, JobMachine, Porter};
use fk_model::limits::LAST_PORTER_SLOT;
use fk_model::{Answer, Ask, List, Move, Said, Stage, Who};
use fk_natives::Service;
use fk_responders::Table;
use std::alloc::Global;

/// Why a job has stopped before its end. What it has done so far stands, its hold too.
#[derive(Clone, Copy)]
pub enum Stop {
    /// Its next call can't be made now: a space outside its subtree is held, or its nester has no porter.
    Waits,
    /// There is no memory for its next call.
    NoMemory,
    /// It has made as many calls as it was allowed.
    Allowed,
}

/// A checkpoint or a restore by the porter of a nester in a host.
#[derive(Drop)]
pub struct HostJob {
    nester: u32,
    porter: Porter,
}

/// What a porter hears of a move of its own.
fn answer_of(said: Said) -> Answer
    ensures { (path : ℕ → Path) → reply_of (said_by path said) ≡ record { status = result.status; words = take result.len result.words } }
{
    match said {
        Said::Answer(answer) => answer,
        _ => Answer {
            status: 0,
            words: [0; 64],
            len: 0,
        },
    }
}

impl HostJob {
    /// A checkpoint that is about to begin, of the subtree in a slot of the nester with this birth number.
    pub fn save(alloc: Global, nester: u32, slot: u8) -> HostJob
        ensures nester { result.nester ≡ nester }
        ensures state { state_of result.porter ≡ Checking slot Holds }
    {
        HostJob {
            nester,
            porter: Porter::checkpoint(alloc, slot),
        }
    }

    /// A restore that is about to begin, of an image in a slot of the nester with this birth number. Pairs bind outward slots of the image to slots of the
    /// nester.
    pub fn restore(nester: u32, slot: u8, image: ValidImage, pairs: List<(u8, u8)>) -> HostJob
        requires { IsRestoreJob slot image pairs }
        ensures nester { result.nester ≡ nester }
        ensures state { state_of result.porter ≡ Restoring slot pairs image Makes }
    {
        HostJob {
            nester,
            porter: Porter::restore(slot, image, pairs),
        }
    }

    /// Makes a call of its porter's, where that is ready, and hears the answer.
    fn call<S: Service + Drop>(
        &mut self,
        host: &mut Host<S>,
        table: &Table,
        stage: Stage,
        words: [u64; 64],
    ) -> Result<(), Stop>
        requires asked { call_at (machine.head (state_of self.old.porter)) ≡ Some (asks.Call stage words) }
        requires room { has_room self.old.porter }
        requires fits { AllFit (map (λ r. r.rule) table.now.list.items) host.old.services.list }
        ensures goes { GoesOn self.old.nester (world host.old.kernel) (state_of self.old.porter) (world host.new.kernel) (state_of self.new.porter) }
        ensures stops { OnErr result (host.new.kernel ≡ host.old.kernel) }
        ensures fits { AllFit (map (λ r. r.rule) table.now.list.items) host.new.services.list }
        ensures nester { self.new.nester ≡ self.old.nester }
    {
        let m = Move {
            who: Who {
                space: self.nester,
                slot: LAST_PORTER_SLOT as u8,
            },
            pick: None,
        };
        let ask = Ask::Call { stage, words };
        let kernel = host.kernel();
        kernel.is_runnable();
        if !kernel.is_fit(&m, &ask) {
            return Err(Stop::Waits);
        }
        if !host.ready(&m, &ask) {
            return Err(Stop::Waits);
        }
        match host.turn(table, &m, &ask) {
            Ok(said) => {
                host.kernel().is_runnable();
                self.porter.absorb(&answer_of(said));
                Ok(())
            }
            Err(_) => Err(Stop::NoMemory),
        }
    }

    /// Makes its next call, where it has one that is ready.
    ///
    /// # Errors
    ///
    /// `Waits`: that call isn't ready. `NoMemory`: there is none for it. The kernel is as before then.
    pub fn step<S: Service + Drop>(&mut self, host: &mut Host<S>, table: &Table) -> Result<(), Stop>
        requires fits { AllFit (map (λ r. r.rule) table.now.list.items) host.old.services.list }
        ensures goes { GoesOn self.old.nester (world host.old.kernel) (state_of self.old.porter) (world host.new.kernel) (state_of self.new.porter) }
        ensures stops { OnErr result (host.new.kernel ≡ host.old.kernel) }
        ensures fits { AllFit (map (λ r. r.rule) table.now.list.items) host.new.services.list }
        ensures nester { self.new.nester ≡ self.old.nester }
    {
        let mut words = [0; 64];
        let Some(stage) = self.porter.next(&mut words) else {
            return Ok(());
        };
        if self.porter.reserve().is_err() {
            return Err(Stop::NoMemory);
        }
        self.call(host, table, stage, words)
    }

    /// Makes calls, up to so many, until it has ended.
    ///
    /// # Errors
    ///
    /// `Waits`: its next call isn't ready. `NoMemory`: there is none for it. `Allowed`: it has made so many. It can go on later, from where it is.
    pub fn go<S: Service + Drop>(
        &mut self,
        host: &mut Host<S>,
        table: &Table,
        most: u64,
    ) -> Result<(), Stop>
        requires fits { AllFit (map (λ r. r.rule) table.now.list.items) host.old.services.list }
        ensures goes { GoesOn self.old.nester (world host.old.kernel) (state_of self.old.porter) (world host.new.kernel) (state_of self.new.porter) }
        ensures ended { OnOk result (is_some (call_at (machine.head (state_of self.new.porter))) ≡ false) }
        ensures fits { AllFit (map (λ r. r.rule) table.now.list.items) host.new.services.list }
        ensures nester { self.new.nester ≡ self.old.nester }
    {
        for _ in 0..most {
            if !self.porter.is_at_call() {
                return Ok(());
            }
            self.step(host, table)?;
        }
        if self.porter.is_at_call() {
            Err(Stop::Allowed)
        } else {
            Ok(())
        }
    }

    /// Whether it has a call to make.
    pub fn is_at_call(&self) -> bool
        ensures { result ≡ is_some (call_at (machine.head (state_of self.now.porter))) }
    {
        self.porter.is_at_call()
    }

    /// How it has ended.
    pub fn finish(self) -> Finish
        requires { is_some (call_at (machine.head (state_of self.porter))) ≡ false }
        ensures { machine.head (state_of self.porter) ≡ Stops (finish_of result) }
    {
        let Some(finish) = self.porter.finish() else {
            unreachable!()
        };
        finish
    }
}
