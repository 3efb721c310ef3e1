//! The words that a job gives with a call, used for one call after the other.
ghost use Rattle.std.specs.Prelude.{◌≡◌};
ghost use Rattle.laws_jobs.specs.Machines.{no_words};
ghost use Rattle.fk_jobs.specs.Jobs.{asked_by, call_with, state_of};

use fk_jobs::{JobMachine, Jobs};
use fk_model::Stage;
use std::marker::Model;

/// The words of a job's call. Most calls go with none, so these are cleared only where they were written.
#[derive(Drop)]
pub(crate) struct Given {
    words: [u64; 64],
    blank: bool,
}

impl Model for Given {
    ghost use Rattle.std.specs.Prelude.{ℕ, List};
    ghost use Rattle.fk_core.specs.Cores.Given.{AreBlank};

    ghost Value = { List ℕ };

    ghost view = { λ g. g.words };

    ghost invariant = { λ g. AreBlank g.blank g.words };
}

impl Given {
    /// No words.
    pub(crate) fn new() -> Given {
        Given {
            words: [0; 64],
            blank: true,
        }
    }

    /// The words.
    pub(crate) fn words(&self) -> &[u64; 64]
        ensures { result.now ≡ self.now }
    {
        &self.words
    }

    /// There are none again.
    fn clear(&mut self)
        ensures { self.new ≡ no_words }
    {
        if !self.blank {
            self.words = [0; 64];
            self.blank = true;
        }
    }

    /// The next call of these jobs, and its words.
    pub(crate) fn next<W: JobMachine + Drop>(&mut self, jobs: &Jobs<W>) -> Option<Stage>
        ensures { call_with result self.new ≡ asked_by (state_of jobs.now) }
    {
        self.clear();
        if let Some(stage) = jobs.bare() {
            return Some(stage);
        }
        self.blank = false;
        jobs.next(&mut self.words)
    }
}
