//! Many schedules of one scenario.
ghost use Rattle.std.specs.Prelude.{⊤};

use crate::hunt::drawing::Run;
use crate::hunt::ends::push_ending;
use crate::hunt::kinds::{Kinds, Until, until_of};
use crate::hunt::lottery::Lottery;
use crate::hunt::runs::run_by;
use fk_first::Player;
use fk_model::Move;
use fk_responders::Table;
use fk_scenario::Scenario;
use fk_trace_text::trace_text;
use lens_text::{Asked, Problem, Sheet};

/// Runs a scenario by many schedules, one from each core that it is lent, up to the first one with the end that is sought. Where none is sought, the
/// trace of the kind of ends that came least often is wanted: its first schedule is made again for that, so that no other has to be kept.
#[derive(Drop)]
pub struct Hunter<'a> {
    sheet: &'a Sheet,
    asked: Asked<'a>,
    until: Until<'a>,
    lottery: Lottery<'a>,
    /// The ends that came.
    kinds: Kinds,
    /// How many schedules were run.
    done: u64,
    /// The number of the schedule whose trace is wanted, once that is known.
    found: Option<u64>,
    /// The moves of the last schedule.
    moves: Vec<Move>,
}

impl<'a> Hunter<'a> {
    /// It has run none yet.
    pub fn new(sheet: &'a Sheet, asked: Asked<'a>) -> Hunter<'a> {
        Hunter {
            sheet,
            asked,
            until: until_of(asked.name),
            lottery: Lottery::new(sheet),
            kinds: Kinds::new(sheet.alloc),
            done: 0,
            found: None,
            moves: Vec::new(sheet.alloc),
        }
    }

    /// Counts how the schedule with a number has ended, and answers whether another is to be run.
    fn count_end(&mut self, core: &Run, number: u64) -> bool {
        let line = Sheet::new(self.sheet.alloc);
        push_ending(&line, core);
        let line = self.sheet.taken(line);
        let is_met = self.until.is_met(line.as_str());
        self.kinds.count(self.sheet, line, number);
        self.done = self.done.saturating_add(1);
        let is_last = self.done >= self.asked.end;
        if is_met {
            self.found = Some(number);
        } else if is_last && matches!(self.until, Until::Never) {
            self.found = Some(self.kinds.rarest());
        }
        !is_met && (!is_last || self.found.is_some())
    }

    /// Shows the trace that was found, and says which ends came; or says that it wasn't found.
    pub fn show(&self) {
        let sheet = self.sheet;
        let Some(number) = self.found else {
            sheet.fill(b"none of @ schedules ends ", self.asked.end, 0, 0);
            self.until.push(sheet);
            return sheet.fails(Problem::Given);
        };
        if self.moves.is_empty() {
            sheet.put(b"standard input: expected a thread or a job that can move");
            return sheet.fails(Problem::Given);
        }
        match trace_text(sheet.alloc, &self.moves) {
            Ok(trace) => sheet.add(trace.as_str()),
            Err(_) => sheet.lacks(),
        }
        let lines = Sheet::new(sheet.alloc);
        self.kinds.push(&lines);
        lines.fill(b"the trace is that by seed @\n", number, 0, 0);
        sheet.say_beside(sheet.taken(lines));
    }
}

impl Player for Hunter<'_> {
    ghost plays = { λ _ _ _ _. ⊤ };

    fn play(&mut self, table: &Table, _scenario: &Scenario, core: &mut Run) -> bool {
        let number = match self.found {
            Some(number) => number,
            None => self.asked.first.wrapping_add(self.done),
        };
        self.moves.clear();
        self.lottery.begin(number);
        run_by(core, table, &mut self.lottery, &mut self.moves);
        let is_more = self.found.is_none() && self.count_end(core, number);
        is_more && self.sheet.problem().is_none()
    }
}
