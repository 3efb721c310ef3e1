//! The verbs over a scenario.
ghost use Rattle.std.specs.Prelude.{⊤, map};
ghost use Rattle.fk_scenario.specs.Scenario.Kept.{KeepsScenario, HasRules};

use crate::apart::{Taker, push_apart};
use crate::hunt::Hunter;
use crate::images::Files;
use crate::page::Page;
use crate::records::Noting;
use crate::shows::{Show, Shows, Tree};
use crate::steps::{Keeps, Lines, Steps, Stepwise};
use crate::stops::check_stop;
use crate::sums::Sums;
use crate::why::Why;
use fk_causes::Shelf;
use fk_commands::{ScenarioReader, Status, lend_scenario};
use fk_first::{Trace, lend_cores, watch};
use fk_responders::Table;
use fk_scenario::Scenario;
use fk_scenario::entries::SpaceEntry;
use lens_text::{
    Asked, Programs, Sheet, Verb, file_of, programs_of, push_plain, push_record, refused_scenario,
};

/// Notes with which programs the spaces of these entries begin. The root's birth number is 0, those of the others follow from 1 on.
fn note_spaces(sheet: &Sheet, programs: &mut Programs, entries: &[SpaceEntry]) {
    let mut birth = 0u32;
    for entry in entries {
        if entry.path.len() > 0 {
            birth = birth.saturating_add(1);
        }
        let space = if entry.path.len() > 0 { birth } else { 0 };
        if let Some(program) = entry.program {
            programs.stands_in(sheet, space, program as usize);
        }
    }
}

/// What is asked for of a scenario with this text, beside the bytes of the files that the verb wants; and the files of the shelf.
#[derive(Drop)]
struct Showing<'a, H: Shelf> {
    asked: Asked<'a>,
    text: &'a [u8],
    /// Those of the trace.
    trace: &'a [u8],
    /// Those of the other trace, or of the record.
    other: &'a [u8],
    files: Files<'a, H>,
}

impl<H: Shelf> Showing<'_, H> {
    /// Lets a run be shown, that by the trace or that by the other one, and says what is wrong with the trace.
    fn show<T: Shows + Drop>(
        &mut self,
        table: &Table,
        scenario: &Scenario,
        programs: &Programs,
        is_other: bool,
        by: T,
    )
        requires keeps { KeepsScenario scenario.now }
        requires rules { HasRules (map (λ r. r.rule) table.now.list.items) scenario.now }
    {
        let (sheet, asked) = (self.files.sheet, self.asked);
        let (name, bytes) = if is_other {
            (asked.other, self.other)
        } else {
            (asked.name, self.trace)
        };
        let trace = Trace {
            bytes,
            most: asked.end,
            looks_ahead: matches!(asked.verb, Verb::Why),
        };
        let mut show = Show {
            sheet,
            programs,
            by,
        };
        match watch(
            sheet.alloc,
            table,
            scenario,
            &mut self.files,
            trace,
            &mut show,
        ) {
            Ok(stop) => check_stop(sheet, &Asked { name, ..asked }, stop),
            Err(problem) => sheet.fails(problem),
        }
    }

    /// Lets a run be shown by the moves' own lines, and says what is wrong with the trace.
    fn step<K: Keeps>(
        &mut self,
        table: &Table,
        scenario: &Scenario,
        programs: &Programs,
        is_other: bool,
        by: &mut K,
    )
        requires keeps { KeepsScenario scenario.now }
        requires rules { HasRules (map (λ r. r.rule) table.now.list.items) scenario.now }
    {
        let steps = Steps::new(self.files.sheet.alloc, self.asked.first);
        self.show(table, scenario, programs, is_other, Stepwise { steps, by });
    }

    /// Shows where two traces come apart.
    fn compare(&mut self, table: &Table, scenario: &Scenario, programs: &Programs)
        requires keeps { KeepsScenario scenario.now }
        requires rules { HasRules (map (λ r. r.rule) table.now.list.items) scenario.now }
    {
        let (sheet, asked) = (self.files.sheet, self.asked);
        let mut taker = Taker::new(sheet.alloc);
        self.step(table, scenario, programs, false, &mut taker);
        if sheet.problem().is_none() {
            taker.turn_over(sheet.alloc);
            self.step(table, scenario, programs, true, &mut taker);
        }
        if sheet.problem().is_none() {
            push_apart(sheet, &taker, asked.name, asked.other);
        }
    }

    /// Shows a record with the moves that made it.
    fn record(&mut self, table: &Table, scenario: &Scenario, programs: &Programs)
        requires keeps { KeepsScenario scenario.now }
        requires rules { HasRules (map (λ r. r.rule) table.now.list.items) scenario.now }
    {
        let (sheet, asked) = (self.files.sheet, self.asked);
        let mut noting = Noting::new(sheet, scenario.servers.as_slice());
        self.step(table, scenario, programs, false, &mut noting);
        if sheet.problem().is_none() {
            push_record(sheet, asked.name, &noting.noted, self.other);
        }
    }

    /// Shows what is asked for of runs by traces.
    fn show_run(&mut self, table: &Table, scenario: &Scenario)
        requires keeps { KeepsScenario scenario.now }
        requires rules { HasRules (map (λ r. r.rule) table.now.list.items) scenario.now }
    {
        let (sheet, asked) = (self.files.sheet, self.asked);
        let mut programs = programs_of(sheet, self.text);
        note_spaces(sheet, &mut programs, scenario.spaces.as_slice());
        match asked.verb {
            Verb::Apart => self.compare(table, scenario, &programs),
            Verb::Record => self.record(table, scenario, &programs),
            Verb::Steps => {
                sheet.put(b"fluke-trace 1\n");
                self.step(table, scenario, &programs, false, &mut Lines);
            }
            Verb::Why => self.show(table, scenario, &programs, false, Why::new(sheet)),
            Verb::Sums => self.show(table, scenario, &programs, false, Sums::new(sheet)),
            Verb::Page => self.show(
                table,
                scenario,
                &programs,
                false,
                Page::new(sheet, asked.name),
            ),
            _ => self.show(table, scenario, &programs, false, Tree),
        }
    }

    /// Shows the trace that a hunt finds, and says which ends came.
    fn hunt(&mut self, table: &Table, scenario: &Scenario)
        requires keeps { KeepsScenario scenario.now }
        requires rules { HasRules (map (λ r. r.rule) table.now.list.items) scenario.now }
    {
        let sheet = self.files.sheet;
        let mut hunter = Hunter::new(sheet, self.asked);
        match lend_cores(sheet.alloc, table, scenario, &mut self.files, &mut hunter) {
            Ok(()) => hunter.show(),
            Err(problem) => sheet.fails(problem),
        }
    }
}

impl<H: Shelf> ScenarioReader for Showing<'_, H> {
    ghost looks = { λ _ _ _. ⊤ };

    ghost hears = { λ _ _ _. ⊤ };

    fn scenario(&mut self, table: &Table, scenario: &Scenario) {
        match self.asked.verb {
            Verb::Plain => {}
            Verb::Hunt => self.hunt(table, scenario),
            _ => self.show_run(table, scenario),
        }
    }

    fn refused(&mut self, status: &Status) {
        let sheet = self.files.sheet;
        match status {
            Status::BadScenario {
                rule,
                section,
                index,
            } => refused_scenario(sheet, self.text, *rule, *section, *index),
            _ => sheet.lacks(),
        }
    }
}

/// Shows what is asked for of a scenario's text, beside the bytes of these files.
fn show_beside<'x, H: Shelf>(
    sheet: &'x Sheet,
    asked: Asked<'x>,
    text: &'x [u8],
    trace: &'x [u8],
    other: &'x [u8],
    shelf: &'x mut H,
) {
    let mut showing = Showing {
        asked,
        text,
        trace,
        other,
        files: Files { sheet, shelf },
    };
    lend_scenario(sheet.alloc, text, &mut showing);
}

/// Shows what is asked for of a scenario's text, or says why not.
pub fn show_scenario<H: Shelf>(sheet: &Sheet, asked: &Asked<'_>, text: &[u8], shelf: &mut H) {
    let trace = match asked.verb {
        Verb::First | Verb::Plain | Verb::Hunt => Some(Vec::new(sheet.alloc)),
        _ => file_of(sheet, shelf, asked.name, ".trc"),
    };
    let Some(trace) = trace else {
        return;
    };
    let other = match asked.verb {
        Verb::Apart => file_of(sheet, shelf, asked.other, ".trc"),
        Verb::Record => file_of(sheet, shelf, asked.name, ".rec"),
        _ => Some(Vec::new(sheet.alloc)),
    };
    let Some(other) = other else {
        return;
    };
    show_beside(sheet, *asked, text, &trace, &other, shelf);
}

/// Adds the plain form of a scenario's text, or says why there is none: a name that is none, or a plain form that `fluke` refuses.
pub fn show_plain<H: Shelf>(sheet: &Sheet, asked: &Asked<'_>, text: &[u8], shelf: &mut H) {
    let plain = Sheet::new(sheet.alloc);
    push_plain(&plain, text);
    let plain = plain.shown();
    sheet.add(plain.text.as_str());
    match plain.problem {
        Some(problem) => sheet.fails(problem),
        None => show_scenario(sheet, asked, plain.text.as_bytes(), shelf),
    }
}
