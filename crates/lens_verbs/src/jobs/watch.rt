//! Watches how jobs end.
use crate::jobs::ends::push_failed;
use crate::jobs::resting::push_resting;
use fk_first::Seen;
use fk_jobs::{Jobs, Porter};
use lens_text::Sheet;

/// Watches how jobs end.
#[derive(Drop)]
pub struct JobWatch {
    /// The lines of those that have failed.
    failed: String,
    /// How many have ended.
    ended: usize,
    /// The first move of the one at work.
    begun: Option<u64>,
}

impl JobWatch {
    /// None has ended yet.
    pub fn new(sheet: &Sheet) -> JobWatch {
        JobWatch {
            failed: String::new(sheet.alloc),
            ended: 0,
            begun: None,
        }
    }

    /// It sees what stands after a move, and says why those have failed that end with it.
    pub fn after(&mut self, sheet: &Sheet, seen: &Seen<'_>, jobs: &Jobs<Porter>) {
        let count = jobs.ends().len();
        if count > self.ended {
            let lines = Sheet::new(sheet.alloc);
            lines.add(self.failed.as_str());
            for number in self.ended..count {
                push_failed(&lines, seen.store, jobs, number);
            }
            self.failed = sheet.taken(lines);
            self.ended = count;
            self.begun = None;
        }
        if self.begun.is_none() & jobs.is_at_work() {
            self.begun = Some(seen.events.saturating_sub(1));
        }
    }

    /// Adds the lines of those that have failed so far, and that of the one at work; where it hasn't begun, only if that is asked for.
    pub fn push_lines(
        &self,
        sheet: &Sheet,
        seen: &Seen<'_>,
        jobs: &Jobs<Porter>,
        is_rest_told: bool,
    ) {
        sheet.add(self.failed.as_str());
        if is_rest_told | self.begun.is_some() {
            push_resting(sheet, seen, jobs, self.begun);
        }
    }
}
