//! What each move of a trace does.
use crate::steps::{Keeps, Steps};
use fk_first::Seen;
use fk_model::{Mode, Move};
use lens_text::{Sheet, parted};
use std::alloc::Global;
use std::collections::BTreeMap;
use std::mem;

/// The movers of two traces by their paths, each with a number.
pub type Movers = BTreeMap<String, usize>;

/// A move that a trace makes.
#[derive(Clone, Copy)]
pub struct Deed {
    /// The number of its mover.
    pub mover: usize,
    /// How many moves the mover has made before.
    turn: usize,
    /// Where what it does stands in the text, and where that ends.
    start: usize,
    end: usize,
    /// It may do something to others: it is a store, or no instruction.
    pub reaches: bool,
}

/// What the moves of a trace do, in their order.
#[derive(Drop)]
pub struct Deeds {
    pub list: Vec<Deed>,
    /// Behind the path of each mover what it does.
    text: String,
    /// Of each mover the places of its moves.
    places: Vec<Vec<usize>>,
}

impl Deeds {
    /// None yet.
    fn new(alloc: Global) -> Deeds {
        Deeds {
            list: Vec::new(alloc),
            text: String::new(alloc),
            places: Vec::new(alloc),
        }
    }

    /// What one does.
    pub fn text_of(&self, deed: Deed) -> &str {
        self.text.as_str().get(deed.start..deed.end).unwrap_or("")
    }

    /// The place of the same mover's move of the same turn, if it makes as many.
    pub fn place_of(&self, deed: Deed) -> Option<usize> {
        match self.places.get(deed.mover) {
            Some(places) => places.get(deed.turn).copied(),
            None => None,
        }
    }

    /// Adds what a mover does.
    fn add(&mut self, sheet: &Sheet, mover: usize, does: &str, reaches: bool) {
        for _ in self.places.len()..mover.saturating_add(1) {
            if self.places.push(Vec::new(sheet.alloc)).is_err() {
                sheet.lacks();
            }
        }
        let mut turn = 0;
        if let Some(places) = self.places.get_mut(mover) {
            turn = places.len();
            if places.push(self.list.len()).is_err() {
                sheet.lacks();
            }
        }
        let start = self.text.len();
        let is_written = self.text.push_str(does).is_ok();
        let deed = Deed {
            mover,
            turn,
            start,
            end: self.text.len(),
            reaches,
        };
        if self.list.push(deed).is_err() | !is_written {
            sheet.lacks();
        }
    }
}

/// Keeps what the moves of two runs do.
#[derive(Drop)]
pub struct Taker {
    pub movers: Movers,
    /// What those of the first run do, while the second is watched.
    pub first: Deeds,
    /// What those of the run do that is watched.
    pub deeds: Deeds,
}

impl Taker {
    /// It has seen no move yet.
    pub fn new(alloc: Global) -> Taker {
        Taker {
            movers: Movers::new(alloc),
            first: Deeds::new(alloc),
            deeds: Deeds::new(alloc),
        }
    }

    /// The first run is over.
    pub fn turn_over(&mut self, alloc: Global) {
        self.first = mem::replace(&mut self.deeds, Deeds::new(alloc));
    }
}

/// The number of the mover with this path.
fn number_of(sheet: &Sheet, movers: &mut Movers, path: &str) -> usize {
    let path = sheet.copied(path);
    if let Some(number) = movers.get(&path) {
        return *number;
    }
    let number = movers.len();
    if movers.insert(path, number).is_err() {
        sheet.lacks();
    }
    number
}

impl Keeps for Taker {
    fn keep(&mut self, sheet: &Sheet, steps: &Steps, seen: &Seen<'_>, one: &Move) {
        let line = Sheet::new(sheet.alloc);
        steps.after(&line, seen, one);
        let line = sheet.taken(line);
        // Before the path stand the trace's own line and the move's number.
        let behind = parted(parted(line.as_str(), '\t').1, '\t').1;
        let (path, does) = parted(behind, '\t');
        let is_call = match steps.kept.threads.first() {
            Some((who, before)) if *who == one.who => !matches!(before.mode, Mode::Running),
            _ => true,
        };
        let mover = number_of(sheet, &mut self.movers, path);
        let reaches = is_call || does.starts_with("store");
        self.deeds.add(sheet, mover, does, reaches);
    }
}
