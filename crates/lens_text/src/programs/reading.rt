//! The programs of a scenario, and in which spaces they stand.
use crate::programs::listing::Listing;
use crate::sheet::Sheet;
use std::collections::BTreeMap;
use toml::Table;

/// The programs of a scenario, and in which spaces they stand.
#[derive(Drop)]
pub struct Programs {
    /// In the order of their names.
    pub(crate) listings: Vec<Listing>,
    /// The place among them of the program with which a space begins, by the space's birth number.
    homes: BTreeMap<u32, usize>,
}

impl Programs {
    /// Notes that a space begins with the program with this index.
    pub fn stands_in(&mut self, sheet: &Sheet, space: u32, program: usize) {
        if self.homes.insert(space, program).is_err() {
            sheet.lacks();
        }
    }

    /// The program with which a space began, if it began with one.
    pub(crate) fn of_space(&self, space: u32) -> Option<&Listing> {
        match self.homes.get(&space) {
            Some(place) => self.listings.get(*place),
            None => None,
        }
    }
}

/// Reads the programs of a document, which is this scenario.
fn read_all(sheet: &Sheet, programs: &mut Programs, scenario: &str, document: &Table) {
    let Some(value) = document.get("programs") else {
        return;
    };
    if let Some(table) = value.as_table() {
        for (name, program) in table {
            let text = program.as_str().unwrap_or("");
            let listing = Listing::read(sheet, scenario, name.as_str(), text);
            if programs.listings.push(listing).is_err() {
                sheet.lacks();
            }
        }
    }
}

/// The programs of a scenario's text, of which it isn't noted yet where they stand. A text that is no scenario has none.
pub fn programs_of(sheet: &Sheet, text: &[u8]) -> Programs {
    let mut programs = Programs {
        listings: Vec::new(sheet.alloc),
        homes: BTreeMap::new(sheet.alloc),
    };
    if let Ok(scenario) = str::from_utf8(text) {
        if let Ok(document) = toml::table_from_slice(sheet.alloc, text) {
            read_all(sheet, &mut programs, scenario, &document);
        }
    }
    programs
}
