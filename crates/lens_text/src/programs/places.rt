//! Places by labels and lines.
use crate::programs::listing::Listing;
use crate::programs::scene::Scene;
use crate::sheet::Sheet;
use fk_store::Reach;

/// Whether a page of a store has the words of this page of a program, with zeros behind its last word.
fn is_page_of(words: &[u64; 64], listing: &Listing, page: u8) -> bool {
    let first = page as usize * 64;
    if first >= listing.words.len() {
        return false;
    }
    for at in 0..64usize {
        if words[at] != *listing.words.get(first + at).unwrap_or(&0) {
            return false;
        }
    }
    true
}

/// The program whose words a page of a space has: that with which the space began, or else the first one of which the page is a copy.
fn program_in<'a>(scene: Scene<'a>, space: u32, page: u8) -> Option<&'a Listing> {
    if let Some(listing) = scene.programs.of_space(space) {
        return Some(listing);
    }
    let Some(words) = scene.store.page(space, page) else {
        return None;
    };
    for listing in &scene.programs.listings {
        if is_page_of(words, listing, page) {
            return Some(listing);
        }
    }
    None
}

/// The program whose word stands at an address of a space, and which of its words that is. Where the word has been written over there is none.
fn word_of<'a>(scene: Scene<'a>, space: u32, address: u64) -> Option<(&'a Listing, u64)> {
    let Reach::Home { space, page } = scene.store.reach_word(space, address, false) else {
        return None;
    };
    let Some(listing) = program_in(scene, space, page) else {
        return None;
    };
    let at = address % 64;
    let number = page as u64 * 64 + at;
    if let Some(words) = scene.store.page(space, page) {
        if let Some(word) = listing.words.get(number as usize) {
            if words[at as usize] == *word {
                return Some((listing, number));
            }
        }
    }
    None
}

/// Adds the label at or before a word of a program, where there is one, and the word's line: the scenario's, or the program's own.
fn push_line(sheet: &Sheet, listing: &Listing, number: u64) {
    let Some(line) = listing.lines.get(number as usize) else {
        return;
    };
    if let Some(label) = listing.label_before(number) {
        sheet.add(label.name.as_str());
        if number > label.address {
            sheet.fill(b"+@", number.saturating_sub(label.address), 0, 0);
        }
        sheet.put(b", ");
    }
    match listing.before {
        Some(before) => sheet.fill(b"line @", before.saturating_add(*line), 0, 0),
        None => {
            sheet.fill(b"line @ of ", *line, 0, 0);
            sheet.add(listing.name.as_str());
        }
    }
}

/// Adds the label and the line of the word at an address of a space, between two pieces, where a program's text gave that word.
pub fn push_place<const N: usize, const M: usize>(
    sheet: &Sheet,
    scene: Scene<'_>,
    before: &[u8; N],
    space: u32,
    address: u64,
    behind: &[u8; M],
) {
    if let Some((listing, number)) = word_of(scene, space, address) {
        sheet.put(before);
        push_line(sheet, listing, number);
        sheet.put(behind);
    }
}
