//! The lines of a page.
use crate::instructions::{WORD, formed, push_instruction};
use crate::sheet::Sheet;
use fk_image::PageRec;

/// How many words of a page there are up to its last one that isn't 0, and whether the page has an instruction: a word that isn't 0 and that the
/// assembler makes of an instruction's line. In such a page the words are shown as instructions.
fn filled(words: &[u64; 64]) -> (usize, bool) {
    let mut count = 0;
    let mut is_program = false;
    for at in 0..64usize {
        let word = words[at];
        if word != 0 {
            count = at + 1;
            is_program = is_program | (formed(word).0 != WORD);
        }
    }
    (count, is_program)
}

/// Adds the lines of a page of the space that is shown by this path: how many of its words there are up to the last one that
/// isn't 0, and then each of these.
pub fn push_page(sheet: &Sheet, path: &str, page: &PageRec) {
    let (count, is_program) = filled(&page.words);
    let number = page.page as u64;
    let form = b" @, words @ and then 0\n";
    sheet.line(b"page ", path, form, number, count as u64);
    for at in 0..64usize {
        if at < count {
            sheet.line(b"word ", path, b" @ ", number * 64 + at as u64, 0);
            let word = page.words[at];
            if is_program {
                push_instruction(sheet, word);
            } else {
                sheet.add_number(word);
            }
            sheet.put(b"\n");
        }
    }
}
