//! The top call: the words of the command line, over the source and the shelf.
use crate::help::{HELP, VERSION};
use crate::images::{show_differences, show_image};
use crate::runs::{show_plain, show_scenario};
use fk_causes::{Shelf, Source};
use lens_text::{Problem, Sheet, Shown, Verb, asked_in, push_words, source_text};
use std::alloc::Global;

/// Shows on a sheet what the words ask for, or says there why not.
fn show<R: Source, H: Shelf>(sheet: &Sheet, words: &[String], source: &mut R, shelf: &mut H) {
    let Some(asked) = asked_in(sheet, words) else {
        return sheet.fails(Problem::Words);
    };
    match asked.verb {
        Verb::Help => sheet.put_bytes(HELP),
        Verb::Version => sheet.put_bytes(VERSION),
        Verb::Image => show_image(sheet, sheet, asked.name, shelf),
        Verb::Differences => show_differences(sheet, asked.name, asked.other, shelf),
        _ => {
            if let Some(text) = source_text(sheet, source) {
                match asked.verb {
                    Verb::Words => push_words(sheet, &text),
                    Verb::Plain => show_plain(sheet, &asked, &text, shelf),
                    _ => show_scenario(sheet, &asked, &text, shelf),
                }
            }
        }
    }
}

/// What the words of the command line ask to be shown, over the bytes of the source and the files of the shelf. Its problem is `Words`
/// where the words are no verb, `Given` where what was given can't be shown, `Outside` where the source or a file can't be read, and
/// `NoMemory`.
pub fn lens_top<R: Source, H: Shelf>(
    alloc: Global,
    words: &[String],
    source: &mut R,
    shelf: &mut H,
) -> Shown {
    let sheet = Sheet::new(alloc);
    show(&sheet, words, source, shelf);
    sheet.shown()
}
