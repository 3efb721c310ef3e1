//! What is said where something can't be shown: a line that is all the sheet has then.
use crate::problem::Problem;
use crate::sheet::Sheet;

/// Says that what was given can't be shown: of which file, where in it by a form of two numbers, and what was expected there.
pub fn given(sheet: &Sheet, file: &str, form: &str, one: u64, two: u64, expected: &str) {
    sheet.clear();
    sheet.add(file);
    sheet.fill_all(form, &[one, two]);
    sheet.add(expected);
    sheet.fails(Problem::Given);
}

/// Says that what has this name and this ending can't be read.
pub fn unread(sheet: &Sheet, name: &str, ending: &str) {
    sheet.clear();
    sheet.add(name);
    sheet.add(ending);
    sheet.put(b" can't be read");
    sheet.fails(Problem::Outside);
}
