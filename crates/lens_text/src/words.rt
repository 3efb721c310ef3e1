//! The verb `words`.
use crate::instructions::push_instruction;
use crate::problem::Problem;
use crate::sheet::{Sheet, line_at};
use fk_asm::{AsmError, AsmFail, assemble};

/// What was expected of a program's text, by the reason for which it is refused, and by any other.
const EXPECTED: &str = "no more than 16384 words
an operation with exactly its operands, behind a label's name at most
a number from -2147483648 to 4294967295, or a label's name
a register, r0 to r15
a label that no earlier line defines
a label that some line defines
no more than 16384 words";

/// Adds which line of a program's text isn't assembled, by a form of its number, and what was expected there.
pub fn push_unassembled<const N: usize>(sheet: &Sheet, form: &[u8; N], fault: AsmFail) {
    match fault {
        AsmFail::Text(AsmError { line, reason }) => {
            sheet.fill(form, line as u64, 0, 0);
            sheet.add(line_at(EXPECTED, reason as u64));
            sheet.fails(Problem::Given);
        }
        AsmFail::NoMemory => sheet.lacks(),
    }
}

/// Adds the words of a program's text, each as a line that assembles to it, with its address and its 16 digits behind.
/// Where a line is refused, the sheet says so.
pub fn push_words(sheet: &Sheet, text: &[u8]) {
    match assemble(sheet.alloc, text) {
        Ok(words) => {
            for (address, word) in words.iter().enumerate() {
                let line = Sheet::new(sheet.alloc);
                push_instruction(&line, *word);
                sheet.put_row(line, address as u64, *word);
            }
        }
        Err(fault) => {
            sheet.put(b"standard input");
            push_unassembled(sheet, b", line @: expected ", fault);
        }
    }
}
