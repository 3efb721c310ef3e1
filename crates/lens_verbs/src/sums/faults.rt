//! Threads that halt by a fault.
use fk_isa::{Act, act_of, decode};
use fk_model::{Thread, Who};
use fk_store::Store;
use lens_text::{HALTS, Scene, Sheet, line_at, push_at, push_between, push_refused, word_at};

/// Adds why the instruction at a thread's counter makes it halt, by what the thread was at before: a zero divisor, or the rule that refuses the word that it
/// would read or write.
fn push_cause(sheet: &Sheet, store: &Store, who: Who, before: &Thread) {
    let Some(word) = word_at(store, who.space, before.pc) else {
        sheet.put(b"its next instruction: ");
        return push_refused(sheet, store, who.space, before.pc, false);
    };
    match decode(word) {
        Some(instr) => match act_of(instr, &before.regs, before.pc) {
            Act::Halt { code: 1 } => sheet.fill(
                b"r@, by which it divides, is 0",
                instr.c as u64,
                0,
                0,
            ),
            Act::Load { address, .. } => push_refused(sheet, store, who.space, address, false),
            Act::Store { address, .. } => push_refused(sheet, store, who.space, address, true),
            _ => {}
        },
        None => sheet.fill(b"the word @ is no instruction", word, 0, 0),
    }
}

/// Adds the line of a thread that a move made halt by a fault, with this code; before it the thread was at this.
pub fn push_fault(
    sheet: &Sheet,
    scene: Scene<'_>,
    number: u64,
    who: Who,
    before: &Thread,
    code: u8,
) {
    sheet.fill(b"move @: ", number, 0, 0);
    push_between(sheet, scene.store, b"", who, b" ");
    push_at(sheet, scene, who, before);
    sheet.fill(b"; it halts @, ", code as u64, 0, 0);
    sheet.add(line_at(HALTS, code as u64));
    sheet.put(b": ");
    push_cause(sheet, scene.store, who, before);
    sheet.put(b"\n");
}
