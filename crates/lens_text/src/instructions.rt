//! The instruction that a word holds, as text.
use crate::sheet::{Sheet, line_at};
use fk_isa::decode;
use fk_model::Instr;
use fk_model::operation::{ADD, ADDI, CALL, HALT, JMP, JNZ, JZ, MOV, REM, SET};

/// The operations by their numbers, with an `@` for each operand that follows the name; behind them that of a negative `addi`, and that of a
/// word that is none.
const FORMS: &str = "halt
set r@, @
mov r@, r@
add r@, r@, r@
sub r@, r@, r@
mul r@, r@, r@
and r@, r@, r@
or r@, r@, r@
xor r@, r@, r@
shl r@, r@, r@
shr r@, r@, r@
div r@, r@, r@
rem r@, r@, r@
load r@, r@, @
store r@, r@, @
jmp @
jz r@, @
jnz r@, @
jlt r@, r@, @
addi r@, r@, @
call
addi r@, r@, -@
word @";

/// The form of an `addi` whose number is negative.
const NEGATIVE: u64 = 21;

/// The form of a word that is no instruction.
pub const WORD: u64 = 22;

/// The form and the operands of the instruction in a word that the assembler can make: the operands that its line leaves out are 0. `addi`
/// takes its number with a sign. Of any other word `WORD`, and its number.
pub fn formed(word: u64) -> (u64, u64, u64, u64) {
    let Some(Instr { op, a, b, c, n }) = decode(word) else {
        return (WORD, word, 0, 0);
    };
    let (form, a, b, c, n) = (op as u64, a as u64, b as u64, c as u64, n as u64);
    let (form, one, two, three, others) = match op {
        HALT | CALL => (form, 0, 0, 0, a | b | c | n),
        JMP => (form, n, 0, 0, a | b | c),
        SET | JZ | JNZ => (form, a, n, 0, b | c),
        MOV => (form, a, b, 0, c | n),
        ADD..=REM => (form, a, b, c, n),
        ADDI if n >= 0x8000_0000 => (NEGATIVE, a, b, 0x1_0000_0000u64.saturating_sub(n), c),
        _ => (form, a, b, n, c),
    };
    if others == 0 {
        (form, one, two, three)
    } else {
        (WORD, word, 0, 0)
    }
}

/// Adds the instruction that a word holds, as a line of a program's text has it; of any other word `word` and its number.
pub fn push_instruction(sheet: &Sheet, word: u64) {
    let (form, one, two, three) = formed(word);
    sheet.fill_all(line_at(FORMS, form), &[one, two, three]);
}
