//! The words that hold instructions.
ghost use Rattle.std.specs.Prelude.{◌≡◌, ◌≢◌, ◌↔◌, ◌⊎◌, ◌/◌, ◌%◌, ◌^◌, ◌<◌, Some, IsNone, IfSome};
ghost use Rattle.fk_model.specs.Instructions.{instr_of, word_of, IsInstr};

use fk_model::Instr;
use fk_model::operation::CALL;

/// The instruction in a word. There is none exactly where the operation, which stands from bit 56
/// on, is above that of `call`, or one of the bits 32 to 43 is set. `encode` gives the word back.
#[inline]
pub fn decode(word: u64) -> Option<Instr>
    ensures instr { result ≡ instr_of word }
    ensures none { IsNone result ↔ ((CALL < word / 2 ^ 56) ⊎ (word / 2 ^ 32 % 2 ^ 12 ≢ 0)) }
    ensures in_range { IfSome result IsInstr }
    ensures back { IfSome result (λ instr. word_of instr ≡ word) }
{
    let op = word >> 56;
    let unused = (word >> 32) & 0xfff;
    if op > CALL as u64 || unused != 0 {
        return None;
    }
    Some(Instr {
        op: op as u8,
        a: ((word >> 52) & 15) as u8,
        b: ((word >> 48) & 15) as u8,
        c: ((word >> 44) & 15) as u8,
        n: (word & 0xffff_ffff) as u32,
    })
}

/// The word of an instruction whose operation is known and whose registers are among the 16.
/// `decode` gives the instruction back.
#[inline]
pub fn encode(instr: Instr) -> u64
    requires { IsInstr instr }
    ensures word { result ≡ word_of instr }
    ensures back { instr_of result ≡ Some instr }
{
    let word = u64::from(instr.c) << 44 | u64::from(instr.n);
    let word = u64::from(instr.b) << 48 | word;
    let word = u64::from(instr.a) << 52 | word;
    u64::from(instr.op) << 56 | word
}
