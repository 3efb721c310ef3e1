//! What an instruction asks for.
ghost use Rattle.std.specs.Prelude.{◌≡◌, ◌≤◌};
ghost use Rattle.fk_model.specs.Instructions as instructions;
ghost use Rattle.fk_model.specs.Instructions.{IsAct, IsInstr};

use fk_model::operation::{
    ADD, ADDI, AND, DIV, HALT, JLT, JMP, JNZ, JZ, LOAD, MOV, MUL, OR, REM, SET, SHL, SHR, STORE,
    SUB, XOR,
};
use fk_model::{Act, Instr};

/// What an instruction asks for with these registers and at this counter. The operation is known
/// and its registers are among the 16, and so is the register that the answer names.
#[inline(always)]
pub fn act_of(instr: Instr, registers: &[u64; 16], counter: u64) -> Act
    requires { IsInstr instr }
    ensures act { result ≡ instructions.act_of instr registers.now counter }
    ensures in_range { IsAct result }
{
    let a = registers[instr.a as usize];
    let b = registers[instr.b as usize];
    let c = registers[instr.c as usize];
    let n = u64::from(instr.n);
    let next = counter.wrapping_add(1);
    match instr.op {
        HALT => Act::Halt { code: 0 },
        SET => Act::Put {
            register: instr.a,
            value: n,
        },
        MOV => Act::Put {
            register: instr.a,
            value: b,
        },
        ADD..=REM => put_or_halt(instr.a, combined(instr.op, b, c)),
        LOAD => Act::Load {
            register: instr.a,
            address: b.wrapping_add(n),
        },
        STORE => Act::Store {
            address: b.wrapping_add(n),
            value: a,
        },
        JMP => Act::Jump { counter: n },
        JZ => Act::Jump {
            counter: if a == 0 { n } else { next },
        },
        JNZ => Act::Jump {
            counter: if a == 0 { next } else { n },
        },
        JLT => Act::Jump {
            counter: if a < b { n } else { next },
        },
        ADDI => Act::Put {
            register: instr.a,
            value: b.wrapping_add(sign_extended(instr.n)),
        },
        _ => Act::Call,
    }
}

/// A register gets a value. With none, which a zero divisor gives, the thread halts.
#[inline]
fn put_or_halt(register: u8, value: Option<u64>) -> Act
    ensures { result ≡ instructions.put_or_halt register value }
{
    match value {
        Some(value) => Act::Put { register, value },
        None => Act::Halt { code: 1 },
    }
}

/// What the operations from `add` to `rem` make of two words. A zero divisor gives nothing.
#[inline]
fn combined(op: u8, b: u64, c: u64) -> Option<u64>
    requires low { ADD ≤ op }
    requires high { op ≤ REM }
    ensures { result ≡ instructions.combined op b c }
{
    Some(match op {
        ADD => b.wrapping_add(c),
        SUB => b.wrapping_sub(c),
        MUL => b.wrapping_mul(c),
        AND => b & c,
        OR => b | c,
        XOR => b ^ c,
        SHL => if c < 64 { b << c } else { 0 },
        SHR => if c < 64 { b >> c } else { 0 },
        DIV => return b.checked_div(c),
        _ => return b.checked_rem(c),
    })
}

/// A number of 32 bits with a sign, as a word.
#[inline]
fn sign_extended(n: u32) -> u64
    ensures { result ≡ instructions.sign_extended n }
{
    let word = u64::from(n);
    if n < 0x8000_0000 {
        word
    } else {
        word + 0xffff_ffff_0000_0000
    }
}
