//! A thread that runs, without its memory.
ghost use Rattle.std.specs.Prelude.{◌≡◌, ◌<◌, ◌≤◌, ◌*◌, ◌/◌, ◌%◌, ◌^◌, nat_lt, if◌then◌else◌, slice_index};
ghost use Rattle.fk_model.specs.Instructions as instructions;
ghost use Rattle.fk_model.specs.Instructions.{act, act_of, put_or_halt};
ghost use Rattle.fk_stretch.specs.Acts as acts;
ghost use Rattle.fk_stretch.specs.Acts.{begun, fields, rest_of, IsRest};

use fk_model::halt::UNKNOWN_OPERATION;
use fk_model::operation::{
    ADD, ADDI, AND, CALL, DIV, HALT, JLT, JMP, JNZ, JZ, LOAD, MOV, MUL, OR, REM, SET, SHL, SHR,
    STORE, SUB, XOR,
};

/// The registers and the counter of a thread while it runs.
#[derive(Clone, Copy)]
pub struct Running {
    pub registers: [u64; 16],
    pub counter: u64,
}

/// What of an instruction is left to be done, once it has done what it does with registers and the counter alone.
#[derive(Clone, Copy)]
pub enum Rest {
    /// It is made.
    Nothing,
    /// A register gets the word at an address, and the next instruction follows.
    Loads { register: u8, address: u64 },
    /// The word at an address gets a value, and the next instruction follows.
    Stores { address: u64, value: u64 },
    /// The thread halts with a code.
    Halts { code: u8 },
    /// The thread enters the call that its registers name.
    Calls,
}

impl Running {
    /// A register gets a value, and the next instruction follows.
    #[inline(always)]
    pub fn put(&mut self, register: u8, value: u64)
        requires { register < 16 }
        ensures { self.new ≡ acts.put register value self.old }
    {
        self.registers[register as usize] = value;
        self.counter = self.counter.wrapping_add(1);
    }

    /// The next instruction follows.
    #[inline(always)]
    pub fn pass(&mut self)
        ensures { self.new ≡ acts.pass self.old }
    {
        self.counter = self.counter.wrapping_add(1);
    }

    /// A register gets a value, and that is all.
    #[inline(always)]
    fn sets(&mut self, register: u8, value: u64) -> Rest
        requires { register < 16 }
        ensures rest { result ≡ Rest.Nothing }
        ensures put { self.new ≡ acts.put register value self.old }
    {
        self.put(register, value);
        Rest::Nothing
    }

    /// The instruction at this counter follows, and that is all.
    #[inline(always)]
    fn jumps(&mut self, counter: u64) -> Rest
        ensures rest { result ≡ Rest.Nothing }
        ensures jump { self.new ≡ record self.old { counter = counter } }
    {
        self.counter = counter;
        Rest::Nothing
    }

    /// A register gets a value, and that is all. With none, which a zero divisor gives, the thread halts.
    #[inline(always)]
    fn sets_or_halts(&mut self, register: u8, value: Option<u64>) -> Rest
        requires { register < 16 }
        ensures rest { result ≡ rest_of (put_or_halt register value) }
        ensures begun { self.new ≡ begun (put_or_halt register value) self.old }
    {
        match value {
            Some(value) => self.sets(register, value),
            None => Rest::Halts { code: 1 },
        }
    }

    /// The register that a word names first.
    #[inline(always)]
    fn first(&self, word: u64) -> u64
        ensures { result ≡ slice_index self.now.registers (word / 2 ^ 52 % 16) }
    {
        self.registers[((word >> 52) & 15) as usize]
    }

    /// The one that it names second.
    #[inline(always)]
    fn second(&self, word: u64) -> u64
        ensures { result ≡ slice_index self.now.registers (word / 2 ^ 48 % 16) }
    {
        self.registers[((word >> 48) & 15) as usize]
    }

    /// The one that it names third.
    #[inline(always)]
    fn third(&self, word: u64) -> u64
        ensures { result ≡ slice_index self.now.registers (word / 2 ^ 44 % 16) }
    {
        self.registers[((word >> 44) & 15) as usize]
    }

    /// Begins the instruction in a word: does what it does with registers and the counter alone, and answers what is left to be done.
    #[inline(always)]
    pub fn begin(&mut self, word: u64) -> Rest
        ensures rest { result ≡ rest_of (act word self.old.registers self.old.counter) }
        ensures begun { self.new ≡ begun (act word self.old.registers self.old.counter) self.old }
        ensures in_range { IsRest result }
    {
        let op = word >> 56;
        let unused = (word >> 32) & 0xfff;
        if op > CALL as u64 || unused != 0 {
            return Rest::Halts {
                code: UNKNOWN_OPERATION,
            };
        }
        self.operate(op as u8, word)
    }

    /// Begins the instruction in a word whose operation is this one.
    #[inline(always)]
    fn operate(&mut self, op: u8, word: u64) -> Rest
        requires known { op ≤ CALL }
        ensures rest { result ≡ rest_of (act_of (fields op word) self.old.registers self.old.counter) }
        ensures begun { self.new ≡ begun (act_of (fields op word) self.old.registers self.old.counter) self.old }
        ensures in_range { IsRest result }
    {
        let a = register_of(word);
        let n = number_of(word);
        let next = self.counter.wrapping_add(1);
        match op {
            HALT => Rest::Halts { code: 0 },
            SET => self.sets(a, n),
            MOV => self.sets(a, self.second(word)),
            ADD => self.sets(a, self.second(word).wrapping_add(self.third(word))),
            SUB => self.sets(a, self.second(word).wrapping_sub(self.third(word))),
            MUL => self.sets(a, self.second(word).wrapping_mul(self.third(word))),
            AND => self.sets(a, self.second(word) & self.third(word)),
            OR => self.sets(a, self.second(word) | self.third(word)),
            XOR => self.sets(a, self.second(word) ^ self.third(word)),
            SHL => self.sets(a, shifted_left(self.second(word), self.third(word))),
            SHR => self.sets(a, shifted_right(self.second(word), self.third(word))),
            DIV => self.sets_or_halts(a, self.second(word).checked_div(self.third(word))),
            REM => self.sets_or_halts(a, self.second(word).checked_rem(self.third(word))),
            LOAD => Rest::Loads {
                register: a,
                address: self.second(word).wrapping_add(n),
            },
            STORE => Rest::Stores {
                address: self.second(word).wrapping_add(n),
                value: self.first(word),
            },
            JMP => self.jumps(n),
            JZ => self.jumps(chosen(self.first(word) == 0, n, next)),
            JNZ => self.jumps(chosen(self.first(word) == 0, next, n)),
            JLT => self.jumps(chosen(self.first(word) < self.second(word), n, next)),
            ADDI => self.sets(a, self.second(word).wrapping_add(sign_extended(n))),
            _ => Rest::Calls,
        }
    }
}

/// One of two counters.
#[inline(always)]
fn chosen(first: bool, one: u64, other: u64) -> u64
    ensures { result ≡ if first then one else other }
{
    if first { one } else { other }
}

/// The register that a word names first, by its number.
#[inline(always)]
fn register_of(word: u64) -> u8
    ensures register { result ≡ word / 2 ^ 52 % 16 }
    ensures low { result < 16 }
{
    ((word >> 52) & 15) as u8
}

/// The number in a word.
#[inline(always)]
fn number_of(word: u64) -> u64
    ensures number { result ≡ word % 2 ^ 32 }
{
    word & 0xffff_ffff
}

/// A word moved up by so many bits.
#[inline(always)]
fn shifted_left(b: u64, c: u64) -> u64
    ensures { result ≡ if nat_lt c 64 then b * 2 ^ c % 2 ^ 64 else 0 }
{
    if c < 64 { b << c } else { 0 }
}

/// A word moved down by so many bits.
#[inline(always)]
fn shifted_right(b: u64, c: u64) -> u64
    ensures { result ≡ if nat_lt c 64 then b / 2 ^ c else 0 }
{
    if c < 64 { b >> c } else { 0 }
}

/// A number of 32 bits with a sign, as a word.
#[inline(always)]
fn sign_extended(n: u64) -> u64
    requires { n < 2 ^ 32 }
    ensures { result ≡ instructions.sign_extended n }
{
    if n < 0x8000_0000 {
        n
    } else {
        n + 0xffff_ffff_0000_0000
    }
}
