//! Instructions, and what they ask for.

/// The numbers of the operations.
pub mod operation {
    pub const HALT: u8 = 0;

    pub const SET: u8 = 1;

    pub const MOV: u8 = 2;

    pub const ADD: u8 = 3;

    pub const SUB: u8 = 4;

    pub const MUL: u8 = 5;

    pub const AND: u8 = 6;

    pub const OR: u8 = 7;

    pub const XOR: u8 = 8;

    pub const SHL: u8 = 9;

    pub const SHR: u8 = 10;

    pub const DIV: u8 = 11;

    pub const REM: u8 = 12;

    pub const LOAD: u8 = 13;

    pub const STORE: u8 = 14;

    pub const JMP: u8 = 15;

    pub const JZ: u8 = 16;

    pub const JNZ: u8 = 17;

    pub const JLT: u8 = 18;

    pub const ADDI: u8 = 19;

    pub const CALL: u8 = 20;
}

/// An instruction: an operation, three registers, and a number.
#[derive(Clone, Copy, PartialEq, Eq)]
pub struct Instr {
    /// One of the numbers of `operation`.
    pub op: u8,
    /// Registers from 0 to 15.
    pub a: u8,
    pub b: u8,
    pub c: u8,
    pub n: u32,
}

/// What an instruction asks for, once its registers are read. It knows nothing of memory.
#[derive(Clone, Copy, PartialEq, Eq)]
pub enum Act {
    /// A register gets a value, and the next instruction follows.
    Put { register: u8, value: u64 },
    /// The instruction at this counter follows.
    Jump { counter: u64 },
    /// A register gets the word at an address, and the next instruction follows.
    Load { register: u8, address: u64 },
    /// The word at an address gets a value, and the next instruction follows.
    Store { address: u64, value: u64 },
    /// The thread halts with a code.
    Halt { code: u8 },
    /// The thread enters the call that its registers name.
    Call,
}
