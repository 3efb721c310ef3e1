//! The numbers of the kinds of objects, as calls and records show them.

pub const MUTEX: u64 = 1;

pub const COND: u64 = 2;

pub const MAPPING: u64 = 3;

pub const REGION: u64 = 4;

pub const PORT: u64 = 5;

pub const PORTSET: u64 = 6;

pub const SPACE: u64 = 7;

pub const THREAD: u64 = 8;

pub const REFERENCE: u64 = 9;
