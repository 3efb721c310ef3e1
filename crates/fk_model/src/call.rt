//! The codes of calls. One of several stages is named by all of them.

pub const CREATE: u64 = 1;

pub const DESTROY: u64 = 2;

pub const RENAME: u64 = 3;

pub const SEARCH: u64 = 4;

pub const POINT: u64 = 5;

pub const CLEAR: u64 = 6;

pub const LOCATE: u64 = 7;
/// Porters alone make it.
pub const COUNT_IN: u64 = 8;

pub const GET_STATE: u64 = 9;

pub const SET_STATE: u64 = 10;

pub const GET_PTR: u64 = 11;

pub const SET_PTR: u64 = 12;

pub const SPACE_HOLD: u64 = 13;

pub const SPACE_RELEASE: u64 = 14;

pub const THREAD_STOP: u64 = 15;

pub const THREAD_GO: u64 = 16;

pub const PAGE_GIVE: u64 = 17;

pub const PAGE_TAKE: u64 = 18;

pub const PAGE_READ: u64 = 19;

pub const PAGE_NEXT: u64 = 20;

pub const MUTEX_LOCK: u64 = 21;

pub const MUTEX_TRYLOCK: u64 = 22;

pub const MUTEX_UNLOCK: u64 = 23;

pub const COND_WAIT: u64 = 24;
/// What is left of `COND_WAIT` once the thread sleeps.
pub const COND_ASLEEP: u64 = 25;

pub const COND_SIGNAL: u64 = 26;

pub const COND_BROADCAST: u64 = 27;

pub const CONNECT: u64 = 32;

pub const CONNECT_SEND_OVER_RECEIVE: u64 = 33;

pub const CLIENT_SEND_OVER_RECEIVE: u64 = 34;

pub const CLIENT_OVER_RECEIVE: u64 = 35;

pub const CLIENT_RECEIVE: u64 = 36;

pub const CLIENT_SEND: u64 = 37;

pub const CLIENT_OVER: u64 = 38;

pub const DISCONNECT: u64 = 39;

pub const CLIENT_OVER_REF: u64 = 40;

pub const CLIENT_RECEIVE_REF: u64 = 41;

pub const WAIT: u64 = 48;

pub const WAIT_RECEIVE: u64 = 49;

pub const SERVER_RECEIVE: u64 = 50;

pub const SERVER_SEND: u64 = 51;

pub const SERVER_OVER: u64 = 52;

pub const SERVER_SEND_OVER_RECEIVE: u64 = 53;

pub const SERVER_OVER_RECEIVE: u64 = 54;

pub const SERVER_END: u64 = 55;

pub const FAULT_DONE: u64 = 56;

pub const SERVER_OVER_REF: u64 = 57;

pub const SERVER_RECEIVE_REF: u64 = 58;

pub const LINK_SET: u64 = 60;

pub const LINK_PARK: u64 = 61;

pub const FAULT_SET: u64 = 62;

pub const FAULT_PARK: u64 = 63;

pub const HOLD_SET: u64 = 64;

pub const SPACE_MAKE_HELD: u64 = 65;
