//! Codes of calls: those that begin with a send, and those on objects, spaces and pages, with the end of a fault.
use fk_model::call::{
    self, CLIENT_SEND, CLIENT_SEND_OVER_RECEIVE, SERVER_SEND, SERVER_SEND_OVER_RECEIVE,
};

/// A call begins with a send.
pub fn begins_with_send(code: u64) -> bool {
    matches!(
        code,
        CLIENT_SEND | CLIENT_SEND_OVER_RECEIVE | SERVER_SEND | SERVER_SEND_OVER_RECEIVE
    )
}

/// A call is on objects, spaces or pages, or ends a fault. Such a one waits for nobody, while nothing is held.
pub fn is_on_objects(code: u64) -> bool {
    matches!(
        code,
        call::CREATE
            | call::DESTROY
            | call::RENAME
            | call::SEARCH
            | call::POINT
            | call::CLEAR
            | call::LOCATE
            | call::COUNT_IN
            | call::GET_STATE
            | call::SET_STATE
            | call::GET_PTR
            | call::SET_PTR
            | call::SPACE_HOLD
            | call::SPACE_RELEASE
            | call::THREAD_STOP
            | call::THREAD_GO
            | call::PAGE_GIVE
            | call::PAGE_TAKE
            | call::PAGE_READ
            | call::PAGE_NEXT
            | call::FAULT_DONE
    )
}
