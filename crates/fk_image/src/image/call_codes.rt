//! Which numbers are the codes of calls.
ghost use Rattle.std.specs.Prelude.{◌≡◌, ◌==◌, ◌||◌};
ghost use Rattle.std.specs.List.{list_any};
ghost use Rattle.fk_model.specs.Calls.{Call, object_calls, thread_calls, client_calls, server_calls, rebuilding_calls};
ghost use Rattle.fk_image.specs.Image.Ranges as words;

use fk_model::call;

/// Whether a number is the code of a call on an object and what it points to, or on a space as a whole.
fn is_of_objects(code: u64) -> bool
    ensures { result ≡ list_any (λ (c : Call). code == c.code) object_calls }
{
    matches!(
        code,
        call::CREATE
            | call::DESTROY
            | call::RENAME
            | call::SEARCH
            | call::POINT
            | call::CLEAR
            | call::LOCATE
            | call::COUNT_IN
            | call::GET_STATE
            | call::SET_STATE
            | call::GET_PTR
            | call::SET_PTR
            | call::SPACE_HOLD
            | call::SPACE_RELEASE
    )
}

/// Whether a number is the code of a call on a thread, a page, a mutex or a condition.
fn is_of_threads(code: u64) -> bool
    ensures { result ≡ list_any (λ (c : Call). code == c.code) thread_calls }
{
    matches!(
        code,
        call::THREAD_STOP
            | call::THREAD_GO
            | call::PAGE_GIVE
            | call::PAGE_TAKE
            | call::PAGE_READ
            | call::PAGE_NEXT
            | call::MUTEX_LOCK
            | call::MUTEX_TRYLOCK
            | call::MUTEX_UNLOCK
            | call::COND_WAIT
            | call::COND_ASLEEP
            | call::COND_SIGNAL
            | call::COND_BROADCAST
    )
}

/// Whether a number is the code of a call of a client.
fn is_of_clients(code: u64) -> bool
    ensures { result ≡ list_any (λ (c : Call). code == c.code) client_calls }
{
    matches!(
        code,
        call::CONNECT
            | call::CONNECT_SEND_OVER_RECEIVE
            | call::CLIENT_SEND_OVER_RECEIVE
            | call::CLIENT_OVER_RECEIVE
            | call::CLIENT_RECEIVE
            | call::CLIENT_SEND
            | call::CLIENT_OVER
            | call::DISCONNECT
            | call::CLIENT_OVER_REF
            | call::CLIENT_RECEIVE_REF
    )
}

/// Whether a number is the code of a call of a server, or of who takes faults.
fn is_of_servers(code: u64) -> bool
    ensures { result ≡ list_any (λ (c : Call). code == c.code) server_calls }
{
    matches!(
        code,
        call::WAIT
            | call::WAIT_RECEIVE
            | call::SERVER_RECEIVE
            | call::SERVER_SEND
            | call::SERVER_OVER
            | call::SERVER_SEND_OVER_RECEIVE
            | call::SERVER_OVER_RECEIVE
            | call::SERVER_END
            | call::FAULT_DONE
            | call::SERVER_OVER_REF
            | call::SERVER_RECEIVE_REF
    )
}

/// Whether a number is the code of a call by which a porter builds a saved subtree again.
fn is_rebuilding(code: u64) -> bool
    ensures { result ≡ list_any (λ (c : Call). code == c.code) rebuilding_calls }
{
    matches!(
        code,
        call::LINK_SET
            | call::LINK_PARK
            | call::FAULT_SET
            | call::FAULT_PARK
            | call::HOLD_SET
            | call::SPACE_MAKE_HELD
    )
}

/// Whether one of these holds.
fn any_of(objects: bool, threads: bool, clients: bool, servers: bool, rebuilding: bool) -> bool
    ensures { result ≡ (objects || (threads || (clients || (servers || rebuilding)))) }
{
    objects || threads || clients || servers || rebuilding
}

/// Whether a number is the code of a call.
pub fn is_call_code(code: u64) -> bool
    ensures { result ≡ words.is_call_code code }
{
    any_of(
        is_of_objects(code),
        is_of_threads(code),
        is_of_clients(code),
        is_of_servers(code),
        is_rebuilding(code),
    )
}
