//! The stages that registers name.
ghost use Rattle.std.specs.Prelude.{◌≡◌, option_map, slice_index};
ghost use Rattle.fk_model.specs.Calls.{client_calls, named_by, object_calls, rebuilding_calls, server_calls, stages_of, thread_calls, todo_of};

use fk_model::{Stage, Todo, call};

/// Those of a call on objects and what they point to, or on a space as a whole.
#[inline(always)]
fn named_object_call(registers: &[u64; 16]) -> Option<Todo>
    ensures { option_map stages_of result ≡ named_by object_calls (slice_index registers.now 0) registers.now }
{
    let (s, x, c, d) = (registers[1], registers[2], registers[3], registers[4]);
    let stage = match registers[0] {
        call::CREATE => Stage::Create { s, x, kind: c },
        call::DESTROY => Stage::Destroy { s, x },
        call::RENAME => Stage::Rename { s, x, y: c },
        call::SEARCH => Stage::Search { s, from: x },
        call::POINT => Stage::Point { s, x, s2: c, x2: d },
        call::CLEAR => Stage::Clear { s, x },
        call::LOCATE => Stage::Locate { reference: s, s: x },
        call::COUNT_IN => Stage::CountIn {
            base: s,
            s: x,
            x: c,
        },
        call::GET_STATE => Stage::GetState { s, x, addr: c },
        call::SET_STATE => Stage::SetState { s, x, addr: c },
        call::GET_PTR => Stage::GetPtr {
            s,
            x,
            field: c,
            reference: d,
        },
        call::SET_PTR => Stage::SetPtr {
            s,
            x,
            field: c,
            reference: d,
        },
        call::SPACE_HOLD => Stage::SpaceHold { s, x },
        call::SPACE_RELEASE => Stage::SpaceRelease { s, x },
        _ => return None,
    };
    Some(Todo::One(stage))
}

/// Those of a call on threads, pages, mutexes and conditions.
#[inline(always)]
fn named_thread_call(registers: &[u64; 16]) -> Option<Todo>
    ensures { option_map stages_of result ≡ named_by thread_calls (slice_index registers.now 0) registers.now }
{
    let (a, b, c) = (registers[1], registers[2], registers[3]);
    let stage = match registers[0] {
        call::THREAD_STOP => Stage::ThreadStop { h: a },
        call::THREAD_GO => Stage::ThreadGo { h: a },
        call::PAGE_GIVE => Stage::PageGive {
            s: a,
            page: b,
            addr: c,
        },
        call::PAGE_TAKE => Stage::PageTake {
            s: a,
            page: b,
            addr: c,
        },
        call::PAGE_READ => Stage::PageRead {
            s: a,
            page: b,
            addr: c,
        },
        call::PAGE_NEXT => Stage::PageNext { s: a, from: b },
        call::MUTEX_LOCK => Stage::MutexLock { m: a },
        call::MUTEX_TRYLOCK => Stage::MutexTrylock { m: a },
        call::MUTEX_UNLOCK => Stage::MutexUnlock { m: a },
        call::COND_WAIT => Stage::CondWait { c: a, m: b },
        call::COND_ASLEEP => Stage::CondAsleep { c: a, m: b },
        call::COND_SIGNAL => Stage::CondSignal { c: a },
        call::COND_BROADCAST => Stage::CondBroadcast { c: a },
        _ => return None,
    };
    Some(Todo::One(stage))
}

/// Those of a client's call.
#[inline(always)]
fn named_client_call(registers: &[u64; 16]) -> Option<Todo>
    ensures { option_map stages_of result ≡ named_by client_calls (slice_index registers.now 0) registers.now }
{
    let connect = Stage::Connect { h: registers[1] };
    let send = Stage::ClientSend {
        addr: registers[2],
        count: registers[3],
    };
    let receive = Stage::ClientReceive {
        addr: registers[4],
        room: registers[5],
    };
    match registers[0] {
        call::CONNECT => Some(Todo::One(connect)),
        call::CONNECT_SEND_OVER_RECEIVE => Some(Todo::Four(
            connect,
            send,
            Stage::ClientOver,
            receive,
        )),
        call::CLIENT_SEND_OVER_RECEIVE => Some(Todo::Three(send, Stage::ClientOver, receive)),
        call::CLIENT_OVER_RECEIVE => Some(Todo::Two(Stage::ClientOver, receive)),
        call::CLIENT_RECEIVE => Some(Todo::One(receive)),
        call::CLIENT_SEND => Some(Todo::One(send)),
        call::CLIENT_OVER => Some(Todo::One(Stage::ClientOver)),
        call::DISCONNECT => Some(Todo::One(Stage::Disconnect)),
        call::CLIENT_OVER_REF => Some(Todo::One(Stage::ClientOverRef {
            reference: registers[1],
        })),
        call::CLIENT_RECEIVE_REF => Some(Todo::One(Stage::ClientReceiveRef {
            addr: registers[4],
            room: registers[5],
            reference: registers[6],
        })),
        _ => None,
    }
}

/// Those of a server's call, or of who takes faults.
#[inline(always)]
fn named_server_call(registers: &[u64; 16]) -> Option<Todo>
    ensures { option_map stages_of result ≡ named_by server_calls (slice_index registers.now 0) registers.now }
{
    let wait = Stage::Wait { set: registers[1] };
    let send = Stage::ServerSend {
        addr: registers[2],
        count: registers[3],
    };
    let receive = Stage::ServerReceive {
        addr: registers[4],
        room: registers[5],
    };
    match registers[0] {
        call::WAIT => Some(Todo::One(wait)),
        call::WAIT_RECEIVE => Some(Todo::Two(wait, receive)),
        call::SERVER_RECEIVE => Some(Todo::One(receive)),
        call::SERVER_SEND => Some(Todo::One(send)),
        call::SERVER_OVER => Some(Todo::One(Stage::ServerOver)),
        call::SERVER_SEND_OVER_RECEIVE => Some(Todo::Three(send, Stage::ServerOver, receive)),
        call::SERVER_OVER_RECEIVE => Some(Todo::Two(Stage::ServerOver, receive)),
        call::SERVER_END => Some(Todo::One(Stage::ServerEnd)),
        call::FAULT_DONE => Some(Todo::One(Stage::FaultDone)),
        call::SERVER_OVER_REF => Some(Todo::One(Stage::ServerOverRef {
            reference: registers[1],
        })),
        call::SERVER_RECEIVE_REF => Some(Todo::One(Stage::ServerReceiveRef {
            addr: registers[4],
            room: registers[5],
            reference: registers[6],
        })),
        _ => None,
    }
}

/// Those of a call by which a porter builds a saved subtree again.
#[inline(always)]
fn named_rebuilding_call(registers: &[u64; 16]) -> Option<Todo>
    ensures { option_map stages_of result ≡ named_by rebuilding_calls (slice_index registers.now 0) registers.now }
{
    let (s, x, c, d) = (registers[1], registers[2], registers[3], registers[4]);
    let stage = match registers[0] {
        call::LINK_SET => Stage::LinkSet {
            s,
            x,
            port: c,
            server: d,
        },
        call::LINK_PARK => Stage::LinkPark { s, x, port: c },
        call::FAULT_SET => Stage::FaultSet {
            s,
            x,
            port: c,
            taker: d,
        },
        call::FAULT_PARK => Stage::FaultPark {
            s,
            x,
            port: c,
            taken: d,
        },
        call::HOLD_SET => Stage::HoldSet { s, x, thread: c },
        call::SPACE_MAKE_HELD => Stage::SpaceMakeHeld { x: s },
        _ => return None,
    };
    Some(Todo::One(stage))
}

/// The stages that the registers name. None exactly where the first register holds no call's code.
#[tactic(auto, unfolding(fk_model::specs::Calls::todo_of))]
#[inline(always)]
pub fn todo(registers: &[u64; 16]) -> Option<Todo>
    ensures { option_map stages_of result ≡ todo_of registers.now }
{
    if let Some(call) = named_object_call(registers) {
        return Some(call);
    }
    if let Some(call) = named_thread_call(registers) {
        return Some(call);
    }
    if let Some(call) = named_client_call(registers) {
        return Some(call);
    }
    if let Some(call) = named_server_call(registers) {
        return Some(call);
    }
    named_rebuilding_call(registers)
}
