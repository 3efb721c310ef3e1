//! The codes of calls.
ghost use Rattle.std.specs.Prelude.{◌≡◌, true};
ghost use Rattle.fk_model.specs.Calls as calls;
ghost use Rattle.fk_model.specs.Moves.{is_for_users};

use fk_model::{Stage, Todo, call};

/// The code of a call of one stage that users alone make: on mutexes and conditions, or in a talk.
fn code_of_users_stage(stage: &Stage) -> u64
    requires { is_for_users stage.now ≡ true }
    ensures { result ≡ calls.code_of_stage stage.now }
{
    match stage {
        Stage::MutexLock { .. } => call::MUTEX_LOCK,
        Stage::MutexTrylock { .. } => call::MUTEX_TRYLOCK,
        Stage::MutexUnlock { .. } => call::MUTEX_UNLOCK,
        Stage::CondWait { .. } => call::COND_WAIT,
        Stage::CondAsleep { .. } => call::COND_ASLEEP,
        Stage::CondSignal { .. } => call::COND_SIGNAL,
        Stage::CondBroadcast { .. } => call::COND_BROADCAST,
        Stage::Connect { .. } => call::CONNECT,
        Stage::ClientReceive { .. } => call::CLIENT_RECEIVE,
        Stage::ClientSend { .. } => call::CLIENT_SEND,
        Stage::ClientOver => call::CLIENT_OVER,
        Stage::Disconnect => call::DISCONNECT,
        Stage::ClientOverRef { .. } => call::CLIENT_OVER_REF,
        Stage::ClientReceiveRef { .. } => call::CLIENT_RECEIVE_REF,
        Stage::ServerReceive { .. } => call::SERVER_RECEIVE,
        Stage::ServerSend { .. } => call::SERVER_SEND,
        Stage::ServerOver => call::SERVER_OVER,
        Stage::ServerEnd => call::SERVER_END,
        Stage::ServerOverRef { .. } => call::SERVER_OVER_REF,
        Stage::ServerReceiveRef { .. } => call::SERVER_RECEIVE_REF,
        _ => unreachable!(),
    }
}

/// The code of a call of one stage.
#[inline(always)]
pub fn code_of_stage(stage: &Stage) -> u64
    ensures { result ≡ calls.code_of_stage stage.now }
{
    match stage {
        Stage::Create { .. } => call::CREATE,
        Stage::Destroy { .. } => call::DESTROY,
        Stage::Rename { .. } => call::RENAME,
        Stage::Search { .. } => call::SEARCH,
        Stage::Point { .. } => call::POINT,
        Stage::Clear { .. } => call::CLEAR,
        Stage::Locate { .. } => call::LOCATE,
        Stage::CountIn { .. } => call::COUNT_IN,
        Stage::GetState { .. } => call::GET_STATE,
        Stage::SetState { .. } => call::SET_STATE,
        Stage::GetPtr { .. } => call::GET_PTR,
        Stage::SetPtr { .. } => call::SET_PTR,
        Stage::SpaceHold { .. } => call::SPACE_HOLD,
        Stage::SpaceRelease { .. } => call::SPACE_RELEASE,
        Stage::ThreadStop { .. } => call::THREAD_STOP,
        Stage::ThreadGo { .. } => call::THREAD_GO,
        Stage::PageGive { .. } => call::PAGE_GIVE,
        Stage::PageTake { .. } => call::PAGE_TAKE,
        Stage::PageRead { .. } => call::PAGE_READ,
        Stage::PageNext { .. } => call::PAGE_NEXT,
        Stage::Wait { .. } => call::WAIT,
        Stage::FaultDone => call::FAULT_DONE,
        Stage::LinkSet { .. } => call::LINK_SET,
        Stage::LinkPark { .. } => call::LINK_PARK,
        Stage::FaultSet { .. } => call::FAULT_SET,
        Stage::FaultPark { .. } => call::FAULT_PARK,
        Stage::HoldSet { .. } => call::HOLD_SET,
        Stage::SpaceMakeHeld { .. } => call::SPACE_MAKE_HELD,
        other => code_of_users_stage(other),
    }
}

/// The code of a list of stages; 0 where no call has them.
#[tactic(auto, unfolding(fk_model::specs::Calls::code_of))]
pub fn code_of(todo: &Todo) -> u64
    ensures { result ≡ calls.code_of (calls.stages_of todo.now) }
{
    match todo {
        Todo::One(stage) => code_of_stage(stage),
        Todo::Two(Stage::ClientOver, Stage::ClientReceive { .. }) => call::CLIENT_OVER_RECEIVE,
        Todo::Two(Stage::Wait { .. }, Stage::ServerReceive { .. }) => call::WAIT_RECEIVE,
        Todo::Two(Stage::ServerOver, Stage::ServerReceive { .. }) => call::SERVER_OVER_RECEIVE,
        Todo::Three(Stage::ClientSend { .. }, Stage::ClientOver, Stage::ClientReceive { .. }) =>
            call::CLIENT_SEND_OVER_RECEIVE,
        Todo::Three(Stage::ServerSend { .. }, Stage::ServerOver, Stage::ServerReceive { .. }) =>
            call::SERVER_SEND_OVER_RECEIVE,
        Todo::Four(
            Stage::Connect { .. },
            Stage::ClientSend { .. },
            Stage::ClientOver,
            Stage::ClientReceive { .. },
        ) => call::CONNECT_SEND_OVER_RECEIVE,
        _ => 0,
    }
}
