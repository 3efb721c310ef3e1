//! Calls as text, by the registers that hold them: each stage that is left by its name, with its arguments as docs/CALLS.md names them.
use crate::sheet::{Sheet, line_at, parted};
use fk_model::{Stage, Todo, call};
use fk_stages::{todo, words};

/// The stages that are left of each call by its code, with an `@` for each argument; an empty line where no call has the code.
const FORMS: &str = "
create s=@ x=@ kind=@
destroy s=@ x=@
rename s=@ x=@ y=@
search s=@ from=@
point s=@ x=@ s2=@ x2=@
clear s=@ x=@
locate reference=@ s=@
count_in base=@ s=@ x=@
get_state s=@ x=@ addr=@
set_state s=@ x=@ addr=@
get_ptr s=@ x=@ field=@ reference=@
set_ptr s=@ x=@ field=@ reference=@
space_hold s=@ x=@
space_release s=@ x=@
thread_stop h=@
thread_go h=@
page_give s=@ page=@ addr=@
page_take s=@ page=@ addr=@
page_read s=@ page=@ addr=@
page_next s=@ from=@
mutex_lock m=@
mutex_trylock m=@
mutex_unlock m=@
cond_wait c=@ m=@
cond_asleep c=@ m=@
cond_signal c=@
cond_broadcast c=@




connect h=@
connect h=@, send addr=@ count=@, over, receive addr=@ room=@
send addr=@ count=@, over, receive addr=@ room=@
over, receive addr=@ room=@
receive addr=@ room=@
send addr=@ count=@
over
disconnect
over_ref reference=@
receive_ref addr=@ room=@ reference=@






wait set=@
wait set=@, receive addr=@ room=@
receive addr=@ room=@
send addr=@ count=@
over
send addr=@ count=@, over, receive addr=@ room=@
over, receive addr=@ room=@
end
fault_done
over_ref reference=@
receive_ref addr=@ room=@ reference=@

link_set s=@ x=@ port=@ server=@
link_park s=@ x=@ port=@
fault_set s=@ x=@ port=@ taker=@
fault_park s=@ x=@ port=@ taken=@
hold_set s=@ x=@ thread=@
space_make_held x=@
";

/// Adds the stages that are left of the call that registers hold, or the first of them alone: its name, and each argument with its register.
/// Where the first is one of later stages, the registers of those before it are none of its arguments.
pub fn push_call(sheet: &Sheet, registers: &[u64; 16], is_first_alone: bool) {
    let code = registers[0];
    let whole = line_at(FORMS, code);
    let form = if is_first_alone {
        parted(whole, ',').0
    } else {
        whole
    };
    if form.is_empty() {
        return sheet.fill(b"no call, @", code, 0, 0);
    }
    let arguments = match code {
        call::CLIENT_SEND_OVER_RECEIVE
        | call::CLIENT_SEND
        | call::SERVER_SEND
        | call::SERVER_SEND_OVER_RECEIVE => { &registers[2..6] }
        call::CLIENT_OVER_RECEIVE
        | call::CLIENT_RECEIVE
        | call::SERVER_RECEIVE
        | call::SERVER_OVER_RECEIVE => { &registers[4..6] }
        call::CLIENT_RECEIVE_REF | call::SERVER_RECEIVE_REF => &registers[4..7],
        call::WAIT_RECEIVE => return sheet.fill_all(
            form,
            &[registers[1], registers[4], registers[5]],
        ),
        _ => &registers[1..6],
    };
    sheet.fill_all(form, arguments);
}

/// The stage that comes next of the call that registers hold, if they hold one.
pub fn first_stage(registers: &[u64; 16]) -> Option<Stage> {
    match todo(registers) {
        Some(
            Todo::One(stage)
            | Todo::Two(stage, _)
            | Todo::Three(stage, _, _)
            | Todo::Four(stage, _, _, _),
        ) => Some(stage),
        None => None,
    }
}

/// Adds a porter's stage.
pub fn push_asked(sheet: &Sheet, stage: &Stage) {
    push_call(sheet, &words(&Todo::One(*stage), &[0; 16]), false);
}
