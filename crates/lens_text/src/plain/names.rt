//! The names of calls and of statuses, and their numbers.
use crate::sheet::number_of;
use crate::statuses::STATUSES;

/// The calls by their codes, by the names that docs/CALLS.md has; an empty line where no call has the code.
const CALLS: &str = "
create
destroy
rename
search
point
clear
locate
count_in
get_state
set_state
get_ptr
set_ptr
space_hold
space_release
thread_stop
thread_go
page_give
page_take
page_read
page_next
mutex_lock
mutex_trylock
mutex_unlock
cond_wait
cond_asleep
cond_signal
cond_broadcast




connect
connect_send_over_receive
client_send_over_receive
client_over_receive
client_receive
client_send
client_over
disconnect
client_over_ref
client_receive_ref






wait
wait_receive
server_receive
server_send
server_over
server_send_over_receive
server_over_receive
server_end
fault_done
server_over_ref
server_receive_ref

link_set
link_park
fault_set
fault_park
hold_set
space_make_held
";

/// The number of the call or the status with this name.
pub fn number_named(name: &str) -> Option<u64> {
    if name.is_empty() {
        return None;
    }
    number_of(CALLS, name).or(number_of(STATUSES, name))
}
