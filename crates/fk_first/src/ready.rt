//! Which threads have a ready move.
use crate::seen::{Job, Ready};
use fk_core::{Core, Kernel};
use fk_jobs::Porter;
use fk_model::Move;
use fk_natives::Native;
use std::alloc::{AllocError, Global};
use std::collections::BTreeMap;

/// The user threads that have a ready move.
fn ready_users(alloc: Global, kernel: &Kernel) -> Result<Ready, AllocError> {
    let mut ready = BTreeMap::new(alloc);
    let mut last = None;
    for _ in 0..u64::MAX {
        let Some(one) = kernel.next_after(last) else {
            break;
        };
        // Behind the last one the search begins anew from the first.
        if ready.contains_key(&one.who) {
            break;
        }
        ready.insert(one.who, one.pick)?;
        last = Some(one.who);
    }
    Ok(ready)
}

/// The threads that have a ready move: users, and the porter whose job is due and can go on.
///
/// # Errors
///
/// There is no memory for the list.
pub fn ready_threads(
    alloc: Global,
    core: &Core<Native, Porter>,
    job: Option<Job>,
) -> Result<Ready, AllocError> {
    let mut ready = ready_users(alloc, core.kernel())?;
    if let Some(Job { porter, .. }) = job {
        let call = Move {
            who: porter,
            pick: None,
        };
        if core.ready(&call) {
            ready.insert(porter, None)?;
        }
    }
    Ok(ready)
}
