//! The move of one that was drawn.
use crate::hunt::random::Random;
use fk_first::Core;
use fk_jobs::Porter;
use fk_model::{Ask, Mode, Move, Stage, Who};
use fk_natives::{Native, ask};
use lens_text::next_stage;

/// At most so many threads that wait for the same are passed over for a pick.
const PASSED: u64 = 8;

/// The core of a scenario's run.
pub type Run = Core<Native, Porter>;

/// Who may move next.
#[derive(Clone, Copy)]
pub enum Entrant {
    Thread(Who),
    /// The native server at this place.
    Server(usize),
    /// The porter of the job whose turn it is.
    Job(Who),
}

/// The object before another in the order of spaces and slots, whether there is one or not.
fn before(who: Who) -> Option<Who> {
    if who.slot > 0 {
        return Some(Who {
            space: who.space,
            slot: who.slot - 1,
        });
    }
    if who.space == 0 {
        return None;
    }
    Some(Who {
        space: who.space - 1,
        slot: 255,
    })
}

/// This move, or one that picks another of those who wait for the same behind its pick.
fn varied(core: &Run, random: &mut Random, found: Move) -> Move {
    let mut one = found;
    let mut at = found.pick;
    for _ in 0..random.below(PASSED) {
        let Some(pick) = at else {
            break;
        };
        at = core.next_thread(Some(pick));
        let other = Move {
            who: found.who,
            pick: at,
        };
        if at.is_some() && core.ready(&other) {
            one = other;
        }
    }
    one
}

/// A thread's move, which may turn out not to be ready.
pub fn thread_move(core: &Run, random: &mut Random, who: Who) -> Option<Move> {
    let store = core.kernel().store();
    let own = Some(Move { who, pick: None });
    let Some(thread) = store.thread(who) else {
        return None;
    };
    match thread.mode {
        Mode::Running => own,
        Mode::Calling => match next_stage(store, who) {
            // Its own move, or that of the first behind it that can move.
            Some(Stage::Wait { .. } | Stage::CondSignal { .. }) => {
                match core.kernel().next_after(before(who)) {
                    Some(found) => Some(varied(core, random, found)),
                    None => None,
                }
            }
            Some(_) => own,
            None => None,
        },
        _ => None,
    }
}

/// The act of the native server at a place.
pub fn server_move(core: &Run, random: &mut Random, place: usize) -> Option<Move> {
    let Some((port, native)) = core.services().get(place) else {
        return None;
    };
    let who = *port;
    match ask(native) {
        Some(Ask::Accept) => {
            let pick = core.kernel().ready_accept(who);
            match pick {
                Some(_) => Some(varied(core, random, Move { who, pick })),
                None => None,
            }
        }
        Some(_) => Some(Move { who, pick: None }),
        None => None,
    }
}
