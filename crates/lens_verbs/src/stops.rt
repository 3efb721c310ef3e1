//! What is wrong with a trace, where a run stops at one of its lines.
use fk_first::Stop;
use lens_text::{Asked, Sheet, Verb, given};

/// That a trace has too few moves.
const MORE: &str = ".trc: expected @ moves or more";

/// That a file is no trace.
const FIRST: &str = ".trc, line 1: expected fluke-trace 1";

/// That a line can't be read as a move.
const MOVE: &str =
    ".trc, line @: expected a move, as 3.0 or 3.0 5.1: the birth number of a space, a dot, a slot, and so a pick where it has one";

/// That no further move may be made.
const END: &str = ".trc, line @: expected the end, since the scenario's budget is used";

/// That a move isn't ready.
const READY: &str =
    ".trc, line @: expected a move that is ready; lens why with @ says why it isn't";

/// Says what is wrong where a run by a trace stopped before what is asked for. The line of the first move is the second.
pub fn check_stop(sheet: &Sheet, asked: &Asked<'_>, stop: Stop) {
    let (form, index) = match (stop, asked.verb) {
        (Stop::Ended, _) if asked.end < u64::MAX => {
            return given(sheet, asked.name, MORE, asked.end, 0, "");
        }
        (Stop::Enough | Stop::Ended, _) | (Stop::NoTrace, Verb::First) => return,
        (Stop::Unready { .. } | Stop::Budget { .. }, Verb::Page | Verb::Sums) => return,
        (Stop::Unready { index, .. }, Verb::Why) if index == asked.end => return,
        (Stop::NoTrace, _) => (FIRST, 0),
        (Stop::Misspelled { index }, _) => (MOVE, index),
        (Stop::Budget { index }, _) => (END, index),
        (Stop::Unready { index, .. }, _) => (READY, index),
    };
    let line = index.saturating_add(2);
    given(sheet, asked.name, form, line, index, "");
}
