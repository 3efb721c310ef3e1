//! What native servers are told.
use fk_model::Who;
use fk_natives::{Native, Side};
use fk_responders::{rule_name, words_of};
use fk_store::Store;
use lens_text::{Sheet, push_between};

/// What a native server is at: whose turn it is, how many words it was sent, and how many it has still to give.
#[derive(Clone, Copy)]
pub struct ServerState {
    pub side: Side,
    sent: usize,
    left: u8,
}

/// What a native server is at.
pub fn state_of(native: &Native) -> ServerState {
    match native {
        Native::Console(console) => ServerState {
            side: console.side,
            sent: console.words.len(),
            left: 0,
        },
        Native::Server(server) => ServerState {
            side: server.side,
            sent: words_of(&server.request).len(),
            left: server.left.len,
        },
    }
}

/// Adds whose turn it is, where it was another's before.
fn push_turn(sheet: &Sheet, was: Side, is: Side) {
    match is {
        Side::Idle => sheet.put(b" has lost its client"),
        Side::Client => match was {
            Side::Idle => sheet.put(b" has a client, at the client's turn"),
            _ => sheet.put(b" has handed over"),
        },
        Side::Own => match was {
            Side::Idle => sheet.put(b" has a client, at its own turn"),
            _ => sheet.put(b" has the turn"),
        },
    }
}

/// Adds what a native server was told since it was at something else, where it was told something, behind its port, its name and the news of
/// others that begin at this place: the words that came to it, how many it gave; whose turn it is, where that has changed.
pub fn push_news(
    sheet: &Sheet,
    start: usize,
    store: &Store,
    port: Who,
    native: &Native,
    was: &ServerState,
) {
    let is = state_of(native);
    let has_words = is.sent > was.sent;
    let given = was.left.saturating_sub(is.left) as u64;
    let is_other_turn = is.side as u8 != was.side as u8;
    if has_words | (given > 0) | is_other_turn {
        if sheet.len() > start {
            sheet.put(b"; ");
        }
        push_between(sheet, store, b"", port, b" ");
        let words = match native {
            Native::Console(console) => {
                sheet.add(console.alias.as_str());
                console.words.as_slice()
            }
            Native::Server(server) => {
                sheet.add(rule_name(server.rule));
                words_of(&server.request)
            }
        };
        if has_words {
            sheet.put(b" words");
            for word in words.get(was.sent..).unwrap_or(&[]) {
                sheet.fill(b" @", *word, 0, 0);
            }
        } else if given > 0 {
            sheet.fill(b" gave @ words", given, 0, 0);
        }
        if is_other_turn {
            push_turn(sheet, was.side, is.side);
        }
    }
}
