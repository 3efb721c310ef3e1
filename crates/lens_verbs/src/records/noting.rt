//! What a run makes its native servers note.
use crate::records::notes::{said, turned};
use crate::steps::{Keeps, Steps};
use fk_first::Seen;
use fk_model::{Move, Who};
use fk_natives::{Native, Server, Side};
use fk_responders::Note;
use fk_scenario::entries::{ServerEntry, ServiceSpec};
use lens_text::{Noted, Sheet, parted};

/// A native server behind a move: its port, and whose turn it was before the move.
#[derive(Clone, Copy)]
struct At<'a> {
    port: Who,
    was: Side,
    server: &'a Server,
}

/// Keeps what a run makes its native servers note, each note with the move that made it.
#[derive(Drop)]
pub struct Noting {
    /// Of each server that is no console, in the order of the file.
    pub noted: Vec<Noted>,
}

/// The path of a port, whose slots go from the root down.
fn path_of(sheet: &Sheet, slots: &[u8]) -> String {
    let path = Sheet::new(sheet.alloc);
    for slot in slots {
        path.fill(b"/@", *slot as u64, 0, 0);
    }
    sheet.taken(path)
}

impl Noting {
    /// It has seen no move yet of a scenario with these servers. Where there is no memory for what is noted of them, the sheet notes that.
    pub fn new(sheet: &Sheet, servers: &[ServerEntry]) -> Noting {
        let mut noted = Vec::new(sheet.alloc);
        for server in servers {
            if let ServiceSpec::Listed { .. } = server.service {
                let one = Noted {
                    port: path_of(sheet, server.port.as_slice()),
                    lines: String::new(sheet.alloc),
                    has_replies: false,
                    has_words: false,
                };
                if noted.push(one).is_err() {
                    sheet.lacks();
                }
            }
        }
        Noting { noted }
    }
}

/// Keeps all that a move has made a server note: that it stands on another side than before, the words that the mover has sent there, the reply that it has
/// computed where its own turn has begun.
fn keep_all(
    sheet: &Sheet,
    noted: &mut Noted,
    steps: &Steps,
    seen: &Seen<'_>,
    one: &Move,
    at: At<'_>,
) {
    let is = at.server.side;
    let turn = turned(seen.store, at.port, at.was, is);
    let sent = match steps.kept.threads.first() {
        Some((who, before)) if steps.sends && steps.other == Some(at.port) => {
            said(seen.store, *who, before)
        }
        _ => None,
    };
    let has_replied = matches!(is, Side::Own) && !matches!(at.was, Side::Own);
    if turn.is_none() && sent.is_none() && !has_replied {
        return;
    }
    let line = Sheet::new(sheet.alloc);
    steps.after(&line, seen, one);
    let line = sheet.taken(line);
    let by = parted(line.as_str(), '\t').1;
    if let Some(note) = turn {
        noted.add(sheet, &note, by);
    }
    if let Some(note) = sent {
        noted.add(sheet, &note, by);
    }
    if has_replied {
        noted.add(sheet, &Note::Reply(at.server.left), by);
    }
}

impl Keeps for Noting {
    fn keep(&mut self, sheet: &Sheet, steps: &Steps, seen: &Seen<'_>, one: &Move) {
        let mut place = 0usize;
        for index in 0..seen.services.len() {
            if let Some((port, Native::Server(server))) = seen.services.get(index) {
                let was = match steps.servers.get(index) {
                    Some(state) => state.side,
                    None => Side::Idle,
                };
                if let Some(noted) = self.noted.get_mut(place) {
                    let at = At {
                        port: *port,
                        was,
                        server,
                    };
                    keep_all(sheet, noted, steps, seen, one, at);
                }
                place = place.saturating_add(1);
            }
        }
    }
}
