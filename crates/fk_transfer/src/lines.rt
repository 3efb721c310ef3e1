//! The talk in which a stage acts, as one of its sides sees it.
ghost use Rattle.std.specs.Prelude.{◌≡◌, IfOk, IfSome, option_map};
ghost use Rattle.fk_model.specs.Objects.Peer.{Server};
ghost use Rattle.fk_model.specs.Places.Ptr.{At};
ghost use Rattle.fk_model.specs.Searches.{talk_at};
ghost use Rattle.fk_model.specs.Talks as talks;
ghost use Rattle.fk_model.specs.TransferRows as rows;
ghost use Rattle.fk_model.specs.Valid.{IsValid};
ghost use Rattle.fk_model.specs.declared.thread.Turn.TheVariants as turns;
ghost use Rattle.fk_store.specs.Store.Paths.{path, place};
ghost use Rattle.fk_store.specs.Store.World.{world, IsLive};
ghost use Rattle.fk_plans.specs.Plans.Verdicts.{mapped};
ghost use Rattle.fk_transfer.specs.Lines.{line_by};

use fk_model::status::{NOTLINKED, WRONGTURN};
use fk_model::{Peer, Talk, Turn, Who};
use fk_store::Store;

/// A talk, its client, and who is at its other end.
#[derive(Clone, Copy)]
pub struct Line {
    pub client: Who,
    pub talk: Talk,
    pub other: Peer,
}

/// The other side of a talk.
pub fn other_side(side: Turn) -> Turn
    ensures { result ≡ talks.other_side side }
{
    match side {
        Turn::Client => Turn::Server,
        Turn::Server => Turn::Client,
    }
}

/// Two sides are one.
fn is_same_side(a: Turn, b: Turn) -> bool
    ensures { result ≡ talks.same_side a b }
{
    match (a, b) {
        (Turn::Client, Turn::Client) | (Turn::Server, Turn::Server) => true,
        (Turn::Client, Turn::Server) | (Turn::Server, Turn::Client) => false,
    }
}

/// The talk of a thread as a client.
#[tactic(auto, unfolding(fk_model::specs::Talks::line))]
fn client_line(store: &Store, client: Who) -> Option<Line>
    ensures line { option_map (line_by (path store.now)) result ≡ talks.line (world store.now) (place (path store.now) client) turns.Client }
    ensures port { IfSome result (λ line. IsLive store.now line.talk.port) }
{
    let Some(thread) = store.thread(client) else {
        return None;
    };
    match thread.talk {
        None => None,
        Some(talk) => Some(Line {
            client,
            talk,
            other: talk.peer,
        }),
    }
}

/// The talk of a client as its server sees it.
fn at_client(store: &Store, client: Who) -> Option<Line>
    ensures line { option_map (line_by (path store.now)) result
        ≡ talks.line_from (place (path store.now) client) (λ talk. Server (At (place (path store.now) client)))
        (talk_at (world store.now) (place (path store.now) client)) }
    ensures port { IfSome result (λ line. IsLive store.now line.talk.port) }
{
    let Some(thread) = store.thread(client) else {
        return None;
    };
    match thread.talk {
        None => None,
        Some(talk) => Some(Line {
            client,
            talk,
            other: Peer::Thread(client),
        }),
    }
}

/// The talk that a thread serves.
#[tactic(auto, unfolding(fk_model::specs::Talks::line))]
fn server_line(store: &Store, server: Who) -> Option<Line>
    requires valid { IsValid (world store.now) }
    ensures line { option_map (line_by (path store.now)) result ≡ talks.line (world store.now) (place (path store.now) server) turns.Server }
    ensures port { IfSome result (λ line. IsLive store.now line.talk.port) }
{
    match store.client_of(server) {
        None => None,
        Some(client) => at_client(store, client),
    }
}

/// The talk in which a thread acts on a side.
#[inline(always)]
fn line_of(store: &Store, who: Who, side: Turn) -> Option<Line>
    requires valid { IsValid (world store.now) }
    ensures line { option_map (line_by (path store.now)) result ≡ talks.line (world store.now) (place (path store.now) who) side }
    ensures port { IfSome result (λ line. IsLive store.now line.talk.port) }
{
    match side {
        Turn::Client => client_line(store, who),
        Turn::Server => server_line(store, who),
    }
}

/// The talk in which a thread acts on a side, where it is the turn of this side or of the other.
/// Without a talk it is refused NOTLINKED, at the other turn WRONGTURN.
///
/// # Errors
///
/// NOTLINKED: it has no such talk. WRONGTURN: it is the other turn.
#[inline(always)]
pub fn in_turn(store: &Store, who: Who, side: Turn, turn: Turn) -> Result<Line, u8>
    requires valid { IsValid (world store.now) }
    ensures line { mapped (line_by (path store.now)) result ≡ rows.in_turn (world store.now) (place (path store.now) who) side turn }
    ensures port { IfOk result (λ line. IsLive store.now line.talk.port) }
{
    match line_of(store, who, side) {
        None => Err(NOTLINKED),
        Some(line) => {
            if is_same_side(line.talk.turn, turn) {
                Ok(line)
            } else {
                Err(WRONGTURN)
            }
        }
    }
}
