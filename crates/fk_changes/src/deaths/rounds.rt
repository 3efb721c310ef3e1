//! The calls that end with a port, client by client.
ghost use Rattle.std.specs.Prelude.{◌≡◌, [], true, false, option_map};
ghost use Rattle.std.specs.List.{flat_map};
ghost use Rattle.fk_model.specs.ObjectRows as rows;
ghost use Rattle.fk_model.specs.Places.{Path};
ghost use Rattle.fk_model.specs.Searches.{clients_at};
ghost use Rattle.fk_model.specs.Valid.{IsValid, kind_there};
ghost use Rattle.fk_store.specs.Store.Paths.{path, place, HasOwnPath};
ghost use Rattle.fk_store.specs.Store.World.{world};
ghost use Rattle.fk_changes.specs.Deaths.Ends.{ended_where, is_in_list, ends_led, ends_at, HaveEnded};
ghost use Rattle.fk_changes.specs.Deaths.Lefts.{IfNobody};

use crate::deaths::deaths::{end_client, server_of, talk_of};
use crate::deaths::ends::is_at_talk;
use fk_model::{Turn, Who};
use fk_store::Store;

/// Who is still to be looked at.
pub enum Left {
    /// A client at whose talk a call ends.
    Client(Who),
    /// No call ends any more.
    Nobody,
    /// It isn't known.
    Unknown,
}

/// Ends the calls that end with a port, of one client after another, as long as they aren't many.
/// False where it isn't known whether all have ended.
pub fn end_found(store: &mut Store, port: Who) -> bool
    requires apart { HasOwnPath (path store.old) port }
    requires valid { IsValid (world store.old) }
    ensures ended { HaveEnded (world store.old) (world store.new) (place (path store.old) port) }
    ensures all { result ≡ true → world store.new ≡ ended_where (λ q. is_in_list q
        (flat_map (rows.ends_of_client (world store.old)) (clients_at (world store.old) (place (path store.old) port)))) (world store.old) }
    ensures kinds { kind_there (world store.new) ≡ kind_there (world store.old) }
    ensures paths { path store.new ≡ path store.old }
{
    let _below_2_32 = store.next_birth();
    // A walk along the port's ring can't go on while the store changes, so each client is a walk of its own. More than
    // a few are left to the scan of all objects.
    for _round in 0..64u8 {
        match client_left(store, port) {
            Left::Client(who) => end_client(store, who, port),
            Left::Nobody => return true,
            Left::Unknown => return false,
        }
    }
    false
}

/// A client at a port at whose talk a call ends with the port.
fn client_left(store: &Store, port: Who) -> Left
    requires apart { HasOwnPath (path store.now) port }
    ensures nobody { IfNobody result ((x : Path) → ends_at (world store.now) (place (path store.now) port) x ≡ []) }
{
    let mut leaders = store.leaders(port);
    while let Some(who) = leaders.next() {
        if is_left(store, who, port) {
            return Left::Client(who);
        }
    }
    if leaders.are_all() {
        Left::Nobody
    } else {
        Left::Unknown
    }
}

/// A call ends at the talk of a client at a port.
fn is_left(store: &Store, who: Who, port: Who) -> bool
    requires apart { HasOwnPath (path store.now) port }
    ensures { result ≡ false → ends_at (world store.now) (place (path store.now) port) (place (path store.now) who) ≡ [] }
{
    if let Some(talk) = talk_of(store, who) {
        if talk.port == port {
            return is_any_at_talk(store, Some(who), Turn::Client)
                || is_any_at_talk(store, server_of(&talk), Turn::Server);
        }
    }
    false
}

/// The call of a thread ends with a talk, if there is a thread.
fn is_any_at_talk(store: &Store, who: Option<Who>, side: Turn) -> bool
    ensures { result ≡ false → ends_led (world store.now) side (option_map (place (path store.now)) who) ≡ [] }
{
    match who {
        Some(who) => is_at_talk(store, who, side),
        None => false,
    }
}
