//! Destroying an object, with all that ends with it.
ghost use Rattle.std.specs.Prelude.{◌≡◌, ◌||◌, ◌++◌, ℕ, Bool, false, option_map};
ghost use Rattle.std.specs.List.{flat_map};
ghost use Rattle.fk_model.specs.ObjectRows as rows;
ghost use Rattle.fk_model.specs.Places.{Path};
ghost use Rattle.fk_model.specs.Searches.{client_at, clients_at, has_residents, talk_at};
ghost use Rattle.fk_model.specs.Talks.{served_end};
ghost use Rattle.fk_model.specs.Valid.{IsValid, kind_there};
ghost use Rattle.fk_model.specs.World.{World, apply_all};
ghost use Rattle.fk_model.specs.declared.body.Body.TheVariants as bodies;
ghost use Rattle.fk_model.specs.declared.thread.Turn.TheVariants as turns;
ghost use Rattle.fk_store.specs.Store.Bodies.{talk_by, thread_by};
ghost use Rattle.fk_store.specs.Store.Contents.{Contents};
ghost use Rattle.fk_store.specs.Store.Named.{Each, OnNamed, OnTalk};
ghost use Rattle.fk_store.specs.Store.Paths.{path, place, HasOwnPath};
ghost use Rattle.fk_store.specs.Store.World.{world, IsLive};
ghost use Rattle.fk_changes.specs.Deaths.Ends.{ended_where, is_in_list, ends_led, ends_at};
ghost use Rattle.fk_changes.specs.Deaths.Told.{told_at};

use crate::deaths::ends::end_each;
use crate::deaths::rounds::end_found;
use fk_model::{Body, Peer, Talk, Thread, Turn, Who};
use fk_store::Store;

/// The server of a talk, if it is a thread.
pub fn server_of(talk: &Talk) -> Option<Who>
    ensures { (p : ℕ → Path) (w : World) → ends_led w turns.Server (option_map (place p) result) ≡ served_end w (talk_by p talk.now).peer }
{
    match talk.peer {
        Peer::Thread(server) => Some(server),
        Peer::Service | Peer::Parked => None,
    }
}

/// The talk of a thread as a client.
pub fn talk_of(store: &Store, who: Who) -> Option<Talk>
    ensures talk { option_map (talk_by (path store.now)) result ≡ talk_at (world store.now) (place (path store.now) who) }
    ensures named { Each (OnTalk (IsLive store.now)) result }
{
    match store.thread(who) {
        Some(thread) => thread.talk,
        None => None,
    }
}

/// The server of the talk of a thread as a client, if it is a thread.
fn server_at(store: &Store, who: Who) -> Option<Who>
    ensures { ends_led (world store.now) turns.Server (option_map (place (path store.now)) result)
        ≡ rows.ends_on (world store.now) (place (path store.now) who) turns.Client }
{
    match talk_of(store, who) {
        Some(talk) => server_of(&talk),
        None => None,
    }
}

/// Ends the calls that end with a thread: those of the other ends of its talks.
fn end_with_thread(store: &mut Store, who: Who)
    requires valid { IsValid (world store.old) }
    ensures ends { let x = place (path store.old) who in world store.new ≡ ended_where
        (λ q. is_in_list q (rows.ends_on (world store.old) x turns.Client ++ rows.ends_on (world store.old) x turns.Server)) (world store.old) }
    ensures kinds { kind_there (world store.new) ≡ kind_there (world store.old) }
    ensures paths { path store.new ≡ path store.old }
{
    let server = server_at(store, who);
    let client = store.client_of(who);
    end_each(store, server, Turn::Server);
    end_each(store, client, Turn::Client);
}

/// Ends the calls of both ends of the talk of a thread, if it is a client at a port.
pub fn end_client(store: &mut Store, who: Who, port: Who)
    requires apart { HasOwnPath (path store.old) port }
    ensures ends { (test : Path → Bool) (w : World) → world store.old ≡ ended_where test w → world store.new
        ≡ ended_where (λ q. test q || is_in_list q (ends_at w (place (path store.old) port) (place (path store.old) who))) w }
    ensures kinds { kind_there (world store.new) ≡ kind_there (world store.old) }
    ensures paths { path store.new ≡ path store.old }
{
    if let Some(talk) = talk_of(store, who) {
        if talk.port == port {
            let server = server_of(&talk);
            end_each(store, Some(who), Turn::Client);
            end_each(store, server, Turn::Server);
        }
    }
}

/// Ends the calls that end with a port: those of both ends of each talk at it. It looks at those of
/// which a pointer leads there, and at all objects where very many calls end.
fn end_with_port(store: &mut Store, port: Who)
    requires apart { HasOwnPath (path store.old) port }
    requires valid { IsValid (world store.old) }
    ensures ends { let x = place (path store.old) port in world store.new ≡ ended_where
        (λ q. is_in_list q (flat_map (rows.ends_of_client (world store.old)) (clients_at (world store.old) x))) (world store.old) }
    ensures kinds { kind_there (world store.new) ≡ kind_there (world store.old) }
    ensures paths { path store.new ≡ path store.old }
{
    let _below_2_32 = store.next_birth();
    // This comes before the death, after which the port has no clients, and takes no memory for a list of them.
    if end_found(store, port) {
        return;
    }
    let mut at = store.after(None);
    while let Some(who) = at {
        end_client(store, who, port);
        at = store.after(Some(who));
    }
}

/// Ends the calls that end with an object.
fn end_with(store: &mut Store, who: Who)
    requires there { IsLive store.old who }
    requires valid { IsValid (world store.old) }
    ensures ends { let x = place (path store.old) who in world store.new ≡ ended_where
        (λ q. is_in_list q (rows.ends_with (world store.old) x ((world store.old).body x))) (world store.old) }
    ensures kinds { kind_there (world store.new) ≡ kind_there (world store.old) }
    ensures paths { path store.new ≡ path store.old }
{
    match store.at(who) {
        Some(Body::Thread(_)) => end_with_thread(store, who),
        Some(Body::Port { .. }) => end_with_port(store, who),
        Some(
            Body::Mutex { .. }
            | Body::Cond
            | Body::Mapping { .. }
            | Body::Region { .. }
            | Body::Portset
            | Body::Space { .. }
            | Body::Reference { .. },
        )
        | None => {}
    }
}

/// Destroys an object in which nothing stands, with its pages. Pointers to it are dead, what it held
/// is free, its talks and its port's talks and faults end, and with a talk the calls of its ends
/// that are at a Send, an Over or a Receive of it.
pub fn destroy(store: &mut Store, who: Who)
    requires there { IsLive store.old who }
    requires empty { has_residents (world store.old) (place (path store.old) who) ≡ false }
    requires valid { IsValid (world store.old) }
    ensures world { world store.new ≡ apply_all (rows.kills (world store.old) (place (path store.old) who)) (world store.old) }
    ensures places { (other : Who) → IsLive store.old other → place (path store.new) other ≡ place (path store.old) other }
{
    end_with(store, who);
    store.kill(who);
}

/// The port whose native server loses its client, or itself, with an object.
pub fn told_port(store: &Store, who: Who) -> Option<Who>
    ensures told { let x = place (path store.now) who in
        rows.told_with (world store.now) x ((world store.now).body x) ≡ told_at (option_map (place (path store.now)) result) }
    ensures live { Each (IsLive store.now) result }
{
    match store.at(who) {
        Some(Body::Thread(thread)) => service_of(thread),
        Some(Body::Port { .. }) => port_with_client(store, who),
        Some(
            Body::Mutex { .. }
            | Body::Cond
            | Body::Mapping { .. }
            | Body::Region { .. }
            | Body::Portset
            | Body::Space { .. }
            | Body::Reference { .. },
        )
        | None => None,
    }
}

/// The port of a thread's talk whose native server serves it.
fn service_of(thread: &Thread) -> Option<Who>
    ensures told { (p : ℕ → Path) → rows.told_client (thread_by p thread.now).talk ≡ told_at (option_map (place p) result) }
    ensures named { (m : Contents) → OnNamed (IsLive m) (bodies.Thread thread.now) → Each (IsLive m) result }
{
    let talk = thread.talk?;
    match talk.peer {
        Peer::Service => Some(talk.port),
        Peer::Thread(_) | Peer::Parked => None,
    }
}

/// The port itself, if its native server has a client.
fn port_with_client(store: &Store, port: Who) -> Option<Who>
    requires { IsLive store.now port }
    ensures told { rows.told_port (place (path store.now) port) (client_at (world store.now) (place (path store.now) port))
        ≡ told_at (option_map (place (path store.now)) result) }
    ensures live { Each (IsLive store.now) result }
{
    match store.client_at(port) {
        Some(_) => Some(port),
        None => None,
    }
}
