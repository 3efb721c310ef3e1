//! Whether the freezing rule allows a death: what the sweep over all pointers changes.
ghost use Rattle.std.specs.Prelude.{◌≡◌, ◌<◌, ◌↔◌, ◌||◌, ◌∷◌, ℕ, IsTrue, true, false, Some, option_map};
ghost use Rattle.std.specs.List.{list_any};
ghost use Rattle.fk_model.specs.Freezing as freezing;
ghost use Rattle.fk_model.specs.Freezing.{MayKill, fault_lost, lost_with, talk_lost};
ghost use Rattle.fk_model.specs.Holds as held;
ghost use Rattle.fk_model.specs.Places as places;
ghost use Rattle.fk_model.specs.Places.{Path, same_path};
ghost use Rattle.fk_model.specs.Objects.{holds};
ghost use Rattle.fk_model.specs.Searches.{pointers, option_list, fault_pointers, peer_pointer, talk_pointers};
ghost use Rattle.fk_model.specs.World.{set_at};
ghost use Rattle.fk_model.specs.declared.body.Body.TheVariants as bodies;
ghost use Rattle.fk_store.specs.Store.Bodies.{body_by, fault_by, peer_by, pointer_by, talk_by};
ghost use Rattle.fk_store.specs.Store.Paths.{path, place, HasOwnPath};
ghost use Rattle.fk_store.specs.Store.World.{world, IsLive};

use crate::deaths::frozen::{fault_leads_to_frozen, leads_to_frozen, talk_leads_to_frozen};
use fk_model::{Body, Fault, Peer, Ptr, Talk, Thread, Who};
use fk_store::Store;

/// A pointer leads to an object.
fn leads_to(to: Ptr, gone: Who) -> bool
    ensures { (p : ℕ → Path) → HasOwnPath p gone → result ≡ places.leads_to (place p gone) (pointer_by p to) }
{
    match to {
        Ptr::At(who) => who == gone,
        Ptr::Null | Ptr::Dead => false,
    }
}

/// A peer is a thread.
fn is_peer(peer: Option<Peer>, gone: Who) -> bool
    ensures { (p : ℕ → Path) → HasOwnPath p gone →
        result ≡ list_any (places.leads_to (place p gone)) (option_list peer_pointer (option_map (peer_by p) peer)) }
{
    match peer {
        Some(Peer::Thread(who)) => who == gone,
        Some(Peer::Service | Peer::Parked) | None => false,
    }
}

/// A pointer of a talk leads to an object, so that it ends with this.
fn talk_ends(talk: Option<Talk>, gone: Who) -> bool
    ensures { (p : ℕ → Path) → HasOwnPath p gone →
        result ≡ list_any (places.leads_to (place p gone)) (option_list talk_pointers (option_map (talk_by p) talk)) }
{
    match talk {
        Some(talk) => talk.port == gone || is_peer(Some(talk.peer), gone),
        None => false,
    }
}

/// A pointer of a fault leads to an object.
fn fault_leads_to(fault: Option<Fault>, gone: Who) -> bool
    ensures { (p : ℕ → Path) → HasOwnPath p gone →
        result ≡ list_any (places.leads_to (place p gone)) (option_list fault_pointers (option_map (fault_by p) fault)) }
{
    match fault {
        Some(fault) => fault.port == gone || is_peer(fault.taker, gone),
        None => false,
    }
}

/// A pointer of a thread's talk or fault leads to an object.
fn thread_leads_to(thread: &Thread, gone: Who) -> bool
    ensures { (p : ℕ → Path) → HasOwnPath p gone →
        result ≡ list_any (places.leads_to (place p gone)) (pointers (body_by p (bodies.Thread thread.now))) }
{
    talk_ends(thread.talk, gone) || fault_leads_to(thread.fault, gone)
}

/// A port at a name, in the set in this slot of its space, is in a set.
fn is_member(port: Who, set: Option<u8>, gone: Who) -> bool
    ensures { (p : ℕ → Path) → HasOwnPath p gone → result ≡ holds (λ k. same_path (set_at (place p port) k) (place p gone)) set }
{
    let space = port.space;
    match set {
        Some(slot) => Who { space, slot } == gone,
        None => false,
    }
}

/// An object has a pointer to one that goes, or is a port in a set that goes.
pub fn is_swept(gone: Who, who: Who, body: &Body) -> bool
    ensures { (p : ℕ → Path) → HasOwnPath p gone → result ≡ freezing.is_swept (place p gone) (place p who) (Some (body_by p body.now)) }
{
    match body {
        Body::Mapping { region: to, .. }
        | Body::Region { keeper: to, .. }
        | Body::Reference { to } => leads_to(*to, gone),
        Body::Space {
            holder: Some(holder),
            ..
        } => *holder == gone,
        Body::Port { set, .. } => is_member(who, *set, gone),
        Body::Thread(thread) => thread_leads_to(thread, gone),
        Body::Mutex { .. } | Body::Cond | Body::Portset | Body::Space { holder: None, .. } => false,
    }
}

/// A talk ends with an object and leads to what is frozen for a mover.
fn talk_loses_frozen(store: &Store, me: Who, gone: Who, talk: Option<Talk>) -> bool
    requires apart { HasOwnPath (path store.now) gone }
    ensures { result ≡ list_any (held.leads_to_frozen (world store.now) (place (path store.now) me))
        (option_list (talk_lost (place (path store.now) gone)) (option_map (talk_by (path store.now)) talk)) }
{
    talk_ends(talk, gone) && talk_leads_to_frozen(store, me, talk)
}

/// A fault ends with its port and leads to what is frozen for a mover.
fn fault_loses_frozen(store: &Store, me: Who, gone: Who, fault: Option<Fault>) -> bool
    requires apart { HasOwnPath (path store.now) gone }
    ensures { result ≡ list_any (held.leads_to_frozen (world store.now) (place (path store.now) me))
        (option_list (fault_lost (place (path store.now) gone)) (option_map (fault_by (path store.now)) fault)) }
{
    match fault {
        Some(lost) => lost.port == gone && fault_leads_to_frozen(store, me, fault),
        None => false,
    }
}

/// What ends with an object of another one leads to what is frozen for a mover.
fn loses_frozen(store: &Store, me: Who, gone: Who, body: &Body) -> bool
    requires apart { HasOwnPath (path store.now) gone }
    ensures { result ≡ list_any (held.leads_to_frozen (world store.now) (place (path store.now) me))
        (lost_with (place (path store.now) gone) (Some (body_by (path store.now) body.now))) }
{
    match body {
        Body::Thread(thread) => {
            talk_loses_frozen(store, me, gone, thread.talk)
                || fault_loses_frozen(store, me, gone, thread.fault)
        }
        Body::Mutex { .. }
        | Body::Cond
        | Body::Mapping { .. }
        | Body::Region { .. }
        | Body::Port { .. }
        | Body::Portset
        | Body::Space { .. }
        | Body::Reference { .. } => false,
    }
}

/// The freezing rule allows a mover to change an object as the death of another changes it.
fn may_be_swept(store: &Store, me: Who, gone: Who, who: Who) -> bool
    requires apart { HasOwnPath (path store.now) gone }
    ensures { result ≡ freezing.may_be_swept (world store.now) (place (path store.now) me) (place (path store.now) gone) (place (path store.now) who) }
{
    match store.at(who) {
        Some(body) => {
            !is_swept(gone, who, body)
                || (!store.frozen_for(me, who) && !loses_frozen(store, me, gone, body))
        }
        None => true,
    }
}

/// It allows what the death of an object changes in what stands in its space.
fn may_space_be_swept(store: &Store, me: Who, gone: Who) -> bool
    requires apart { HasOwnPath (path store.now) gone }
    ensures allows { result ≡ true → (k : ℕ) → k < 256 →
        freezing.may_be_swept (world store.now) (place (path store.now) me) (place (path store.now) gone) (k ∷ path store.now gone.space) ≡ true }
    ensures forbids { result ≡ false → (q : Path)
        × (freezing.may_be_swept (world store.now) (place (path store.now) me) (place (path store.now) gone) q ≡ false) }
{
    let space = gone.space;
    for slot in 0..256u16 {
        let slot = slot as u8;
        if !may_be_swept(store, me, gone, Who { space, slot }) {
            return false;
        }
    }
    true
}

/// It allows all that the death of an object changes in others. It looks at what stands in the
/// object's space, and at those of which a pointer leads there.
fn may_all_be_swept(store: &Store, me: Who, gone: Who) -> bool
    requires apart { HasOwnPath (path store.now) gone }
    ensures { IsTrue result ↔ ((q : Path) →
        freezing.may_be_swept (world store.now) (place (path store.now) me) (place (path store.now) gone) q ≡ true) }
{
    if !store.is_any_held() {
        return true;
    }
    store.slots();
    if !may_space_be_swept(store, me, gone) {
        return false;
    }
    let mut leaders = store.leaders(gone);
    while let Some(who) = leaders.next() {
        if !may_be_swept(store, me, gone, who) {
            return false;
        }
    }
    leaders.are_all() || may_each_be_swept(store, me, gone)
}

/// It allows all that the death of an object changes in others, by a look at all objects: where it isn't known who leads there.
fn may_each_be_swept(store: &Store, me: Who, gone: Who) -> bool
    requires apart { HasOwnPath (path store.now) gone }
    ensures { IsTrue result ↔ ((q : Path) →
        freezing.may_be_swept (world store.now) (place (path store.now) me) (place (path store.now) gone) q ≡ true) }
{
    let mut at = store.after(None);
    while let Some(who) = at {
        if !may_be_swept(store, me, gone, who) {
            return false;
        }
        at = store.after(Some(who));
    }
    true
}

/// Whether the freezing rule allows a mover to destroy an object.
pub fn may_destroy(store: &Store, me: Who, gone: Who) -> bool
    requires there { IsLive store.now gone }
    ensures { IsTrue result ↔ MayKill (world store.now) (place (path store.now) me) (place (path store.now) gone) }
{
    match store.at(gone) {
        Some(body) => {
            !store.frozen_for(me, gone)
                && !leads_to_frozen(store, me, body)
                && may_all_be_swept(store, me, gone)
        }
        None => unreachable!(),
    }
}
