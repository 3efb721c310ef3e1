//! Pointers as a subtree that is seen alone shows them.
ghost use Rattle.std.specs.Prelude.{◌≡◌, ◌++◌, ◌∷◌, [], IfOk, option_map};
ghost use Rattle.fk_model.specs.Cut.{cut_peer, is_out, ports_of};
ghost use Rattle.fk_model.specs.Places.{Path};
ghost use Rattle.fk_model.specs.Places.Ptr.{At};
ghost use Rattle.fk_model.specs.declared.thread.Fault.{Fault as StoredFault};
ghost use Rattle.fk_model.specs.declared.thread.Talk.{Talk as StoredTalk};
ghost use Rattle.fk_store.specs.Store.Bodies.{peer_by, pointer_by};
ghost use Rattle.fk_store.specs.Store.Named.{Each, OnFault, OnNamed, OnPeer, OnPointer, OnTalk};
ghost use Rattle.fk_store.specs.Store.Paths.{path, HasOwnPath};
ghost use Rattle.fk_store.specs.Store.World.{world, place_of, IsLive};
ghost use Rattle.fk_cut.specs.Closing.Walks.{seen, seen_body, held_by};
ghost use Rattle.fk_cut.specs.Cuts.Shown as definition;

use crate::closing::{is_inside, is_nesters_port, path_below};
use fk_model::{Body, Fault, List, NoMemory, Peer, Ptr, Talk, Thread, Who};
use fk_store::Store;
use std::alloc::Global;

/// A pointer as a subtree that is seen alone shows it.
#[derive(Drop)]
pub enum CutPtr {
    /// It leads nowhere, or there is no such field.
    Null,
    /// What it led to was destroyed.
    Dead,
    /// An object of the subtree: the slots from the subtree's root to its own.
    At(List<u8>),
    /// The port in this slot of the nester.
    Out(u8),
    /// Whoever serves a talk, or has taken a fault, at a port of the nester.
    Outside,
    /// The native server of a port within.
    Service,
    /// Nobody yet, at a port within.
    Parked,
    /// Anything else outside.
    Far,
}

/// An object as a pointer to it is shown.
fn shown_object(alloc: Global, store: &Store, root: Who, who: Who) -> Result<CutPtr, NoMemory>
    requires live { IsLive store.now who }
    requires own { HasOwnPath (path store.now) root }
    ensures { IfOk result (λ shown. shown ≡ definition.shown (seen store.now root (At (place_of store.now who)))) }
{
    if is_inside(store, root, who) {
        let path = path_below(alloc, store, root, who)?;
        return Ok(CutPtr::At(path));
    }
    if is_nesters_port(store, root, who) {
        return Ok(CutPtr::Out(who.slot));
    }
    Ok(CutPtr::Far)
}

/// A pointer as it is shown.
fn shown_pointer(alloc: Global, store: &Store, root: Who, to: Ptr) -> Result<CutPtr, NoMemory>
    requires live { OnPointer (IsLive store.now) to }
    requires own { HasOwnPath (path store.now) root }
    ensures { IfOk result (λ shown. shown ≡ definition.shown (seen store.now root (pointer_by (path store.now) to))) }
{
    match to {
        Ptr::At(who) => shown_object(alloc, store, root, who),
        Ptr::Null => Ok(CutPtr::Null),
        Ptr::Dead => Ok(CutPtr::Dead),
    }
}

/// An object as a pointer to it is shown, if there is one.
fn shown_each(alloc: Global, store: &Store, root: Who, who: Option<Who>) -> Result<CutPtr, NoMemory>
    requires live { Each (IsLive store.now) who }
    requires own { HasOwnPath (path store.now) root }
    ensures { IfOk result (λ shown. shown ≡ definition.shown_each (option_map (λ who. seen store.now root (At (place_of store.now who))) who)) }
{
    match who {
        Some(who) => shown_object(alloc, store, root, who),
        None => Ok(CutPtr::Null),
    }
}

/// Who serves a talk, or has taken a fault, as it is shown. At a port of the nester it is somebody outside.
fn shown_peer(
    alloc: Global,
    store: &Store,
    root: Who,
    out: bool,
    peer: Peer,
) -> Result<CutPtr, NoMemory>
    requires live { OnPeer (IsLive store.now) peer }
    requires own { HasOwnPath (path store.now) root }
    ensures { IfOk result (λ shown. shown ≡ definition.shown_peer (definition.peer_seen store.now root out peer)) }
{
    if out {
        return Ok(CutPtr::Outside);
    }
    match peer {
        Peer::Thread(who) => shown_object(alloc, store, root, who),
        Peer::Service => Ok(CutPtr::Service),
        Peer::Parked => Ok(CutPtr::Parked),
    }
}

/// An object is a port of the nester, and not of the subtree.
fn is_outward(store: &Store, root: Who, who: Who) -> bool
    requires live { IsLive store.now who }
    requires own { HasOwnPath (path store.now) root }
    ensures { result ≡ is_out (seen store.now root (At (place_of store.now who))) }
{
    let port = is_nesters_port(store, root, who);
    port && !is_inside(store, root, who)
}

/// The server of a talk as it is shown.
fn shown_server(
    alloc: Global,
    store: &Store,
    root: Who,
    talk: Option<Talk>,
) -> Result<CutPtr, NoMemory>
    requires live { Each (OnTalk (IsLive store.now)) talk }
    requires own { HasOwnPath (path store.now) root }
    ensures { IfOk result (λ shown. shown ≡ definition.server_of store.now root talk) }
{
    match talk {
        Some(talk) => {
            let out = is_outward(store, root, talk.port);
            shown_peer(alloc, store, root, out, talk.peer)
        }
        None => Ok(CutPtr::Null),
    }
}

/// Who has taken a fault as it is shown.
fn shown_taker(
    alloc: Global,
    store: &Store,
    root: Who,
    fault: Option<Fault>,
) -> Result<CutPtr, NoMemory>
    requires live { Each (OnFault (IsLive store.now)) fault }
    requires own { HasOwnPath (path store.now) root }
    ensures { IfOk result (λ shown. shown ≡ definition.taker_of store.now root fault) }
{
    match fault {
        Some(
            Fault {
                port,
                taker: Some(taker),
                ..
            },
        ) => {
            let out = is_outward(store, root, port);
            shown_peer(alloc, store, root, out, taker)
        }
        Some(Fault { taker: None, .. }) | None => Ok(CutPtr::Null),
    }
}

/// The port of a talk.
fn port_of(talk: Option<Talk>) -> Option<Who>
    ensures { result ≡ option_map (λ (talk : StoredTalk). talk.port) talk }
{
    match talk {
        Some(talk) => Some(talk.port),
        None => None,
    }
}

/// The port of a fault.
fn fault_port_of(fault: Option<Fault>) -> Option<Who>
    ensures { result ≡ option_map (λ (fault : StoredFault). fault.port) fault }
{
    match fault {
        Some(fault) => Some(fault.port),
        None => None,
    }
}

/// One pointer field alone.
fn alone(first: CutPtr) -> [CutPtr; 4]
    ensures { result ≡ definition.alone first }
{
    [first, CutPtr::Null, CutPtr::Null, CutPtr::Null]
}

/// The four pointer fields of a thread.
fn thread_fields(
    alloc: Global,
    store: &Store,
    root: Who,
    thread: &Thread,
) -> Result<[CutPtr; 4], NoMemory>
    requires talk { Each (OnTalk (IsLive store.now)) thread.now.talk }
    requires fault { Each (OnFault (IsLive store.now)) thread.now.fault }
    requires own { HasOwnPath (path store.now) root }
    ensures { IfOk result (λ fields. fields ≡ definition.thread_fields store.now root thread.now) }
{
    let port = shown_each(alloc, store, root, port_of(thread.talk))?;
    let server = shown_server(alloc, store, root, thread.talk)?;
    let keeper = shown_each(alloc, store, root, fault_port_of(thread.fault))?;
    let taker = shown_taker(alloc, store, root, thread.fault)?;
    Ok([port, server, keeper, taker])
}

/// Who holds a space within; the root is shown unheld.
fn shown_holder(
    alloc: Global,
    store: &Store,
    root: Who,
    who: Who,
    holder: Option<Who>,
) -> Result<CutPtr, NoMemory>
    requires live { Each (IsLive store.now) holder }
    requires own { HasOwnPath (path store.now) root }
    ensures { (q : Path) → place_of store.now who ≡ q ++ place_of store.now root → IfOk result (λ shown. shown
        ≡ definition.shown_each (held_by q (option_map (λ who. seen store.now root (At (place_of store.now who))) holder))) }
{
    if who == root {
        return Ok(CutPtr::Null);
    }
    shown_each(alloc, store, root, holder)
}

/// The four pointer fields of an object of a subtree.
///
/// # Errors
///
/// There is no memory for the paths of what they lead to.
pub fn fields_of(
    alloc: Global,
    store: &Store,
    root: Who,
    who: Who,
    body: &Body,
) -> Result<[CutPtr; 4], NoMemory>
    requires named { OnNamed (IsLive store.now) body.now }
    requires own { HasOwnPath (path store.now) root }
    ensures { (q : Path) → place_of store.now who ≡ q ++ place_of store.now root
        → IfOk result (λ fields. fields ≡ definition.fields_there (seen_body store.now root q body.now)) }
{
    match body {
        Body::Mapping { region, .. } => Ok(alone(shown_pointer(alloc, store, root, *region)?)),
        Body::Region { keeper, .. } => Ok(alone(shown_pointer(alloc, store, root, *keeper)?)),
        Body::Reference { to } => Ok(alone(shown_pointer(alloc, store, root, *to)?)),
        Body::Space { holder, .. } => Ok(alone(shown_holder(alloc, store, root, who, *holder)?)),
        Body::Thread(thread) => thread_fields(alloc, store, root, thread),
        Body::Mutex { .. } | Body::Cond | Body::Port { .. } | Body::Portset => {
            Ok(alone(CutPtr::Null))
        }
    }
}
