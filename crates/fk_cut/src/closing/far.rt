//! Pointers of a subtree that lead where they may not.
ghost use Rattle.std.specs.Prelude.{◌≡◌, ◌||◌, ◌++◌, option_map};
ghost use Rattle.fk_model.specs.Closed as definition;
ghost use Rattle.fk_model.specs.Cut as cut;
ghost use Rattle.fk_model.specs.Cut.{cut_out, is_far, is_out, ports_of};
ghost use Rattle.fk_model.specs.Objects.{holds, or_else};
ghost use Rattle.fk_model.specs.Places.{Path};
ghost use Rattle.fk_model.specs.Places.Ptr.{At};
ghost use Rattle.fk_model.specs.declared.thread.Fault.{Fault as StoredFault};
ghost use Rattle.fk_model.specs.declared.thread.Talk.{Talk as StoredTalk};
ghost use Rattle.fk_store.specs.Store.Bodies.{pointer_by};
ghost use Rattle.fk_store.specs.Store.Named.{Each, OnFault, OnNamed, OnPointer, OnTalk};
ghost use Rattle.fk_store.specs.Store.Paths.{path, HasOwnPath};
ghost use Rattle.fk_store.specs.Store.World.{world, place_of, IsLive};
ghost use Rattle.fk_cut.specs.Closing.Walks.{seen, held_by, seen_body};

use crate::closing::above::{has_own_path, is_inside};
use crate::closing::points::all_three;
use fk_model::{Body, Fault, Ptr, Talk, Who};
use fk_store::Store;

/// An object is a port.
fn is_port(store: &Store, who: Who) -> bool
    ensures { result ≡ cut.is_port ((world store.now).body (place_of store.now who)) }
{
    matches!(store.at(who), Some(Body::Port { .. }))
}

/// An object is a port in a slot of a subtree's nester.
pub fn is_nesters_port(store: &Store, root: Who, who: Who) -> bool
    requires { IsLive store.now who }
    ensures { result
        ≡ is_out (cut_out (ports_of (world store.now) (path store.now root.space) root.slot) (path store.now root.space) (place_of store.now who)) }
{
    has_own_path(store, who);
    let in_nester = who.space == root.space;
    let elsewhere = who.slot != root.slot;
    all_three(in_nester, elsewhere, is_port(store, who))
}

/// An object is neither in a subtree nor a port of its nester.
fn is_far_object(store: &Store, root: Who, who: Who) -> bool
    requires live { IsLive store.now who }
    requires own { HasOwnPath (path store.now) root }
    ensures { result ≡ is_far (seen store.now root (At (place_of store.now who))) }
{
    !is_inside(store, root, who) && !is_nesters_port(store, root, who)
}

/// A pointer leads neither into a subtree nor to a port of its nester.
fn leads_far(store: &Store, root: Who, to: Ptr) -> bool
    requires live { OnPointer (IsLive store.now) to }
    requires own { HasOwnPath (path store.now) root }
    ensures { result ≡ is_far (seen store.now root (pointer_by (path store.now) to)) }
{
    match to {
        Ptr::At(who) => is_far_object(store, root, who),
        Ptr::Null | Ptr::Dead => false,
    }
}

/// An object is outside a subtree.
fn is_outside(store: &Store, root: Who, who: Who) -> bool
    requires live { IsLive store.now who }
    requires own { HasOwnPath (path store.now) root }
    ensures { let to = seen store.now root (At (place_of store.now who)) in result ≡ (is_far to || is_out to) }
{
    !is_inside(store, root, who)
}

/// A pointer leads out of a subtree.
fn leads_out(store: &Store, root: Who, to: Ptr) -> bool
    requires live { OnPointer (IsLive store.now) to }
    requires own { HasOwnPath (path store.now) root }
    ensures { let seen_to = seen store.now root (pointer_by (path store.now) to) in result ≡ (is_far seen_to || is_out seen_to) }
{
    match to {
        Ptr::At(who) => is_outside(store, root, who),
        Ptr::Null | Ptr::Dead => false,
    }
}

/// A space within a subtree is held by somebody outside. Who holds the root doesn't count.
fn is_held_outside(store: &Store, root: Who, who: Who, holder: Option<Who>) -> bool
    requires live { Each (IsLive store.now) holder }
    requires own { HasOwnPath (path store.now) root }
    ensures { (q : Path) → place_of store.now who ≡ q ++ place_of store.now root → result ≡ holds (λ to. is_far to || is_out to)
        (held_by q (option_map (λ who. seen store.now root (At (place_of store.now who))) holder)) }
{
    match holder {
        Some(holder) => {
            let top = who == root;
            all_three(true, !top, is_outside(store, root, holder))
        }
        None => false,
    }
}

/// A thread's talk is at a port where it may not be.
fn is_talk_far(store: &Store, root: Who, talk: Option<Talk>) -> bool
    requires live { Each (OnTalk (IsLive store.now)) talk }
    requires own { HasOwnPath (path store.now) root }
    ensures { result ≡ holds (λ (talk : StoredTalk). is_far (seen store.now root (At (place_of store.now talk.port)))) talk }
{
    match talk {
        Some(talk) => is_far_object(store, root, talk.port),
        None => false,
    }
}

/// A thread's fault is at a port where it may not be.
fn is_fault_far(store: &Store, root: Who, fault: Option<Fault>) -> bool
    requires live { Each (OnFault (IsLive store.now)) fault }
    requires own { HasOwnPath (path store.now) root }
    ensures { result ≡ holds (λ (fault : StoredFault). is_far (seen store.now root (At (place_of store.now fault.port)))) fault }
{
    match fault {
        Some(fault) => is_far_object(store, root, fault.port),
        None => false,
    }
}

/// The first of a thread's fields with which something is wrong.
fn first_side(talk: bool, fault: bool) -> Option<u8>
    ensures { result ≡ or_else (definition.when_bad talk 0) (definition.when_bad fault 2) }
{
    if talk { Some(0) } else { first_field(fault, 2) }
}

/// The first pointer field of an object of a subtree that leads where it may not.
pub fn far_field(store: &Store, root: Who, who: Who, body: &Body) -> Option<u8>
    requires named { OnNamed (IsLive store.now) body.now }
    requires own { HasOwnPath (path store.now) root }
    ensures { (q : Path) → place_of store.now who ≡ q ++ place_of store.now root → result ≡ definition.far_field (seen_body store.now root q body.now) }
{
    match body {
        Body::Mapping { region, .. } => first_field(leads_out(store, root, *region), 0),
        Body::Region { keeper, .. } => first_field(leads_far(store, root, *keeper), 0),
        Body::Reference { to } => first_field(leads_far(store, root, *to), 0),
        Body::Space { holder, .. } => { first_field(is_held_outside(store, root, who, *holder), 0) }
        Body::Thread(thread) => first_side(
            is_talk_far(store, root, thread.talk),
            is_fault_far(store, root, thread.fault),
        ),
        Body::Mutex { .. } | Body::Cond | Body::Port { .. } | Body::Portset => None,
    }
}

/// A field, where something is wrong with it.
fn first_field(bad: bool, field: u8) -> Option<u8>
    ensures { result ≡ definition.when_bad bad field }
{
    if bad { Some(field) } else { None }
}
