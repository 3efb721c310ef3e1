//! The pointer fields of objects.
ghost use Rattle.std.specs.Prelude.{◌≡◌, ◌==◌, ℕ, Some, None, IfSome, option_map, if◌then◌else◌};
ghost use Rattle.fk_model.specs.declared.body.Body.TheVariants as bodies;
ghost use Rattle.fk_model.specs.Objects as model;
ghost use Rattle.fk_model.specs.Objects.{and_then};
ghost use Rattle.fk_model.specs.Places.{Path};
ghost use Rattle.fk_model.specs.StateRows as rows;
ghost use Rattle.fk_store.specs.Store.Bodies.{body_by, fault_by, peer_by, pointer_by, talk_by, thread_by};
ghost use Rattle.fk_store.specs.Store.Contents.{Contents};
ghost use Rattle.fk_store.specs.Store.Named.{Each, OnFault, OnNamed, OnPeer, OnPointer, OnTalk};
ghost use Rattle.fk_store.specs.Store.World.{IsLive};
ghost use Rattle.fk_state.specs.Fields.{field_by, OnField};

use fk_model::{Body, Fault, Peer, Ptr, Talk, Thread};

/// What a pointer field holds.
#[derive(Clone, Copy)]
pub enum Field {
    Pointer(Ptr),
    /// A peer or a taker that is native, or parked.
    NoThread,
}

/// The number of what a field holds.
pub fn number_of(field: Field) -> u64
    ensures { (p : ℕ → Path) → result ≡ rows.field_number (field_by p field) }
{
    match field {
        Field::Pointer(Ptr::Null) => 0,
        Field::Pointer(Ptr::Dead) => 1,
        Field::Pointer(Ptr::At(_)) => 2,
        Field::NoThread => 3,
    }
}

/// The pointer that a reference gets of a field.
pub fn pointer_of(field: Field) -> Ptr
    ensures to { (p : ℕ → Path) → pointer_by p result ≡ rows.field_pointer (field_by p field) }
    ensures named { (m : Contents) → OnField (IsLive m) field → OnPointer (IsLive m) result }
{
    match field {
        Field::Pointer(to) => to,
        Field::NoThread => Ptr::Null,
    }
}

/// The field of a peer, if there is one.
fn peer_field(peer: Option<Peer>) -> Field
    ensures field { (p : ℕ → Path) → field_by p result ≡ rows.or_null (and_then (λ peer. Some (rows.peer_field peer)) (option_map (peer_by p) peer)) }
    ensures named { (m : Contents) → Each (OnPeer (IsLive m)) peer → OnField (IsLive m) result }
{
    match peer {
        Some(Peer::Thread(who)) => Field::Pointer(Ptr::At(who)),
        Some(Peer::Service | Peer::Parked) => Field::NoThread,
        None => Field::Pointer(Ptr::Null),
    }
}

/// The port of a talk, if there is one.
fn talk_field(talk: Option<Talk>) -> Field
    ensures field { (p : ℕ → Path) → field_by p result
        ≡ rows.or_null (and_then (λ (t : model.Talk). Some (rows.Field.Pointer t.port)) (option_map (talk_by p) talk)) }
    ensures named { (m : Contents) → Each (OnTalk (IsLive m)) talk → OnField (IsLive m) result }
{
    match talk {
        Some(talk) => Field::Pointer(Ptr::At(talk.port)),
        None => Field::Pointer(Ptr::Null),
    }
}

/// The peer of a talk.
fn talk_peer(talk: Option<Talk>) -> Field
    ensures field { (p : ℕ → Path) → field_by p result
        ≡ rows.or_null (and_then (λ (t : model.Talk). Some (rows.peer_field t.peer)) (option_map (talk_by p) talk)) }
    ensures named { (m : Contents) → Each (OnTalk (IsLive m)) talk → OnField (IsLive m) result }
{
    match talk {
        Some(talk) => peer_field(Some(talk.peer)),
        None => Field::Pointer(Ptr::Null),
    }
}

/// The port of a fault, if there is one.
fn fault_field(fault: Option<Fault>) -> Field
    ensures field { (p : ℕ → Path) → field_by p result
        ≡ rows.or_null (and_then (λ (f : model.Fault). Some (rows.Field.Pointer f.port)) (option_map (fault_by p) fault)) }
    ensures named { (m : Contents) → Each (OnFault (IsLive m)) fault → OnField (IsLive m) result }
{
    match fault {
        Some(fault) => Field::Pointer(Ptr::At(fault.port)),
        None => Field::Pointer(Ptr::Null),
    }
}

/// The taker of a fault.
fn fault_taker(fault: Option<Fault>) -> Field
    ensures field { (p : ℕ → Path) → field_by p result
        ≡ rows.or_null (and_then (λ (f : model.Fault). and_then (λ taker. Some (rows.peer_field taker)) f.taker) (option_map (fault_by p) fault)) }
    ensures named { (m : Contents) → Each (OnFault (IsLive m)) fault → OnField (IsLive m) result }
{
    match fault {
        Some(fault) => peer_field(fault.taker),
        None => Field::Pointer(Ptr::Null),
    }
}

/// The port of the talk, its peer, the port of the fault, or its taker.
fn thread_field(thread: &Thread, number: u64) -> Option<Field>
    ensures field { (p : ℕ → Path) → option_map (field_by p) result ≡ rows.thread_field (thread_by p thread.now) number }
    ensures named { (m : Contents) → Each (OnTalk (IsLive m)) thread.now.talk → Each (OnFault (IsLive m)) thread.now.fault
        → IfSome result (OnField (IsLive m)) }
{
    match number {
        0 => Some(talk_field(thread.talk)),
        1 => Some(talk_peer(thread.talk)),
        2 => Some(fault_field(thread.fault)),
        3 => Some(fault_taker(thread.fault)),
        _ => None,
    }
}

/// The only field of an object.
fn first_field(number: u64, to: Ptr) -> Option<Field>
    ensures { result ≡ (if number == 0 then Some (Field.Pointer to) else None) }
{
    if number == 0 {
        return Some(Field::Pointer(to));
    }
    None
}

/// A pointer field of an object, by its number; nothing that its kind lacks.
pub fn field_of(number: u64, body: &Body) -> Option<Field>
    ensures field { (p : ℕ → Path) → option_map (field_by p) result ≡ rows.field_of number (body_by p body.now) }
    ensures named { (m : Contents) → OnNamed (IsLive m) body.now → IfSome result (OnField (IsLive m)) }
{
    match body {
        Body::Mapping { region: to, .. }
        | Body::Region { keeper: to, .. }
        | Body::Reference { to } => first_field(number, *to),
        Body::Space { holder, .. } => match holder {
            Some(who) => first_field(number, Ptr::At(*who)),
            None => first_field(number, Ptr::Null),
        },
        Body::Thread(thread) => thread_field(thread, number),
        Body::Mutex { .. } | Body::Cond | Body::Port { .. } | Body::Portset => None,
    }
}

/// The fields of spaces and threads aren't for users.
pub fn is_inner(body: &Body) -> bool
    ensures { (p : ℕ → Path) → result ≡ rows.is_inner (body_by p body.now) }
{
    matches!(body, Body::Space { .. } | Body::Thread(_))
}
