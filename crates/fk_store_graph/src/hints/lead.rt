//! Where the fields of a body lead.
ghost use Rattle.std.specs.Prelude.{◌≡◌, ◌≤◌, ℕ, None, true, option_map};
ghost use Rattle.fk_model.specs.Objects.{and_then};
ghost use Rattle.fk_store_graph.specs.Hints.Leads as leads;
ghost use Rattle.fk_store_graph.specs.declared.hints.lead.Sort.TheVariants.{Pointer};

use fk_model::{Body, Fault, Peer, Ptr, Talk, Thread, Who};

/// What a field is to the object to which it leads.
#[derive(Clone, Copy, PartialEq, Eq)]
pub enum Sort {
    /// It is a pointer.
    Pointer,
    /// It is a talk that is served there, by the thread or by the port's native server.
    Served,
    /// It is a fault that has been taken there.
    Taken,
}

/// An object to which a field leads.
#[derive(Clone, Copy)]
pub struct Lead {
    pub to: Who,
    pub sort: Sort,
}

/// Where a field of a body leads. The fields are 0 to 5.
#[tactic(auto, unfolding(crate::specs::Hints::Leads::led))]
pub fn led(body: &Body, field: u8) -> Option<Lead>
    ensures { result ≡ leads.led body.now field }
{
    match body {
        Body::Mapping { region, .. } => first(field, pointer(*region)),
        Body::Region { keeper, .. } => first(field, pointer(*keeper)),
        Body::Reference { to } => first(field, pointer(*to)),
        Body::Space { holder, .. } => first(field, holding(*holder)),
        Body::Thread(thread) => of_thread(thread, field),
        Body::Mutex { .. } | Body::Cond | Body::Port { .. } | Body::Portset => None,
    }
}

/// Where a field of a thread with this fault leads, of the fields 3 to 5.
pub fn led_by_fault(fault: Option<Fault>, field: u8) -> Option<Lead>
    ensures { result ≡ and_then (leads.of_fault field) fault }
{
    of_fault(fault?, field)
}

/// How many fields of a body there are to look at; none past them leads anywhere.
#[tactic(auto, using(crate::proofs::InHints::FieldLaws::led_past))]
pub fn fields(body: &Body) -> u8
    ensures past { (i : ℕ) → result ≤ i → leads.led body.now i ≡ None }
    ensures few { result ≤ 6 }
{
    if is_idle(body) { 0 } else { 6 }
}

/// No field leads anywhere; true only if so.
#[tactic(auto, unfolding(crate::specs::Hints::Leads::led))]
fn is_idle(body: &Body) -> bool
    ensures { result ≡ true → (i : ℕ) → leads.led body.now i ≡ None }
{
    match body {
        Body::Thread(thread) => is_alone(thread),
        Body::Mutex { .. } | Body::Cond | Body::Port { .. } | Body::Portset => true,
        Body::Mapping { .. } | Body::Region { .. } | Body::Space { .. } | Body::Reference { .. } =>
            { false }
    }
}

/// A thread is in no talk and has no fault.
fn is_alone(thread: &Thread) -> bool
    ensures { result ≡ true → (i : ℕ) → leads.of_thread thread.now.talk thread.now.fault i ≡ None }
{
    if thread.talk.is_some() {
        return false;
    }
    match thread.fault {
        None => true,
        Some(_) => false,
    }
}

fn first(field: u8, lead: Option<Lead>) -> Option<Lead>
    ensures { result ≡ leads.first field lead }
{
    if field == 0 { lead } else { None }
}

fn pointer(pointer: Ptr) -> Option<Lead>
    ensures { result ≡ leads.pointer pointer }
{
    match pointer {
        Ptr::Null | Ptr::Dead => None,
        Ptr::At(to) => Some(Lead {
            to,
            sort: Sort::Pointer,
        }),
    }
}

fn holding(holder: Option<Who>) -> Option<Lead>
    ensures { result ≡ option_map (leads.lead_by Pointer) holder }
{
    match holder {
        None => None,
        Some(to) => Some(Lead {
            to,
            sort: Sort::Pointer,
        }),
    }
}

#[tactic(auto, unfolding(crate::specs::Hints::Leads::of_thread))]
fn of_thread(thread: &Thread, field: u8) -> Option<Lead>
    ensures { result ≡ leads.of_thread thread.now.talk thread.now.fault field }
{
    if field < 3 {
        of_talk(thread.talk?, field)
    } else {
        of_fault(thread.fault?, field)
    }
}

#[tactic(auto, unfolding(crate::specs::Hints::Leads::of_talk))]
fn of_talk(talk: Talk, field: u8) -> Option<Lead>
    ensures { result ≡ leads.of_talk field talk }
{
    if field == 0 {
        Some(Lead {
            to: talk.port,
            sort: Sort::Pointer,
        })
    } else if field == 1 {
        peer(talk.peer, Sort::Pointer)
    } else if field == 2 {
        server(talk)
    } else {
        None
    }
}

#[tactic(auto, unfolding(crate::specs::Hints::Leads::of_fault))]
fn of_fault(fault: Fault, field: u8) -> Option<Lead>
    ensures { result ≡ leads.of_fault field fault }
{
    if field == 3 {
        Some(Lead {
            to: fault.port,
            sort: Sort::Pointer,
        })
    } else if field == 4 {
        peer(fault.taker?, Sort::Pointer)
    } else if field == 5 {
        peer(fault.taker?, Sort::Taken)
    } else {
        None
    }
}

/// The thread that a peer is.
fn peer(peer: Peer, sort: Sort) -> Option<Lead>
    ensures { result ≡ leads.peer sort peer }
{
    match peer {
        Peer::Thread(to) => Some(Lead { to, sort }),
        Peer::Service | Peer::Parked => None,
    }
}

/// Who serves a talk: a thread, or the port's native server.
fn server(talk: Talk) -> Option<Lead>
    ensures { result ≡ leads.server talk.port talk.peer }
{
    match talk.peer {
        Peer::Thread(to) => Some(Lead {
            to,
            sort: Sort::Served,
        }),
        Peer::Service => Some(Lead {
            to: talk.port,
            sort: Sort::Served,
        }),
        Peer::Parked => None,
    }
}
