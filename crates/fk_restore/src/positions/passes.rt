//! What a pass does in a space, item by item and part by part.
ghost use Rattle.std.specs.Prelude.{◌≡◌};
ghost use Rattle.std.specs.List.{list_any};
ghost use Rattle.fk_image.specs.declared.image.image.ObjectRec.{ObjectRec};
ghost use Rattle.fk_image.specs.declared.image.image.SpaceRec.{SpaceRec};
ghost use Rattle.fk_restore.specs.Positions.Passes as words;
ghost use Rattle.fk_restore.specs.Positions.Code as code;

use crate::positions::position::Pass;
use fk_image::{FaultRec, Link, ObjectRec, Rec, SpaceRec, TalkRec};

/// Whether a pointer leads into the subtree.
pub fn leads_within(to: Link) -> bool
    ensures { result ≡ words.leads_within to }
{
    matches!(to, Link::In { .. } | Link::Root)
}

/// Whether a port and a thread both lie inside.
pub fn are_within(port: Link, thread: Link) -> bool
    ensures { result ≡ code.are_within port thread }
{
    leads_within(port) && leads_within(thread)
}

/// Whether a pointer leads to the port in this slot of the nester.
pub fn is_out(slot: u8, to: Link) -> bool
    ensures { result ≡ code.is_out slot to }
{
    match to {
        Link::Out(other) => other == slot,
        _ => false,
    }
}

/// The pointer of a mapping, a region or a reference.
pub fn link_of(body: &Rec) -> Link
    ensures { result ≡ words.link_of body.now }
{
    match body {
        Rec::Mapping { region: to, .. } | Rec::Region { keeper: to, .. } | Rec::Reference { to } =>
            *to,
        Rec::Mutex { .. } | Rec::Cond | Rec::Portset | Rec::Port { .. } | Rec::Thread(_) =>
            Link::Null,
    }
}

/// The talk of a thread.
pub fn talk_of(body: &Rec) -> Option<TalkRec>
    ensures { result ≡ words.talk_of body.now }
{
    match body {
        Rec::Thread(thread) => thread.get().talk,
        _ => None,
    }
}

/// The fault of a thread.
pub fn fault_of(body: &Rec) -> Option<FaultRec>
    ensures { result ≡ words.fault_of body.now }
{
    match body {
        Rec::Thread(thread) => thread.get().fault,
        _ => None,
    }
}

// ---- which spaces a pass visits

fn talk_is_out(slot: u8, talk: Option<TalkRec>) -> bool
    ensures { result ≡ code.talk_is_out slot talk }
{
    match talk {
        None => false,
        Some(talk) => is_out(slot, talk.port),
    }
}

fn fault_is_out(slot: u8, fault: Option<FaultRec>) -> bool
    ensures { result ≡ code.fault_is_out slot fault }
{
    match fault {
        None => false,
        Some(fault) => is_out(slot, fault.port),
    }
}

fn talk_is_within(talk: Option<TalkRec>) -> bool
    ensures { result ≡ code.talk_is_within talk }
{
    match talk {
        None => false,
        Some(talk) => leads_within(talk.port),
    }
}

fn fault_is_within(fault: Option<FaultRec>) -> bool
    ensures { result ≡ code.fault_is_within fault }
{
    match fault {
        None => false,
        Some(fault) => leads_within(fault.port),
    }
}

fn leads_in(body: &Rec) -> bool
    ensures { result ≡ code.leads_in body.now }
{
    match link_of(body) {
        Link::In { .. } | Link::Root | Link::Dead => true,
        _ => false,
    }
}

/// Whether an object leads to the port in this slot of the nester.
pub fn leads_out(slot: u8, body: &Rec) -> bool
    ensures { result ≡ code.leads_out slot body.now }
{
    is_out(slot, link_of(body))
        || talk_is_out(slot, talk_of(body))
        || fault_is_out(slot, fault_of(body))
}

/// Whether an object's talk or fault is at a port inside.
pub fn ties_inside(body: &Rec) -> bool
    ensures { result ≡ code.ties_inside body.now }
{
    talk_is_within(talk_of(body)) || fault_is_within(fault_of(body))
}

fn any_leads_in(objects: &[ObjectRec]) -> bool
    ensures { result ≡ list_any (λ (o : ObjectRec). code.leads_in o.body) objects.now }
{
    objects.iter().any(|object| leads_in(&object.body))
}

fn any_leads_out(slot: u8, objects: &[ObjectRec]) -> bool
    ensures { result ≡ list_any (λ (o : ObjectRec). code.leads_out slot o.body) objects.now }
{
    objects.iter().any(|object| leads_out(slot, &object.body))
}

fn any_ties(objects: &[ObjectRec]) -> bool
    ensures { result ≡ list_any (λ (o : ObjectRec). code.ties_inside o.body) objects.now }
{
    objects.iter().any(|object| ties_inside(&object.body))
}

/// Whether something in the spaces of an image leads to the port in this slot of the nester.
pub fn any_space_leads_out(spaces: &[SpaceRec], slot: u8) -> bool
    ensures { result ≡ list_any (λ (s : SpaceRec). list_any (λ (o : ObjectRec). code.leads_out slot o.body) s.objects) spaces.now }
{
    spaces
        .iter()
        .any(|space| any_leads_out(slot, space.objects.as_slice()))
}

/// Whether something in the spaces of an image leads to the port in this slot of the nester, as the script asks it.
pub fn leads_out_any(spaces: &[SpaceRec], slot: u8) -> bool
    ensures { result ≡ words.leads_out_any spaces.now slot }
{
    any_space_leads_out(spaces, slot)
}

/// Whether a pass does something in a space.
pub fn visits(spaces: &[SpaceRec], pass: Pass, number: u32, space: &SpaceRec) -> bool
    ensures { result ≡ words.visits spaces.now pass number space.now }
{
    match pass {
        Pass::Spaces => number != 0,
        Pass::Fills => true,
        Pass::Inward => any_leads_in(space.objects.as_slice()),
        Pass::Outward(slot) => any_leads_out(slot, space.objects.as_slice()),
        Pass::Ties => any_ties(space.objects.as_slice()),
        Pass::Holds => number != 0 && leads_within(space.holder),
    }
}

/// The space from which a pass works in a space.
pub fn site(pass: Pass, number: u32, space: &SpaceRec) -> u32
    ensures { result ≡ words.site pass number space.now }
{
    match pass {
        Pass::Spaces | Pass::Holds => space.parent,
        Pass::Fills | Pass::Inward | Pass::Outward(_) | Pass::Ties => number,
    }
}
