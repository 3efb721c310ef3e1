//! To which slots of the nester something leads.
ghost use Rattle.std.specs.Prelude.{◌≡◌, ◌<◌, ◌≤◌, ℕ, false};
ghost use Rattle.std.specs.List.{list_any};
ghost use Rattle.fk_image.specs.declared.image.image.ObjectRec.{ObjectRec};
ghost use Rattle.fk_restore.specs.Positions.Code as code;
ghost use Rattle.fk_restore.specs.Positions.Passes.{leads_out_any};

use crate::positions::{fault_of, link_of, talk_of};
use fk_image::{FaultRec, Link, ObjectRec, Rec, SpaceRec, TalkRec};

/// The lower one of a slot and that to which a pointer leads, of the slots from one on.
fn lower(to: Link, from: u8, most: u8) -> u8
    requires { from ≤ most }
    ensures from { from ≤ result }
    ensures most { result ≤ most }
    ensures none { (i : ℕ) → from ≤ i → i < result → code.is_out i to ≡ false }
{
    match to {
        Link::Out(out) => { if from <= out && out < most { out } else { most } }
        _ => most,
    }
}

/// The lower one of a slot and that to which a talk's port leads, of the slots from one on.
fn lower_talk(talk: Option<TalkRec>, from: u8, most: u8) -> u8
    requires { from ≤ most }
    ensures from { from ≤ result }
    ensures most { result ≤ most }
    ensures none { (i : ℕ) → from ≤ i → i < result → code.talk_is_out i talk ≡ false }
{
    match talk {
        None => most,
        Some(talk) => lower(talk.port, from, most),
    }
}

/// The lower one of a slot and that to which a fault's port leads, of the slots from one on.
fn lower_fault(fault: Option<FaultRec>, from: u8, most: u8) -> u8
    requires { from ≤ most }
    ensures from { from ≤ result }
    ensures most { result ≤ most }
    ensures none { (i : ℕ) → from ≤ i → i < result → code.fault_is_out i fault ≡ false }
{
    match fault {
        None => most,
        Some(fault) => lower(fault.port, from, most),
    }
}

/// The lowest one of a slot and those to which an object leads, of the slots from one on.
fn lower_body(body: &Rec, from: u8, most: u8) -> u8
    requires { from ≤ most }
    ensures from { from ≤ result }
    ensures most { result ≤ most }
    ensures none { (i : ℕ) → from ≤ i → i < result → code.leads_out i body.now ≡ false }
{
    let link = lower(link_of(body), from, most);
    let talk = lower_talk(talk_of(body), from, link);
    lower_fault(fault_of(body), from, talk)
}

/// The lowest one of a slot and those to which the objects of a space lead, of the slots from one on.
fn lower_space(objects: &[ObjectRec], from: u8, most: u8) -> u8
    requires { from ≤ most }
    ensures from { from ≤ result }
    ensures most { result ≤ most }
    ensures none { (i : ℕ) → from ≤ i → i < result → list_any (λ (o : ObjectRec). code.leads_out i o.body) objects.now ≡ false }
{
    let mut lowest = most;
    for object in objects {
        if lowest == from {
            return lowest;
        }
        lowest = lower_body(&object.body, from, lowest);
    }
    lowest
}

/// The lowest slot of the nester, from one on, to which something leads; one above all slots where there is none.
pub fn used_from(spaces: &[SpaceRec], from: u8) -> u8
    ensures from { from ≤ result }
    ensures none { (i : ℕ) → from ≤ i → i < result → leads_out_any spaces.now i ≡ false }
{
    let mut lowest = from.max(240);
    for space in spaces {
        lowest = lower_space(space.objects.as_slice(), from, lowest);
    }
    lowest
}
