//! What a part of an item comes to: nothing, a walk, or a call.
ghost use Rattle.std.specs.Prelude.{◌≡◌, ℕ, List, None, Some};
ghost use Rattle.fk_image.specs.declared.image.image.SpaceRec as records;
ghost use Rattle.laws_restore.specs.Rooms.Restoring.{bound_by};
ghost use Rattle.fk_restore.specs.Positions.Passes as words;
ghost use Rattle.fk_restore.specs.Positions.Doing.{doing_of, object_part, item_part};

use crate::positions::binding::bound;
use crate::positions::fills::fills_part;
use crate::positions::passes::{are_within, fault_of, is_out, leads_within, link_of, talk_of};
use crate::positions::position::{Pass, Walk};
use crate::positions::walks::{DEAD, NESTER, PEERS, PLACES, TARGETS, leads};
use fk_image::{FaultRec, Link, ObjectRec, Rec, SpaceRec, TalkRec};
use fk_model::{Stage, kind};

/// What a part of an item comes to.
#[derive(Clone, Copy)]
pub enum Doing {
    Nothing,
    /// A scratch reference is led somewhere.
    Walks(Walk),
    Asks(Stage),
}

/// A pointer that stays inside: the way to what it leads to, and then it is set.
fn inward_part(spaces: &[SpaceRec], slot: u8, number: u32, x: u8, body: &Rec, part: u8) -> Doing
    ensures { (bind : ℕ → ℕ) (s : records.SpaceRec) → result ≡ doing_of slot (words.inward_part spaces.now slot bind number s x body.now part) }
{
    let to = link_of(body);
    match part {
        0 => match to {
            Link::In { .. } | Link::Root => Doing::Walks(leads(spaces, slot, TARGETS, number, to)),
            _ => Doing::Nothing,
        },
        1 => match to {
            Link::In { .. } | Link::Root => Doing::Asks(Stage::SetPtr {
                s: u64::from(PLACES),
                x: u64::from(x),
                field: 0,
                reference: u64::from(TARGETS),
            }),
            Link::Dead => Doing::Asks(Stage::SetPtr {
                s: u64::from(PLACES),
                x: u64::from(x),
                field: 0,
                reference: u64::from(DEAD),
            }),
            _ => Doing::Nothing,
        },
        _ => Doing::Nothing,
    }
}

/// A pointer that leads to a slot of the nester.
fn points_out_part(out: u8, x: u8, to: Link) -> Doing
    ensures { (ss : List records.SpaceRec) (slot : ℕ) (bind : ℕ → ℕ) (n : ℕ) (s : records.SpaceRec)
        → result ≡ doing_of slot (words.points_out_part ss slot bind n s out x to) }
{
    if is_out(out, to) {
        Doing::Asks(Stage::SetPtr {
            s: u64::from(PLACES),
            x: u64::from(x),
            field: 0,
            reference: u64::from(TARGETS),
        })
    } else {
        Doing::Nothing
    }
}

/// A talk at the port in a slot of the nester.
fn parks_talk_part(pairs: &[(u8, u8)], out: u8, x: u8, talk: Option<TalkRec>) -> Doing
    ensures { (ss : List records.SpaceRec) (slot : ℕ) (n : ℕ) (s : records.SpaceRec)
        → result ≡ doing_of slot (words.parks_talk_part ss slot (bound_by pairs.now) n s out x talk) }
{
    match talk {
        None => Doing::Nothing,
        Some(talk) => {
            if is_out(out, talk.port) {
                Doing::Asks(Stage::LinkPark {
                    s: u64::from(PLACES),
                    x: u64::from(x),
                    port: u64::from(bound(pairs, out)),
                })
            } else {
                Doing::Nothing
            }
        }
    }
}

/// A fault at the port in a slot of the nester.
fn parks_fault_part(pairs: &[(u8, u8)], out: u8, x: u8, fault: Option<FaultRec>) -> Doing
    ensures { (ss : List records.SpaceRec) (slot : ℕ) (n : ℕ) (s : records.SpaceRec)
        → result ≡ doing_of slot (words.parks_fault_part ss slot (bound_by pairs.now) n s out x fault) }
{
    match fault {
        None => Doing::Nothing,
        Some(fault) => {
            if is_out(out, fault.port) {
                match fault.taker {
                    None => Doing::Asks(Stage::FaultPark {
                        s: u64::from(PLACES),
                        x: u64::from(x),
                        port: u64::from(bound(pairs, out)),
                        taken: 0,
                    }),
                    Some(_) => Doing::Asks(Stage::FaultPark {
                        s: u64::from(PLACES),
                        x: u64::from(x),
                        port: u64::from(bound(pairs, out)),
                        taken: 1,
                    }),
                }
            } else {
                Doing::Nothing
            }
        }
    }
}

/// The fields that lead to a slot of the nester.
fn outward_part(pairs: &[(u8, u8)], out: u8, x: u8, body: &Rec, part: u8) -> Doing
    ensures { (ss : List records.SpaceRec) (slot : ℕ) (n : ℕ) (s : records.SpaceRec)
        → result ≡ doing_of slot (words.outward_part ss slot (bound_by pairs.now) n s out x body.now part) }
{
    match part {
        0 => points_out_part(out, x, link_of(body)),
        1 => parks_talk_part(pairs, out, x, talk_of(body)),
        2 => parks_fault_part(pairs, out, x, fault_of(body)),
        _ => Doing::Nothing,
    }
}

/// The way to what a pointer leads to inside.
fn walks_to(spaces: &[SpaceRec], slot: u8, scratch: u8, number: u32, to: Link) -> Doing
    ensures { (bind : ℕ → ℕ) (n : ℕ) (s : records.SpaceRec) → result ≡ doing_of slot (words.walks_to spaces.now slot bind n s scratch number to) }
{
    match to {
        Link::In { .. } | Link::Root => { Doing::Walks(leads(spaces, slot, scratch, number, to)) }
        _ => Doing::Nothing,
    }
}

/// A talk inside: the ways to its port and to its server, and then it is set.
fn talk_part(
    spaces: &[SpaceRec],
    slot: u8,
    number: u32,
    x: u8,
    part: u8,
    talk: Option<TalkRec>,
) -> Doing
    ensures { (bind : ℕ → ℕ) (s : records.SpaceRec) → result ≡ doing_of slot (words.talk_part spaces.now slot bind number s x part talk) }
{
    match talk {
        None => Doing::Nothing,
        Some(talk) => {
            if are_within(talk.port, talk.server) {
                match part {
                    0 => walks_to(spaces, slot, TARGETS, number, talk.port),
                    1 => walks_to(spaces, slot, PEERS, number, talk.server),
                    _ => Doing::Asks(Stage::LinkSet {
                        s: u64::from(PLACES),
                        x: u64::from(x),
                        port: u64::from(TARGETS),
                        server: u64::from(PEERS),
                    }),
                }
            } else {
                Doing::Nothing
            }
        }
    }
}

/// A fault at a port inside that nobody has taken: the way to its port, and then it is set.
fn raised_part(
    spaces: &[SpaceRec],
    slot: u8,
    number: u32,
    x: u8,
    part: u8,
    fault: FaultRec,
) -> Doing
    ensures { (bind : ℕ → ℕ) (s : records.SpaceRec)
        → result ≡ doing_of slot (words.taken_part spaces.now slot bind number s x part fault None) }
{
    if leads_within(fault.port) {
        match part {
            0 => walks_to(spaces, slot, TARGETS, number, fault.port),
            1 => Doing::Nothing,
            _ => Doing::Asks(Stage::FaultSet {
                s: u64::from(PLACES),
                x: u64::from(x),
                port: u64::from(TARGETS),
                taker: NESTER,
            }),
        }
    } else {
        Doing::Nothing
    }
}

/// A fault inside that was taken: the ways to its port and to its taker, and then it is set.
fn taken_by_part(
    spaces: &[SpaceRec],
    slot: u8,
    number: u32,
    x: u8,
    part: u8,
    fault: FaultRec,
    taker: Link,
) -> Doing
    ensures { (bind : ℕ → ℕ) (s : records.SpaceRec)
        → result ≡ doing_of slot (words.taken_part spaces.now slot bind number s x part fault (Some taker)) }
{
    if are_within(fault.port, taker) {
        match part {
            0 => walks_to(spaces, slot, TARGETS, number, fault.port),
            1 => walks_to(spaces, slot, PEERS, number, taker),
            _ => Doing::Asks(Stage::FaultSet {
                s: u64::from(PLACES),
                x: u64::from(x),
                port: u64::from(TARGETS),
                taker: u64::from(PEERS),
            }),
        }
    } else {
        Doing::Nothing
    }
}

/// A fault inside, whoever has taken it.
fn taken_part(
    spaces: &[SpaceRec],
    slot: u8,
    number: u32,
    x: u8,
    part: u8,
    fault: FaultRec,
    taker: Option<Link>,
) -> Doing
    ensures { (bind : ℕ → ℕ) (s : records.SpaceRec)
        → result ≡ doing_of slot (words.taken_part spaces.now slot bind number s x part fault taker) }
{
    match taker {
        None => raised_part(spaces, slot, number, x, part, fault),
        Some(taker) => taken_by_part(spaces, slot, number, x, part, fault, taker),
    }
}

/// A fault inside.
fn fault_part(
    spaces: &[SpaceRec],
    slot: u8,
    number: u32,
    x: u8,
    part: u8,
    fault: Option<FaultRec>,
) -> Doing
    ensures { (bind : ℕ → ℕ) (s : records.SpaceRec) → result ≡ doing_of slot (words.fault_part spaces.now slot bind number s x part fault) }
{
    match fault {
        None => Doing::Nothing,
        Some(fault) => taken_part(spaces, slot, number, x, part, fault, fault.taker),
    }
}

/// A talk and a fault between threads inside.
fn ties_part(spaces: &[SpaceRec], slot: u8, number: u32, x: u8, body: &Rec, part: u8) -> Doing
    ensures { (bind : ℕ → ℕ) (s : records.SpaceRec) → result ≡ doing_of slot (words.ties_part spaces.now slot bind number s x body.now part) }
{
    if part < 3 {
        talk_part(spaces, slot, number, x, part, talk_of(body))
    } else if part < 6 {
        fault_part(spaces, slot, number, x, part - 3, fault_of(body))
    } else {
        Doing::Nothing
    }
}

/// A space inside that somebody inside holds: the way to its holder, and then it is held.
fn holds_part(spaces: &[SpaceRec], slot: u8, space: &SpaceRec, part: u8) -> Doing
    ensures { (bind : ℕ → ℕ) (n : ℕ) → result ≡ doing_of slot (words.holds_part spaces.now slot bind n space.now part) }
{
    if leads_within(space.holder) {
        match part {
            0 => Doing::Walks(leads(spaces, slot, TARGETS, space.parent, space.holder)),
            1 => Doing::Asks(Stage::HoldSet {
                s: u64::from(PLACES),
                x: u64::from(space.slot),
                thread: u64::from(TARGETS),
            }),
            _ => Doing::Nothing,
        }
    } else {
        Doing::Nothing
    }
}

/// A space is made.
fn makes_part(space: &SpaceRec, part: u8) -> Doing
    ensures { (ss : List records.SpaceRec) (slot : ℕ) (bind : ℕ → ℕ) (n : ℕ) → result ≡ doing_of slot (words.makes_part ss slot bind n space.now part) }
{
    if part == 0 {
        Doing::Asks(Stage::Create {
            s: u64::from(PLACES),
            x: u64::from(space.slot),
            kind: kind::SPACE,
        })
    } else {
        Doing::Nothing
    }
}

/// The part of an object.
fn object_part(
    spaces: &[SpaceRec],
    slot: u8,
    pairs: &[(u8, u8)],
    number: u32,
    pass: Pass,
    object: &ObjectRec,
    part: u8,
) -> Doing
    ensures { (s : records.SpaceRec) → result ≡ doing_of slot (object_part spaces.now slot (bound_by pairs.now) number s pass object.now part) }
{
    match pass {
        Pass::Inward => inward_part(spaces, slot, number, object.slot, &object.body, part),
        Pass::Outward(out) => outward_part(pairs, out, object.slot, &object.body, part),
        Pass::Ties => ties_part(spaces, slot, number, object.slot, &object.body, part),
        Pass::Spaces | Pass::Fills | Pass::Holds => Doing::Nothing,
    }
}

/// The part of an object of a space.
fn object_parts(
    spaces: &[SpaceRec],
    slot: u8,
    pairs: &[(u8, u8)],
    number: u32,
    space: &SpaceRec,
    pass: Pass,
    item: usize,
    part: u8,
) -> Doing
    ensures { result ≡ doing_of slot (item_part spaces.now slot (bound_by pairs.now) number space.now pass item part) }
{
    match space.objects.as_slice().get(item) {
        None => Doing::Nothing,
        Some(object) => object_part(spaces, slot, pairs, number, pass, object, part),
    }
}

/// A part of an item of a space.
pub fn part_at(
    spaces: &[SpaceRec],
    slot: u8,
    pairs: &[(u8, u8)],
    number: u32,
    space: &SpaceRec,
    pass: Pass,
    item: usize,
    part: u8,
) -> Doing
    ensures { result ≡ doing_of slot (words.part_at spaces.now slot (bound_by pairs.now) number space.now pass item part) }
{
    match pass {
        Pass::Spaces => makes_part(space, part),
        Pass::Fills => fills_part(space, item, part),
        Pass::Holds => holds_part(spaces, slot, space, part),
        Pass::Inward | Pass::Outward(_) | Pass::Ties => {
            object_parts(spaces, slot, pairs, number, space, pass, item, part)
        }
    }
}
