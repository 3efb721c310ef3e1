//! The words that go with the call at a position, written over zeros.
ghost use Rattle.std.specs.Prelude.{◌≡◌, ℕ, List, None, Some, slice_get};
ghost use Rattle.fk_image.specs.declared.image.image.SpaceRec as records;
ghost use Rattle.laws_jobs.specs.Machines.{no_words};
ghost use Rattle.fk_restore.specs.Positions.Passes as passes;
ghost use Rattle.fk_restore.specs.Positions.Positions as places;
ghost use Rattle.fk_restore.specs.Orders.Given.{words_in};

use crate::orders::records::{fault_words, record_words, talk_words};
use crate::positions::{
    Pass, Position, Spot, Walk, are_within, fault_of, is_out, leads_within, talk_of,
};
use fk_image::{FaultRec, Link, ObjectRec, PageRec, Rec, SpaceRec, TalkRec};

/// None go with it: they stay zeros.
fn nothing(words: &mut [u64; 64])
    requires { words.old ≡ no_words }
    ensures { words.new ≡ no_words }
{}

/// The record of the object with this place in its space.
fn record_at(objects: &[ObjectRec], item: usize, words: &mut [u64; 64])
    requires { words.old ≡ no_words }
    ensures { (ss : List records.SpaceRec) (slot : ℕ) (bind : ℕ → ℕ) (n : ℕ) (s : records.SpaceRec) → words.new ≡
        words_in (places.asked ss slot bind (passes.object_part ss slot bind n s (passes.sets_object ss slot bind n s) item objects.now)) }
{
    match objects.get(item) {
        None => nothing(words),
        Some(object) => record_words(&object.body, words),
    }
}

/// The page with this place in its space.
fn page_at(pages: &[PageRec], item: usize, words: &mut [u64; 64])
    requires { words.old ≡ no_words }
    ensures { (ss : List records.SpaceRec) (slot : ℕ) (bind : ℕ → ℕ) (n : ℕ) (s : records.SpaceRec) → words.new ≡
        words_in (places.asked ss slot bind (passes.page_part ss slot bind n s item pages.now)) }
{
    match pages.get(item) {
        None => nothing(words),
        Some(page) => words.copy_from_slice(&page.words),
    }
}

/// The words of an object, its record or a page.
#[tactic(auto, using(crate::proofs::InOrders::Given::made_none))]
fn filling(space: &SpaceRec, item: usize, words: &mut [u64; 64])
    requires { words.old ≡ no_words }
    ensures { (ss : List records.SpaceRec) (slot : ℕ) (bind : ℕ → ℕ) (n : ℕ)
        → words.new ≡ words_in (places.asked ss slot bind (passes.fills_item ss slot bind n space.now item)) }
{
    let objects = space.objects.as_slice();
    let count = objects.len();
    if item < count {
        nothing(words)
    } else if item < count + count {
        record_at(objects, item - count, words)
    } else {
        page_at(space.pages.as_slice(), item - (count + count), words)
    }
}

/// The words of a talk at the port in a slot of the nester.
fn parked_talk(out: u8, talk: Option<TalkRec>, words: &mut [u64; 64])
    requires { words.old ≡ no_words }
    ensures { (ss : List records.SpaceRec) (slot : ℕ) (bind : ℕ → ℕ) (n : ℕ) (s : records.SpaceRec) (x : ℕ)
        → words.new ≡ words_in (places.asked ss slot bind (passes.parks_talk_part ss slot bind n s out x talk)) }
{
    match talk {
        None => nothing(words),
        Some(talk) => {
            if is_out(out, talk.port) {
                talk_words(talk, words)
            } else {
                nothing(words)
            }
        }
    }
}

/// The words of a fault at the port in a slot of the nester.
fn parked_fault(out: u8, fault: Option<FaultRec>, words: &mut [u64; 64])
    requires { words.old ≡ no_words }
    ensures { (ss : List records.SpaceRec) (slot : ℕ) (bind : ℕ → ℕ) (n : ℕ) (s : records.SpaceRec) (x : ℕ)
        → words.new ≡ words_in (places.asked ss slot bind (passes.parks_fault_part ss slot bind n s out x fault)) }
{
    match fault {
        None => nothing(words),
        Some(fault) => {
            if is_out(out, fault.port) {
                fault_words(fault, words)
            } else {
                nothing(words)
            }
        }
    }
}

/// The words of the fields that lead to a slot of the nester.
#[tactic(auto, using(crate::proofs::InOrders::Given::points_none))]
fn outward(out: u8, body: &Rec, part: u8, words: &mut [u64; 64])
    requires { words.old ≡ no_words }
    ensures { (ss : List records.SpaceRec) (slot : ℕ) (bind : ℕ → ℕ) (n : ℕ) (s : records.SpaceRec) (x : ℕ)
        → words.new ≡ words_in (places.asked ss slot bind (passes.outward_part ss slot bind n s out x body.now part)) }
{
    match part {
        0 => nothing(words),
        1 => parked_talk(out, talk_of(body), words),
        2 => parked_fault(out, fault_of(body), words),
        _ => nothing(words),
    }
}

/// The words of a talk inside.
#[tactic(auto, using(crate::proofs::InOrders::Given::walks_none))]
fn inner_talk(talk: Option<TalkRec>, part: u8, words: &mut [u64; 64])
    requires { words.old ≡ no_words }
    ensures { (ss : List records.SpaceRec) (slot : ℕ) (bind : ℕ → ℕ) (n : ℕ) (s : records.SpaceRec) (x : ℕ)
        → words.new ≡ words_in (places.asked ss slot bind (passes.talk_part ss slot bind n s x part talk)) }
{
    match talk {
        None => nothing(words),
        Some(talk) => {
            if are_within(talk.port, talk.server) {
                match part {
                    0 => nothing(words),
                    1 => nothing(words),
                    _ => talk_words(talk, words),
                }
            } else {
                nothing(words)
            }
        }
    }
}

/// The words of a fault at a port inside that nobody has taken.
#[tactic(auto, using(crate::proofs::InOrders::Given::walks_none))]
fn raised_fault(fault: FaultRec, part: u8, words: &mut [u64; 64])
    requires { words.old ≡ no_words }
    ensures { (ss : List records.SpaceRec) (slot : ℕ) (bind : ℕ → ℕ) (n : ℕ) (s : records.SpaceRec) (x : ℕ)
        → words.new ≡ words_in (places.asked ss slot bind (passes.taken_part ss slot bind n s x part fault None)) }
{
    if leads_within(fault.port) {
        match part {
            0 => nothing(words),
            1 => nothing(words),
            _ => fault_words(fault, words),
        }
    } else {
        nothing(words)
    }
}

/// The words of a fault inside that was taken.
#[tactic(auto, using(crate::proofs::InOrders::Given::walks_none))]
fn taken_fault(fault: FaultRec, taker: Link, part: u8, words: &mut [u64; 64])
    requires { words.old ≡ no_words }
    ensures { (ss : List records.SpaceRec) (slot : ℕ) (bind : ℕ → ℕ) (n : ℕ) (s : records.SpaceRec) (x : ℕ)
        → words.new ≡ words_in (places.asked ss slot bind (passes.taken_part ss slot bind n s x part fault (Some taker))) }
{
    if are_within(fault.port, taker) {
        match part {
            0 => nothing(words),
            1 => nothing(words),
            _ => fault_words(fault, words),
        }
    } else {
        nothing(words)
    }
}

/// The words of a fault inside.
fn inner_fault(fault: Option<FaultRec>, part: u8, words: &mut [u64; 64])
    requires { words.old ≡ no_words }
    ensures { (ss : List records.SpaceRec) (slot : ℕ) (bind : ℕ → ℕ) (n : ℕ) (s : records.SpaceRec) (x : ℕ)
        → words.new ≡ words_in (places.asked ss slot bind (passes.fault_part ss slot bind n s x part fault)) }
{
    match fault {
        None => nothing(words),
        Some(fault) => match fault.taker {
            None => raised_fault(fault, part, words),
            Some(taker) => taken_fault(fault, taker, part, words),
        },
    }
}

/// The words of a talk and of a fault between threads inside.
fn ties(body: &Rec, part: u8, words: &mut [u64; 64])
    requires { words.old ≡ no_words }
    ensures { (ss : List records.SpaceRec) (slot : ℕ) (bind : ℕ → ℕ) (n : ℕ) (s : records.SpaceRec) (x : ℕ)
        → words.new ≡ words_in (places.asked ss slot bind (passes.ties_part ss slot bind n s x body.now part)) }
{
    if part < 3 {
        inner_talk(talk_of(body), part, words)
    } else if part < 6 {
        inner_fault(fault_of(body), part - 3, words)
    } else {
        nothing(words)
    }
}

/// The words of a part that leads out, of an object of a space.
fn outward_at(space: &SpaceRec, out: u8, item: usize, part: u8, words: &mut [u64; 64])
    requires { words.old ≡ no_words }
    ensures { (ss : List records.SpaceRec) (slot : ℕ) (bind : ℕ → ℕ) (n : ℕ) → words.new ≡ words_in
        (places.asked ss slot bind (passes.object_parts ss slot bind n space.now (passes.outward_part ss slot bind n space.now out) item part)) }
{
    match space.objects.as_slice().get(item) {
        None => nothing(words),
        Some(object) => outward(out, &object.body, part, words),
    }
}

/// The words of a part that ties, of an object of a space.
fn ties_at(space: &SpaceRec, item: usize, part: u8, words: &mut [u64; 64])
    requires { words.old ≡ no_words }
    ensures { (ss : List records.SpaceRec) (slot : ℕ) (bind : ℕ → ℕ) (n : ℕ) → words.new ≡ words_in
        (places.asked ss slot bind (passes.object_parts ss slot bind n space.now (passes.ties_part ss slot bind n space.now) item part)) }
{
    match space.objects.as_slice().get(item) {
        None => nothing(words),
        Some(object) => ties(&object.body, part, words),
    }
}

/// The words of a part where a space is filled.
fn filling_part(space: &SpaceRec, item: usize, part: u8, words: &mut [u64; 64])
    requires { words.old ≡ no_words }
    ensures { (ss : List records.SpaceRec) (slot : ℕ) (bind : ℕ → ℕ) (n : ℕ)
        → words.new ≡ words_in (places.asked ss slot bind (passes.fills_part ss slot bind n space.now item part)) }
{
    if part == 0 {
        filling(space, item, words)
    } else {
        nothing(words)
    }
}

/// The words of a part of an item.
#[tactic(auto, using(crate::proofs::InOrders::Given::makes_none, crate::proofs::InOrders::Given::inward_none, crate::proofs::InOrders::Given::holds_none))]
fn part_words(space: &SpaceRec, pass: Pass, item: usize, part: u8, words: &mut [u64; 64])
    requires { words.old ≡ no_words }
    ensures { (ss : List records.SpaceRec) (slot : ℕ) (bind : ℕ → ℕ) (n : ℕ)
        → words.new ≡ words_in (places.asked ss slot bind (passes.part_at ss slot bind n space.now pass item part)) }
{
    match pass {
        Pass::Spaces => nothing(words),
        Pass::Fills => filling_part(space, item, part, words),
        Pass::Inward => nothing(words),
        Pass::Outward(out) => outward_at(space, out, item, part, words),
        Pass::Ties => ties_at(space, item, part, words),
        Pass::Holds => nothing(words),
    }
}

/// The words of a part of an item of the space with a number.
fn room_words(
    spaces: &[SpaceRec],
    pass: Pass,
    number: u32,
    item: usize,
    part: u8,
    words: &mut [u64; 64],
)
    requires { words.old ≡ no_words }
    ensures { (slot : ℕ) (bind : ℕ → ℕ)
        → words.new ≡ words_in (places.asked_in spaces.now slot bind pass number item part (slice_get spaces.now number)) }
{
    match spaces.get(number as usize) {
        None => nothing(words),
        Some(space) => {
            if part < 6 {
                part_words(space, pass, item, part, words)
            } else {
                nothing(words)
            }
        }
    }
}

/// The words at a spot of a pass.
#[tactic(auto, using(crate::proofs::InOrders::Given::before_none, crate::proofs::InOrders::Given::behind_none))]
fn spot_words(spaces: &[SpaceRec], pass: Pass, spot: Spot, words: &mut [u64; 64])
    requires { words.old ≡ no_words }
    ensures { (slot : ℕ) (bind : ℕ → ℕ) → words.new ≡ words_in (places.spot_order spaces.now slot bind pass spot) }
{
    match spot {
        Spot::Before(_) => nothing(words),
        Spot::Room(_) => nothing(words),
        Spot::Part { space, item, part } => room_words(spaces, pass, space, item, part, words),
        Spot::After(_) => nothing(words),
    }
}

/// Writes the words that a porter gives with the call at a position over zeros, which they stay where there is none.
#[tactic(auto, using(crate::proofs::InOrders::Given::walk_none))]
pub fn words_at(spaces: &[SpaceRec], position: Position, words: &mut [u64; 64])
    requires { words.old ≡ no_words }
    ensures { (slot : ℕ) (bind : ℕ → ℕ) → words.new ≡ words_in (places.order_at spaces.now slot bind position) }
{
    match position.walk {
        Walk::Top { .. } => nothing(words),
        Walk::Down { .. } => nothing(words),
        Walk::Done => spot_words(spaces, position.pass, position.spot, words),
    }
}
