//! The next position.
ghost use Rattle.std.specs.Prelude.{◌≡◌, ◌<◌, ◌^◌, ◌-◌, ℕ, List, suc, nat_lt, length, slice_get};
ghost use Rattle.fk_image.specs.declared.image.image.SpaceRec as records;
ghost use Rattle.laws_restore.specs.Rooms.Restoring.{bound_by};
ghost use Rattle.fk_restore.specs.Positions.Passes as words;
ghost use Rattle.fk_restore.specs.Positions.Positions as places;
ghost use Rattle.fk_restore.specs.declared.positions.position.Spot.TheVariants as spots;
ghost use Rattle.fk_restore.specs.Positions.Doing.{walk_in, place, first_spot, next_item};

use crate::positions::parts::{Doing, part_at};
use crate::positions::passes::{leads_out_any, site, visits};
use crate::positions::position::{Pass, Position, Spot, Walk};
use crate::positions::walks::{goes, walk_next};
use fk_image::SpaceRec;

/// How many orders stand before a pass.
fn before_count(spaces: &[SpaceRec], slot: u8, pairs: &[(u8, u8)], pass: Pass) -> u8
    ensures { result ≡ length (words.before spaces.now slot (bound_by pairs.now) pass) }
{
    match pass {
        Pass::Spaces => 9,
        Pass::Outward(out) => { if leads_out_any(spaces, out) { 3 } else { 0 } }
        Pass::Fills | Pass::Inward | Pass::Ties | Pass::Holds => 0,
    }
}

/// How many stand behind it.
fn behind_count(spaces: &[SpaceRec], pass: Pass) -> u8
    ensures { result ≡ length (words.behind spaces.now pass) }
{
    match pass {
        Pass::Holds => 7,
        Pass::Outward(out) => { if leads_out_any(spaces, out) { 1 } else { 0 } }
        Pass::Spaces | Pass::Fills | Pass::Inward | Pass::Ties => 0,
    }
}

/// The items of a space in a pass.
fn items_of(pass: Pass, space: &SpaceRec) -> usize
    ensures { result ≡ words.items_of pass space.now }
{
    let objects = space.objects.as_slice().len();
    match pass {
        Pass::Spaces | Pass::Holds => 1,
        Pass::Fills => objects + objects + space.pages.as_slice().len(),
        Pass::Inward | Pass::Outward(_) | Pass::Ties => objects,
    }
}

/// Where no walk is under way.
fn at(pass: Pass, stands: u32, spot: Spot) -> Position
    ensures { result ≡ place pass stands spot }
{
    Position {
        walk: Walk::Done,
        pass,
        spot,
        stands,
    }
}

/// The first place of the pass behind this one.
fn next_pass(pass: Pass, stands: u32) -> Position
    ensures { (ss : List records.SpaceRec) (slot : ℕ) (bind : ℕ → ℕ) → result ≡ places.next_pass ss slot bind pass stands }
{
    match pass {
        Pass::Spaces => at(Pass::Fills, stands, Spot::Before(0)),
        Pass::Fills => at(Pass::Inward, stands, Spot::Before(0)),
        Pass::Inward => at(Pass::Outward(0), stands, Spot::Before(0)),
        Pass::Outward(out) => {
            if out < 239 {
                at(Pass::Outward(out + 1), stands, Spot::Before(0))
            } else {
                at(Pass::Ties, stands, Spot::Before(0))
            }
        }
        Pass::Ties => at(Pass::Holds, stands, Spot::Before(0)),
        Pass::Holds => at(Pass::Holds, stands, Spot::After(7)),
    }
}

/// The first place in a space that a pass visits: its first item, or the next space.
fn first_spot(pass: Pass, number: u32, space: &SpaceRec) -> Spot
    requires { number < 2 ^ 32 - 1 }
    ensures { result ≡ first_spot pass number space.now }
{
    if 0 < items_of(pass, space) {
        Spot::Part {
            space: number,
            item: 0,
            part: 0,
        }
    } else {
        Spot::Room(number + 1)
    }
}

/// The place behind a space that is next.
fn next_room(
    spaces: &[SpaceRec],
    slot: u8,
    pairs: &[(u8, u8)],
    pass: Pass,
    stands: u32,
    number: u32,
) -> Position
    requires { length spaces.now < 2 ^ 32 }
    ensures { result ≡ places.next_room spaces.now slot (bound_by pairs.now) pass stands number (slice_get spaces.now number) }
{
    match spaces.get(number as usize) {
        None => at(pass, stands, Spot::After(0)),
        Some(space) => {
            if visits(spaces, pass, number, space) {
                let stands_then = site(pass, number, space);
                Position {
                    walk: goes(spaces, slot, stands, stands_then),
                    pass,
                    spot: first_spot(pass, number, space),
                    stands: stands_then,
                }
            } else {
                at(pass, stands, Spot::Room(number + 1))
            }
        }
    }
}

/// The walk of a part.
fn walk_of_part(part: Doing) -> Walk
    ensures { result ≡ walk_in part }
{
    match part {
        Doing::Walks(walk) => walk,
        Doing::Nothing | Doing::Asks(_) => Walk::Done,
    }
}

/// The walk of a part of an item.
fn part_walk(
    spaces: &[SpaceRec],
    slot: u8,
    pairs: &[(u8, u8)],
    number: u32,
    space: &SpaceRec,
    pass: Pass,
    item: usize,
    part: u8,
) -> Walk
    ensures { result ≡ places.walked spaces.now slot (bound_by pairs.now)
        (words.part_at spaces.now slot (bound_by pairs.now) number space.now pass item part) }
{
    walk_of_part(part_at(spaces, slot, pairs, number, space, pass, item, part))
}

/// Whether an item follows.
fn follows(item: usize, items: usize) -> bool
    ensures { result ≡ nat_lt (suc item) items }
{
    0 < items && item < items - 1
}

/// The first part of the item behind this one, or the next space.
pub fn next_item(pass: Pass, number: u32, space: &SpaceRec, item: usize) -> Spot
    requires { number < 2 ^ 32 - 1 }
    ensures { result ≡ next_item pass number space.now item }
{
    if follows(item, items_of(pass, space)) {
        Spot::Part {
            space: number,
            item: item + 1,
            part: 0,
        }
    } else {
        Spot::Room(number + 1)
    }
}

/// The place behind a part of an item.
fn next_part(
    spaces: &[SpaceRec],
    slot: u8,
    pairs: &[(u8, u8)],
    pass: Pass,
    stands: u32,
    number: u32,
    item: usize,
    part: u8,
) -> Position
    requires { length spaces.now < 2 ^ 32 }
    ensures { result ≡ places.next_part spaces.now slot (bound_by pairs.now) pass stands number item part (slice_get spaces.now number) }
{
    match spaces.get(number as usize) {
        None => at(pass, stands, Spot::After(0)),
        Some(space) => {
            if part < 6 {
                Position {
                    walk: part_walk(spaces, slot, pairs, number, space, pass, item, part),
                    pass,
                    spot: Spot::Part {
                        space: number,
                        item,
                        part: part + 1,
                    },
                    stands,
                }
            } else {
                at(pass, stands, next_item(pass, number, space, item))
            }
        }
    }
}

/// The place behind one before a pass.
fn next_before(
    spaces: &[SpaceRec],
    slot: u8,
    pairs: &[(u8, u8)],
    pass: Pass,
    stands: u32,
    k: u8,
) -> Position
    ensures { result ≡ places.spot_next spaces.now slot (bound_by pairs.now) pass stands (spots.Before k) }
{
    if k < before_count(spaces, slot, pairs, pass) {
        at(pass, stands, Spot::Before(k + 1))
    } else {
        at(pass, stands, Spot::Room(0))
    }
}

/// The place behind one behind a pass.
fn next_after(
    spaces: &[SpaceRec],
    slot: u8,
    pairs: &[(u8, u8)],
    pass: Pass,
    stands: u32,
    k: u8,
) -> Position
    ensures { result ≡ places.spot_next spaces.now slot (bound_by pairs.now) pass stands (spots.After k) }
{
    if k < behind_count(spaces, pass) {
        at(pass, stands, Spot::After(k + 1))
    } else {
        next_pass(pass, stands)
    }
}

/// The place behind a spot of a pass.
fn spot_next(
    spaces: &[SpaceRec],
    slot: u8,
    pairs: &[(u8, u8)],
    pass: Pass,
    stands: u32,
    spot: Spot,
) -> Position
    requires { length spaces.now < 2 ^ 32 }
    ensures { result ≡ places.spot_next spaces.now slot (bound_by pairs.now) pass stands spot }
{
    match spot {
        Spot::Before(k) => next_before(spaces, slot, pairs, pass, stands, k),
        Spot::Room(number) => next_room(spaces, slot, pairs, pass, stands, number),
        Spot::Part { space, item, part } => {
            next_part(spaces, slot, pairs, pass, stands, space, item, part)
        }
        Spot::After(k) => next_after(spaces, slot, pairs, pass, stands, k),
    }
}

/// The next position.
pub fn next_of(spaces: &[SpaceRec], slot: u8, pairs: &[(u8, u8)], position: Position) -> Position
    requires { length spaces.now < 2 ^ 32 }
    ensures { result ≡ places.next_of spaces.now slot (bound_by pairs.now) position }
{
    match position.walk {
        Walk::Done => spot_next(
            spaces,
            slot,
            pairs,
            position.pass,
            position.stands,
            position.spot,
        ),
        Walk::Top { .. } | Walk::Down { .. } => Position {
            walk: walk_next(spaces, position.walk),
            pass: position.pass,
            spot: position.spot,
            stands: position.stands,
        },
    }
}
