//! The next place where an order stands.
ghost use Rattle.std.specs.Prelude.{◌≡◌, ◌<◌, ◌≤◌, ◌+◌, ◌^◌, ◌&&◌, ◌||◌, ℕ, true, false, not, nat_lt, nat_le, is_none, slice_get, length, IfSome, IfNone};
ghost use Rattle.fk_image.specs.Image.Valid.{is_valid};
ghost use Rattle.laws_restore.specs.Rooms.Restoring.{bound_by};
ghost use Rattle.fk_restore.specs.Positions.Positions.{rest, order_at, IsPosition};
ghost use Rattle.fk_restore.specs.Positions.Code.{stays_within};
ghost use Rattle.fk_restore.specs.Positions.Doing as doing;
ghost use Rattle.fk_restore.specs.Positions.Positions as places;
ghost use Rattle.fk_restore.specs.Orders.Left.{image_of};
ghost use Rattle.fk_restore.specs.Orders.Left as left;

use crate::orders::used::used_from;
use crate::positions::{
    Pass, Position, Spot, Walk, leads_out, link_of, next_item, next_of, stage_at, ties_inside,
};
use fk_image::{Link, ObjectRec, Rec, SpaceRec};

/// The first position of a script.
pub fn first() -> Position
    ensures { result ≡ places.first }
{
    Position {
        walk: Walk::Done,
        pass: Pass::Spaces,
        spot: Spot::Before(0),
        stands: 0,
    }
}

/// Whether it is one of the places with which the script ends.
fn is_closing(position: Position) -> bool
    ensures { result ≡ left.is_closing position }
{
    match position.walk {
        Walk::Done => match position.pass {
            Pass::Holds => match position.spot {
                Spot::After(_) => true,
                Spot::Before(_) | Spot::Room(_) | Spot::Part { .. } => false,
            },
            Pass::Spaces | Pass::Fills | Pass::Inward | Pass::Outward(_) | Pass::Ties => false,
        },
        Walk::Top { .. } | Walk::Down { .. } => false,
    }
}

/// Whether the script is at its end, at a place where an order stands or that is the end.
pub fn is_over(spaces: &[SpaceRec], slot: u8, pairs: &[(u8, u8)], at: Position) -> bool
    requires { left.is_empty at (order_at spaces.now slot (bound_by pairs.now) at) ≡ false }
    ensures { result ≡ is_none (order_at spaces.now slot (bound_by pairs.now) at) }
{
    is_closing(at) && stage_at(spaces, slot, pairs, at).is_none()
}

/// Whether no order stands there, and one may stand behind it.
fn is_empty(spaces: &[SpaceRec], slot: u8, pairs: &[(u8, u8)], position: Position) -> bool
    ensures { result ≡ left.is_empty position (order_at spaces.now slot (bound_by pairs.now) position) }
{
    !is_closing(position) && stage_at(spaces, slot, pairs, position).is_none()
}

/// In how many parts of an item something may be done.
fn parts_of(pass: Pass) -> u8
    ensures { result ≡ left.parts_of pass }
{
    match pass {
        Pass::Spaces | Pass::Fills => 1,
        Pass::Inward | Pass::Holds => 2,
        Pass::Outward(_) => 3,
        Pass::Ties => 6,
    }
}

/// Whether a pointer leads nowhere in the subtree, and to nothing that has died there.
fn leads_nowhere(to: Link) -> bool
    ensures { result ≡ not (stays_within to) }
{
    !matches!(to, Link::In { .. } | Link::Root | Link::Dead)
}

/// Whether nothing is done at an object in a pass.
fn is_idle(pass: Pass, body: &Rec) -> bool
    ensures { result ≡ left.is_idle pass body.now }
{
    match pass {
        Pass::Inward => leads_nowhere(link_of(body)),
        Pass::Outward(out) => !leads_out(out, body),
        Pass::Ties => !ties_inside(body),
        Pass::Spaces | Pass::Fills | Pass::Holds => false,
    }
}

/// Whether nothing is done in a pass at the object with a number in a space.
fn idle_in(pass: Pass, objects: &[ObjectRec], item: usize) -> bool
    ensures { result ≡ left.idle_in pass (slice_get objects.now item) }
{
    match objects.get(item) {
        None => false,
        Some(object) => is_idle(pass, &object.body),
    }
}

/// Whether nothing is done in a pass at the object with a number in the space with a number.
fn idle_at(spaces: &[SpaceRec], pass: Pass, space: u32, item: usize) -> bool
    ensures { result ≡ left.idle_at pass item (slice_get spaces.now space) }
{
    match spaces.get(space as usize) {
        None => false,
        Some(space) => idle_in(pass, space.objects.as_slice(), item),
    }
}

/// Whether nothing is done in an item from a part on.
fn is_spent(spaces: &[SpaceRec], pass: Pass, space: u32, item: usize, part: u8) -> bool
    ensures { result ≡ (nat_lt part 6 && (nat_le (left.parts_of pass) part || left.idle_at pass item (slice_get spaces.now space))) }
{
    part < 6 && (parts_of(pass) <= part || idle_at(spaces, pass, space, item))
}

/// Whether an object follows one, and nothing is done at it in a pass.
fn follows_idle(pass: Pass, objects: &[ObjectRec], item: usize) -> bool
    ensures idle { result ≡ true → left.idle_in pass (slice_get objects.now (item + 1)) ≡ true }
    ensures there { result ≡ true → item + 1 < length objects.now }
{
    let count = objects.len();
    if count == 0 || item >= count - 1 {
        return false;
    }
    idle_in(pass, objects, item + 1)
}

/// The last of those that follow an item and in which nothing is done.
fn last_idle(pass: Pass, objects: &[ObjectRec], item: usize) -> usize
    ensures from { item ≤ result }
    ensures idle { (i : ℕ) → item < i → i ≤ result → left.idle_in pass (slice_get objects.now i) ≡ true }
{
    let mut last = item;
    while follows_idle(pass, objects, last) {
        last += 1;
    }
    last
}

/// The spot behind an item in which nothing is done from a part on, and behind those that follow it and in which nothing is done.
fn behind_item(spaces: &[SpaceRec], pass: Pass, number: u32, item: usize, part: u8) -> Option<Spot>
    requires { length spaces.now < 2 ^ 32 }
    ensures { IfSome result (left.IsBehindItem spaces.now pass number item part) }
{
    if !is_spent(spaces, pass, number, item, part) {
        return None;
    }
    match spaces.get(number as usize) {
        None => None,
        Some(space) => {
            let last = last_idle(pass, space.objects.as_slice(), item);
            Some(next_item(pass, number, space, last))
        }
    }
}

/// The spot behind the item at a spot in which nothing is done from its part on, and behind those that follow it and in which nothing is done.
fn behind(spaces: &[SpaceRec], pass: Pass, spot: Spot) -> Option<Spot>
    requires { length spaces.now < 2 ^ 32 }
    ensures { IfSome result (left.IsBehind spaces.now pass spot) }
{
    match spot {
        Spot::Part { space, item, part } => behind_item(spaces, pass, space, item, part),
        Spot::Before(_) | Spot::Room(_) | Spot::After(_) => None,
    }
}

/// A place where no walk is under way.
fn place(pass: Pass, stands: u32, spot: Spot) -> Position
    ensures { result ≡ doing.place pass stands spot }
{
    Position {
        walk: Walk::Done,
        pass,
        spot,
        stands,
    }
}

/// The place behind items in which nothing is done from a position on.
fn spent(spaces: &[SpaceRec], slot: u8, pairs: &[(u8, u8)], at: Position) -> Option<Position>
    requires valid { is_valid (image_of spaces.now) ≡ true }
    requires place { IsPosition spaces.now slot (bound_by pairs.now) at }
    ensures { IfSome result (left.GoesBy spaces.now slot (bound_by pairs.now) at) }
{
    match at.walk {
        Walk::Done => match behind(spaces, at.pass, at.spot) {
            Some(spot) => Some(place(at.pass, at.stands, spot)),
            None => None,
        },
        Walk::Top { .. } | Walk::Down { .. } => None,
    }
}

/// The slot of the nester whose pass is about to begin.
fn begins(at: Position) -> Option<u8>
    ensures { result ≡ left.begins at }
{
    match at.walk {
        Walk::Done => match at.pass {
            Pass::Outward(out) => match at.spot {
                Spot::Before(k) => { if k == 0 { Some(out) } else { None } }
                Spot::Room(_) | Spot::Part { .. } | Spot::After(_) => None,
            },
            Pass::Spaces | Pass::Fills | Pass::Inward | Pass::Ties | Pass::Holds => None,
        },
        Walk::Top { .. } | Walk::Down { .. } => None,
    }
}

/// The pass of a slot of the nester, or the one behind those of all slots.
fn slot_pass(out: u8) -> Pass
    ensures { result ≡ left.slot_pass out }
{
    if out < 240 {
        Pass::Outward(out)
    } else {
        Pass::Ties
    }
}

/// The place before the pass of the next slot to which something leads, where one is about to begin of a slot to which nothing does.
fn unused(spaces: &[SpaceRec], slot: u8, pairs: &[(u8, u8)], at: Position) -> Option<Position>
    requires valid { is_valid (image_of spaces.now) ≡ true }
    requires place { IsPosition spaces.now slot (bound_by pairs.now) at }
    ensures { IfSome result (left.GoesBy spaces.now slot (bound_by pairs.now) at) }
{
    match begins(at) {
        None => None,
        Some(out) => {
            let used = used_from(spaces, out);
            if out < used {
                Some(place(slot_pass(used), at.stands, Spot::Before(0)))
            } else {
                None
            }
        }
    }
}

/// A place behind a position from which on the orders are the same; nothing where an order stands at the position,
/// or the script is at its end.
fn passed(spaces: &[SpaceRec], slot: u8, pairs: &[(u8, u8)], at: Position) -> Option<Position>
    requires valid { is_valid (image_of spaces.now) ≡ true }
    requires place { IsPosition spaces.now slot (bound_by pairs.now) at }
    ensures goes { IfSome result (left.GoesBy spaces.now slot (bound_by pairs.now) at) }
    ensures stands { IfNone result (left.is_empty at (order_at spaces.now slot (bound_by pairs.now) at) ≡ false) }
{
    if let Some(end) = spent(spaces, slot, pairs, at) {
        Some(end)
    } else if let Some(next) = unused(spaces, slot, pairs, at) {
        Some(next)
    } else if is_empty(spaces, slot, pairs, at) {
        Some(next_of(spaces, slot, pairs, at))
    } else {
        None
    }
}

/// The first place from a position on where an order stands, or the end. From there on the orders are the same.
pub fn settled_from(
    spaces: &[SpaceRec],
    slot: u8,
    pairs: &[(u8, u8)],
    position: Position,
) -> Position
    requires valid { is_valid (image_of spaces.now) ≡ true }
    requires place { IsPosition spaces.now slot (bound_by pairs.now) position }
    ensures rest { rest spaces.now slot (bound_by pairs.now) result ≡ rest spaces.now slot (bound_by pairs.now) position }
    ensures place { IsPosition spaces.now slot (bound_by pairs.now) result }
    ensures stands { left.is_empty result (order_at spaces.now slot (bound_by pairs.now) result) ≡ false }
{
    let mut at = position;
    while let Some(next) = passed(spaces, slot, pairs, at) {
        at = next;
    }
    at
}
