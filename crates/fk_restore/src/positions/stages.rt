//! The call of the order that stands at a position.
ghost use Rattle.std.specs.Prelude.{◌≡◌, map, option_map, slice_get};
ghost use Rattle.laws_restore.specs.Rooms.Restoring.{bound_by};
ghost use Rattle.laws_restore.specs.Sites.Orders.{stage_of};
ghost use Rattle.fk_model.specs.declared.stage.Stage.TheVariants as stages;
ghost use Rattle.laws_restore.specs.Restore.Script as script;
ghost use Rattle.fk_restore.specs.Positions.Passes as words;
ghost use Rattle.fk_restore.specs.Positions.Positions as places;
ghost use Rattle.fk_restore.specs.Positions.Doing.{stage_in, pins, leads_in_again};

use crate::positions::binding::bound;
use crate::positions::parts::{Doing, part_at};
use crate::positions::passes::leads_out_any;
use crate::positions::position::{Pass, Position, Spot, Walk};
use crate::positions::walks::{DEAD, NESTER, PEERS, PLACES, TARGETS, walk_stage};
use fk_image::SpaceRec;
use fk_model::limits::FIRST_SCRATCH_SLOT;
use fk_model::{Stage, kind};

/// The reference in the new space that is led to a port of the nester.
const PIN: u64 = FIRST_SCRATCH_SLOT;

/// A scratch reference is made.
fn readies(scratch: u8) -> Stage
    ensures { result ≡ stages.Create 256 scratch 9 }
{
    Stage::Create {
        s: NESTER,
        x: u64::from(scratch),
        kind: kind::REFERENCE,
    }
}

/// A scratch reference is led to a slot of a space.
fn leads(scratch: u8, name: u64, slot: u64) -> Stage
    ensures { result ≡ stages.Point 256 scratch name slot }
{
    Stage::Point {
        s: NESTER,
        x: u64::from(scratch),
        s2: name,
        x2: slot,
    }
}

fn destroys(space: u64, slot: u64) -> Stage
    ensures { result ≡ stages.Destroy space slot }
{
    Stage::Destroy { s: space, x: slot }
}

/// A scratch reference is gone.
fn drops(scratch: u8) -> Stage
    ensures { result ≡ stages.Destroy 256 scratch }
{
    destroys(NESTER, u64::from(scratch))
}

/// The calls with which the script begins.
fn opens(slot: u8) -> [Stage; 9]
    ensures { result ≡ map (stage_of slot) (script.opens slot) }
{
    let new = u64::from(slot);
    [
        readies(PLACES),
        readies(TARGETS),
        readies(PEERS),
        readies(DEAD),
        Stage::Create {
            s: new,
            x: 0,
            kind: kind::REGION,
        },
        leads(DEAD, new, 0),
        destroys(new, 0),
        Stage::Create {
            s: new,
            x: PIN,
            kind: kind::REFERENCE,
        },
        leads(PLACES, NESTER, new),
    ]
}

/// The calls with which it ends.
fn closes(slot: u8) -> [Stage; 7]
    ensures { result ≡ map (stage_of slot) script.closes }
{
    let new = u64::from(slot);
    [
        leads(TARGETS, NESTER, new),
        leads(PEERS, NESTER, new),
        destroys(new, PIN),
        drops(PLACES),
        drops(TARGETS),
        drops(PEERS),
        drops(DEAD),
    ]
}

/// The calls that look for a port of the nester.
fn looks(slot: u8, port: u8) -> [Stage; 3]
    ensures { result ≡ map (stage_of slot) (pins port) }
{
    let new = u64::from(slot);
    [
        Stage::Point {
            s: new,
            x: PIN,
            s2: NESTER,
            x2: u64::from(port),
        },
        leads(TARGETS, new, PIN),
        Stage::Locate {
            reference: u64::from(TARGETS),
            s: NESTER,
        },
    ]
}

/// The stage with a number.
fn stage_among(stages: &[Stage], k: u8) -> Option<Stage>
    ensures { result ≡ slice_get stages.now k }
{
    match stages.get(k as usize) {
        None => None,
        Some(stage) => Some(*stage),
    }
}

fn opening(slot: u8, k: u8) -> Option<Stage>
    ensures { result ≡ option_map (stage_of slot) (slice_get (script.opens slot) k) }
{
    stage_among(&opens(slot), k)
}

fn closing(slot: u8, k: u8) -> Option<Stage>
    ensures { result ≡ option_map (stage_of slot) (slice_get script.closes k) }
{
    stage_among(&closes(slot), k)
}

fn looking(slot: u8, port: u8, k: u8) -> Option<Stage>
    ensures { result ≡ option_map (stage_of slot) (slice_get (pins port) k) }
{
    stage_among(&looks(slot, port), k)
}

/// The call that leads a scratch reference in again.
fn leaves(slot: u8) -> [Stage; 1]
    ensures { result ≡ map (stage_of slot) leads_in_again }
{
    [leads(TARGETS, NESTER, u64::from(slot))]
}

fn leaving(slot: u8, k: u8) -> Option<Stage>
    ensures { result ≡ option_map (stage_of slot) (slice_get leads_in_again k) }
{
    stage_among(&leaves(slot), k)
}

/// The call with a number before a pass.
fn before(spaces: &[SpaceRec], slot: u8, pairs: &[(u8, u8)], pass: Pass, k: u8) -> Option<Stage>
    ensures { result ≡ option_map (stage_of slot) (slice_get (words.before spaces.now slot (bound_by pairs.now) pass) k) }
{
    match pass {
        Pass::Spaces => opening(slot, k),
        Pass::Outward(out) => {
            if leads_out_any(spaces, out) {
                looking(slot, bound(pairs, out), k)
            } else {
                None
            }
        }
        Pass::Fills | Pass::Inward | Pass::Ties | Pass::Holds => None,
    }
}

/// The call with a number behind a pass.
fn behind(spaces: &[SpaceRec], slot: u8, pass: Pass, k: u8) -> Option<Stage>
    ensures { result ≡ option_map (stage_of slot) (slice_get (words.behind spaces.now pass) k) }
{
    match pass {
        Pass::Holds => closing(slot, k),
        Pass::Outward(out) => {
            if leads_out_any(spaces, out) {
                leaving(slot, k)
            } else {
                None
            }
        }
        Pass::Spaces | Pass::Fills | Pass::Inward | Pass::Ties => None,
    }
}

/// The call of a part.
fn stage_of_part(part: Doing) -> Option<Stage>
    ensures { result ≡ stage_in part }
{
    match part {
        Doing::Nothing | Doing::Walks(_) => None,
        Doing::Asks(stage) => Some(stage),
    }
}

/// The call of a part of an item.
fn part_stage(
    spaces: &[SpaceRec],
    slot: u8,
    pairs: &[(u8, u8)],
    number: u32,
    space: &SpaceRec,
    pass: Pass,
    item: usize,
    part: u8,
) -> Option<Stage>
    ensures { result ≡ option_map (stage_of slot) (places.asked spaces.now slot (bound_by pairs.now)
        (words.part_at spaces.now slot (bound_by pairs.now) number space.now pass item part)) }
{
    stage_of_part(part_at(spaces, slot, pairs, number, space, pass, item, part))
}

/// The call of a part of an item of the space with a number.
fn asked(
    spaces: &[SpaceRec],
    slot: u8,
    pairs: &[(u8, u8)],
    pass: Pass,
    number: u32,
    item: usize,
    part: u8,
) -> Option<Stage>
    ensures { result ≡ option_map (stage_of slot)
        (places.asked_in spaces.now slot (bound_by pairs.now) pass number item part (slice_get spaces.now number)) }
{
    match spaces.get(number as usize) {
        None => None,
        Some(space) => {
            if part < 6 {
                part_stage(spaces, slot, pairs, number, space, pass, item, part)
            } else {
                None
            }
        }
    }
}

/// The call at a spot of a pass.
fn spot_stage(
    spaces: &[SpaceRec],
    slot: u8,
    pairs: &[(u8, u8)],
    pass: Pass,
    spot: Spot,
) -> Option<Stage>
    ensures { result ≡ option_map (stage_of slot) (places.spot_order spaces.now slot (bound_by pairs.now) pass spot) }
{
    match spot {
        Spot::Before(k) => before(spaces, slot, pairs, pass, k),
        Spot::Room(_) => None,
        Spot::Part { space, item, part } => asked(spaces, slot, pairs, pass, space, item, part),
        Spot::After(k) => behind(spaces, slot, pass, k),
    }
}

/// The call of the order that stands at a position, if one does.
pub fn stage_at(
    spaces: &[SpaceRec],
    slot: u8,
    pairs: &[(u8, u8)],
    position: Position,
) -> Option<Stage>
    ensures { result ≡ option_map (stage_of slot) (places.order_at spaces.now slot (bound_by pairs.now) position) }
{
    match position.walk {
        Walk::Done => spot_stage(spaces, slot, pairs, position.pass, position.spot),
        Walk::Top { .. } | Walk::Down { .. } => walk_stage(spaces, slot, position.walk),
    }
}
