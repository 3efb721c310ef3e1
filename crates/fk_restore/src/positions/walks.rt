//! Walks of scratch references by numbers of spaces.
ghost use Rattle.std.specs.Prelude.{◌≡◌, option_map};
ghost use Rattle.fk_model.specs.declared.stage.Stage.TheVariants as stages;
ghost use Rattle.laws_restore.specs.Sites.Orders.{stage_of};
ghost use Rattle.fk_restore.specs.Positions.Walks as words;

use crate::positions::position::Walk;
use fk_image::{Link, SpaceRec};
use fk_model::Stage;
use fk_model::limits::{FIRST_SCRATCH_SLOT, OWN_SPACE};

/// The scratch references: to the place that is worked at, to what a pointer shall lead to, to a peer, and to what was destroyed.
pub const PLACES: u8 = FIRST_SCRATCH_SLOT as u8;

pub const TARGETS: u8 = PLACES + 1;

pub const PEERS: u8 = PLACES + 2;

pub const DEAD: u8 = PLACES + 3;

/// The nester, as its porter names it.
pub const NESTER: u64 = OWN_SPACE;

fn parent_of(spaces: &[SpaceRec], number: u32) -> u32
    ensures { result ≡ words.parent_of spaces.now number }
{
    match spaces.get(number as usize) {
        None => 0,
        Some(space) => space.parent,
    }
}

fn slot_at(spaces: &[SpaceRec], number: u32) -> u8
    ensures { result ≡ words.slot_at spaces.now number }
{
    match spaces.get(number as usize) {
        None => 0,
        Some(space) => space.slot,
    }
}

/// Whether a space is another, or lies above it. An image's spaces lie in earlier ones, so it goes up no
/// further than to the first.
#[tactic(auto, unfolding(crate::specs::Positions::Walks::is_above_by))]
fn is_above(spaces: &[SpaceRec], a: u32, b: u32) -> bool
    ensures { result ≡ words.is_above spaces.now a b }
{
    let mut at = b;
    let mut left = b;
    while left > 0 {
        if at <= a {
            return a == at;
        }
        at = parent_of(spaces, at);
        left -= 1;
    }
    a == at
}

/// The space in `a` on the way to `b`.
#[tactic(auto, unfolding(crate::specs::Positions::Walks::child_by))]
fn child_towards(spaces: &[SpaceRec], a: u32, b: u32) -> u32
    ensures { result ≡ words.child_towards spaces.now a b }
{
    let mut at = b;
    let mut left = b;
    while left > 0 {
        let above = parent_of(spaces, at);
        if above == a {
            return at;
        }
        at = above;
        left -= 1;
    }
    at
}

/// The way of the first scratch reference from space to space.
pub fn goes(spaces: &[SpaceRec], slot: u8, a: u32, b: u32) -> Walk
    ensures { result ≡ words.goes spaces.now slot a b }
{
    if is_above(spaces, a, b) {
        Walk::Down {
            scratch: PLACES,
            name: PLACES,
            from: a,
            to: b,
            last: None,
        }
    } else if b == 0 {
        Walk::Top { scratch: PLACES }
    } else {
        Walk::Down {
            scratch: PLACES,
            name: slot,
            from: 0,
            to: b,
            last: None,
        }
    }
}

/// The way of a scratch reference to what a pointer leads to, where the first one stands at space `a`.
pub fn leads(spaces: &[SpaceRec], slot: u8, scratch: u8, a: u32, to: Link) -> Walk
    ensures { result ≡ words.leads spaces.now slot scratch a to }
{
    match to {
        Link::In { slot: last, space } => {
            if is_above(spaces, a, space) {
                Walk::Down {
                    scratch,
                    name: PLACES,
                    from: a,
                    to: space,
                    last: Some(last),
                }
            } else {
                Walk::Down {
                    scratch,
                    name: slot,
                    from: 0,
                    to: space,
                    last: Some(last),
                }
            }
        }
        Link::Root => Walk::Top { scratch },
        Link::Null | Link::Dead | Link::Out(_) | Link::Outside => Walk::Done,
    }
}

fn point(scratch: u8, name: u8, slot: u8) -> Stage
    ensures { result ≡ stages.Point 256 scratch name slot }
{
    Stage::Point {
        s: NESTER,
        x: u64::from(scratch),
        s2: u64::from(name),
        x2: u64::from(slot),
    }
}

/// The call of the first step of a walk.
pub fn walk_stage(spaces: &[SpaceRec], slot: u8, walk: Walk) -> Option<Stage>
    ensures { result ≡ option_map (stage_of slot) (words.walk_order spaces.now walk) }
{
    match walk {
        Walk::Done => None,
        Walk::Top { scratch } => Some(Stage::Point {
            s: NESTER,
            x: u64::from(scratch),
            s2: NESTER,
            x2: u64::from(slot),
        }),
        Walk::Down {
            scratch,
            name,
            from,
            to,
            last,
        } => {
            if from == to {
                match last {
                    None => None,
                    Some(last) => Some(point(scratch, name, last)),
                }
            } else {
                let child = child_towards(spaces, from, to);
                Some(point(scratch, name, slot_at(spaces, child)))
            }
        }
    }
}

/// What is left of a walk behind its first step.
pub fn walk_next(spaces: &[SpaceRec], walk: Walk) -> Walk
    ensures { result ≡ words.walk_next spaces.now walk }
{
    match walk {
        Walk::Done | Walk::Top { .. } => Walk::Done,
        Walk::Down {
            scratch,
            from,
            to,
            last,
            ..
        } => {
            if from == to {
                Walk::Done
            } else {
                Walk::Down {
                    scratch,
                    name: scratch,
                    from: child_towards(spaces, from, to),
                    to,
                    last,
                }
            }
        }
    }
}
