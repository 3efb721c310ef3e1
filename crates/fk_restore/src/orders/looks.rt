//! Which orders look for a port of the nester.
ghost use Rattle.std.specs.Prelude.{◌≡◌, ℕ, slice_get};
ghost use Rattle.laws_restore.specs.Rooms.Restoring.{bound_by};
ghost use Rattle.fk_restore.specs.Positions.Doing.{pins};
ghost use Rattle.fk_restore.specs.Orders.Looks.{look_in};
ghost use Rattle.fk_restore.specs.Positions.Passes as words;
ghost use Rattle.fk_restore.specs.Positions.Positions as places;

use crate::positions::{Pass, Position, Spot, Walk, bound, leads_out_any};
use fk_image::SpaceRec;

/// How the answer to a call is to be heard.
#[derive(Clone, Copy)]
pub enum Look {
    /// Whatever it is, the restore goes on.
    Plain,
    /// Refused, there is no port in this slot of the nester.
    Pins(u8),
    /// It has to tell the port in this slot.
    Checks(u8),
}

/// How the answer to one of the calls that look for a port is heard.
#[tactic(auto, using(crate::proofs::InOrders::Plain::others_plain))]
fn look_among(port: u8, k: u8) -> Look
    ensures { result ≡ look_in (slice_get (pins port) k) }
{
    match k {
        0 => Look::Pins(port),
        2 => Look::Checks(port),
        _ => Look::Plain,
    }
}

/// How the answer to the call before a pass is heard.
#[tactic(auto, using(crate::proofs::InOrders::Plain::opens_plain))]
fn look_before(spaces: &[SpaceRec], pairs: &[(u8, u8)], pass: Pass, k: u8) -> Look
    ensures { (slot : ℕ) → result ≡ look_in (slice_get (words.before spaces.now slot (bound_by pairs.now) pass) k) }
{
    match pass {
        Pass::Outward(out) => {
            if leads_out_any(spaces, out) {
                look_among(bound(pairs, out), k)
            } else {
                Look::Plain
            }
        }
        Pass::Spaces | Pass::Fills | Pass::Inward | Pass::Ties | Pass::Holds => Look::Plain,
    }
}

/// How the answer to the call at a position is heard.
#[tactic(auto, using(crate::proofs::InOrders::Plain::walk_plain, crate::proofs::InOrders::Plain::part_plain, crate::proofs::InOrders::Plain::behind_plain))]
pub fn look_at(spaces: &[SpaceRec], pairs: &[(u8, u8)], position: Position) -> Look
    ensures { (slot : ℕ) → result ≡ look_in (places.order_at spaces.now slot (bound_by pairs.now) position) }
{
    match position.walk {
        Walk::Top { .. } => Look::Plain,
        Walk::Down { .. } => Look::Plain,
        Walk::Done => match position.spot {
            Spot::Before(k) => look_before(spaces, pairs, position.pass, k),
            Spot::Room(_) => Look::Plain,
            Spot::Part { .. } => Look::Plain,
            Spot::After(_) => Look::Plain,
        },
    }
}
