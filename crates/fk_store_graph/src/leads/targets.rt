//! Where the fields of a body lead as pointers.
ghost use Rattle.std.specs.Prelude.{◌≡◌, ◌<◌, ◌≤◌, ℕ, None, true};
ghost use Rattle.fk_store_graph.specs.Hints.Leads as leads;
ghost use Rattle.fk_store_graph.specs.Leads.Leading as leading;
ghost use Rattle.fk_store_graph.specs.Leads.Leading.{target};

use crate::hints::{Sort, fields, led, led_by_fault};
use fk_model::{Body, Fault, Who};

/// Where a field of a body leads as a pointer.
#[tactic(auto, unfolding(crate::specs::Leads::Leading::target))]
pub fn target_of(body: &Body, field: u8) -> Option<Who>
    ensures { result ≡ target field body.now }
{
    let lead = led(body, field)?;
    match lead.sort {
        Sort::Pointer => Some(lead.to),
        Sort::Served | Sort::Taken => None,
    }
}

/// Where a field of a thread with this fault leads as a pointer, of the fields 3 to 5.
pub fn target_of_fault(fault: Option<Fault>, field: u8) -> Option<Who>
    ensures { result ≡ leading.fault_target field fault }
{
    let lead = led_by_fault(fault, field)?;
    match lead.sort {
        Sort::Pointer => Some(lead.to),
        Sort::Served | Sort::Taken => None,
    }
}

/// They are the same object, or both none; true only if so.
pub fn is_same(one: Option<Who>, other: Option<Who>) -> bool
    ensures { result ≡ true → one ≡ other }
{
    match one {
        None => other.is_none(),
        Some(one) => match other {
            None => false,
            Some(other) => one == other,
        },
    }
}

/// The pointers of a body are among so many of its first fields.
pub fn ends(body: &Body) -> u8
    ensures past { (i : ℕ) → result ≤ i → i < 5 → leads.led body.now i ≡ None }
    ensures few { result ≤ 5 }
{
    if is_single(body) {
        1
    } else if fields(body) > 0 {
        5
    } else {
        0
    }
}

/// It has one field.
fn is_single(body: &Body) -> bool
    ensures { result ≡ leading.is_single body.now }
{
    matches!(
        body,
        Body::Mapping { .. } | Body::Region { .. } | Body::Space { .. } | Body::Reference { .. }
    )
}

/// The larger of two.
pub fn larger(one: u8, other: u8) -> u8
    ensures one { one ≤ result }
    ensures other { other ≤ result }
    ensures few { one ≤ 5 → other ≤ 5 → result ≤ 5 }
{
    if one < other { other } else { one }
}
