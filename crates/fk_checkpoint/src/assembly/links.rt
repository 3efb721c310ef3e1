//! Pointers as links.
ghost use Rattle.std.specs.Prelude.{◌≡◌, ◌<◌, ◌==◌, not, length, slice_index, slice_get, option_map, IfOk};
ghost use Rattle.fk_model.specs.Places.{same_path, slot_of};
ghost use Rattle.fk_model.specs.Places.Ptr.{At};
ghost use Rattle.fk_model.specs.Cut.{is_out};
ghost use Rattle.fk_checkpoint.specs.Seeking.Seeking.{up};
ghost use Rattle.laws_pictures.specs.Imaged.{rank, link_of, parent_number};
ghost use Rattle.laws_checkpoint.specs.Assembly.{pointer_at, peer_from};
ghost use Rattle.laws_checkpoint.specs.Narrow as narrow;
ghost use Rattle.fk_checkpoint.specs.Gathering.Gathering.{lead_of, leads_of};
ghost use Rattle.fk_checkpoint.specs.Assembly.Assembling.{path_at, spaces_of};

use crate::assembly::words::{byte, number};
use crate::gathering::{Content, Lead};
use fk_image::Link;
use fk_model::NoMemory;
use std::alloc::Global;

/// Whether two paths have different slots at a place.
fn differ(place: &[u8], path: &[u64], at: usize) -> bool
    requires place { at < length place.now }
    requires path { at < length path.now }
    ensures { result ≡ not (slice_index place.now at == slice_index path.now at) }
{
    u64::from(place[at]) != path[at]
}

/// Whether two paths of one length are one.
fn are_slots_same(place: &[u8], path: &[u64]) -> bool
    requires { length place.now ≡ length path.now }
    ensures { result ≡ same_path place.now path.now }
{
    for at in 0..path.len() {
        if differ(place, path, at) {
            return false;
        }
    }
    true
}

/// Whether two paths are one.
#[tactic(auto, using(crate::proofs::InAssembly::Paths::apart_by_length))]
fn is_same(place: &[u8], path: &[u64]) -> bool
    ensures { result ≡ same_path place.now path.now }
{
    if place.len() == path.len() {
        are_slots_same(place, path)
    } else {
        false
    }
}

/// The path of the space at a place.
fn path_at(contents: &[Content], at: usize) -> &[u8]
    ensures { result.now ≡ path_at contents.now at }
{
    match contents.get(at) {
        None => &[],
        Some(content) => content.path.as_slice(),
    }
}

/// The number of the space at a path, among these; how many there are where it is none of them.
fn rank(contents: &[Content], path: &[u64]) -> usize
    ensures { result ≡ rank (spaces_of contents.now) (up path.now) }
{
    for at in 0..contents.len() {
        if is_same(path_at(contents, at), path) {
            return at;
        }
    }
    contents.len()
}

/// The slots of a path as words.
fn wide(alloc: Global, place: &[u8]) -> Result<Vec<u64>, NoMemory>
    ensures { IfOk result (λ wide. wide.items ≡ place.now) }
{
    let mut wide = Vec::new(alloc);
    for slot in place {
        wide.push(u64::from(*slot))?;
    }
    Ok(wide)
}

/// The number of the space in which a space lies.
///
/// # Errors
///
/// There is no memory for its path.
#[tactic(auto, using(crate::proofs::InAssembly::Paths::parent_up))]
pub fn parent(alloc: Global, contents: &[Content], place: &[u8]) -> Result<u32, NoMemory>
    ensures { IfOk result (λ parent. parent ≡ narrow.number (parent_number (spaces_of contents.now) (up place.now))) }
{
    if place.is_empty() {
        return Ok(u32::MAX);
    }
    let above = wide(alloc, &place[..place.len() - 1])?;
    Ok(number(rank(contents, above.as_slice())))
}

/// The slot of a space in its parent.
#[tactic(auto, using(crate::proofs::InAssembly::Paths::slot_up))]
pub fn slot(place: &[u8]) -> u8
    ensures { result ≡ slot_of (up place.now) }
{
    if place.is_empty() {
        return 0;
    }
    place[place.len() - 1]
}

/// The link to what lies at a path.
#[tactic(auto, using(crate::proofs::InAssembly::Paths::link_up))]
fn link_in(contents: &[Content], path: &[u64]) -> Link
    ensures { result ≡ narrow.narrow_link (link_of (spaces_of contents.now) (At (up path.now))) }
{
    if path.is_empty() {
        return Link::Root;
    }
    let last = path.len() - 1;
    Link::In {
        slot: byte(path[last]),
        space: number(rank(contents, &path[..last])),
    }
}

/// A pointer as a link.
fn link_of(contents: &[Content], lead: &Lead) -> Link
    ensures { result ≡ narrow.narrow_link (link_of (spaces_of contents.now) (lead_of lead.now)) }
{
    match lead {
        Lead::Null => Link::Null,
        Lead::Dead => Link::Dead,
        Lead::At(path) => link_in(contents, path.as_slice()),
        Lead::Out(slot) => Link::Out(byte(*slot)),
        Lead::Far => Link::Outside,
    }
}

/// The pointer at a place.
fn lead_at(leads: &[Lead], at: usize) -> Option<&Lead>
    ensures { option_map (λ lead. lead.now) result ≡ slice_get leads.now at }
{
    leads.get(at)
}

/// The link at a place of pointers.
pub fn link_at(contents: &[Content], leads: &[Lead], at: usize) -> Link
    ensures { result ≡ narrow.narrow_link (link_of (spaces_of contents.now) (pointer_at (leads_of leads.now) at)) }
{
    match lead_at(leads, at) {
        Some(lead) => link_of(contents, lead),
        None => Link::Null,
    }
}

/// Whether a pointer leads to a port of the nester.
fn is_out(lead: &Lead) -> bool
    ensures { result ≡ is_out (lead_of lead.now) }
{
    match lead {
        Lead::Out(_) => true,
        Lead::Null | Lead::Dead | Lead::Far | Lead::At(_) => false,
    }
}

/// Whether the pointer at a place leads to a port of the nester.
fn is_out_at(leads: &[Lead], at: usize) -> bool
    ensures { result ≡ is_out (pointer_at (leads_of leads.now) at) }
{
    match lead_at(leads, at) {
        Some(lead) => is_out(lead),
        None => false,
    }
}

/// The link of who serves at a port, by the places of both among pointers.
pub fn peer_at(contents: &[Content], leads: &[Lead], port: usize, peer: usize) -> Link
    ensures { result ≡ narrow.narrow_link (peer_from (spaces_of contents.now) (pointer_at (leads_of leads.now) port) (pointer_at (leads_of leads.now) peer)) }
{
    if is_out_at(leads, port) {
        return Link::Outside;
    }
    link_at(contents, leads, peer)
}
