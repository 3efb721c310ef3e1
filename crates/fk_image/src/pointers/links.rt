//! Whether the pointers of an image lead to what their fields may hold.
ghost use Rattle.std.specs.Prelude.{◌≡◌, ◌≤◌, ◌<◌, ◌+◌, ◌*◌, length, IfOk};
ghost use Rattle.fk_image.specs.Image.Links as leads;
ghost use Rattle.fk_image.specs.Format.Spelling as spells;
ghost use Rattle.fk_image.specs.Format.Offsets as words;
ghost use Rattle.fk_image.specs.Pointers.Places.{IsIndex, has_place};
ghost use Rattle.fk_image.specs.Pointers.Walks.{Sums, Expects, Names, Ends, Walks, Checks, standing};

use crate::image::{
    FaultRec, Link, ObjectRec, Objects, Rec, SpaceRec, TalkRec, ThreadRec, is_set_of,
    kind_in_space, leads_to_keeper, leads_to_port, leads_to_region, serves_port,
};
use crate::pointers::fail::PointerFail;
use crate::pointers::places::{Index, Place, Places};
use fk_model::{Kind, NoMemory};
use std::alloc::Global;

/// Whether a space's holder is a thread that isn't in or beneath it, or there is none.
fn may_hold(spaces: &[SpaceRec], index: &Index, space: usize, holder: Link) -> bool
    requires index { IsIndex spaces.now index.now }
    requires space { space < length spaces.now }
    ensures { result ≡ leads.may_hold spaces.now space holder }
{
    match holder {
        Link::Null => true,
        Link::In { space: other, slot } => {
            matches!(kind_in_space(spaces, other, slot), Some(Kind::Thread))
                && !index.is_space_within(spaces, space, other)
        }
        _ => false,
    }
}

/// Whether a reference leads to what it may lead to.
fn may_refer(spaces: &[SpaceRec], index: &mut Index, to: Link) -> Result<bool, NoMemory>
    requires { IsIndex spaces.now index.old }
    ensures refer { IfOk result (λ may. may ≡ leads.may_refer spaces.now to) }
    ensures index { IsIndex spaces.now index.new }
{
    match to {
        Link::In { space, slot } => {
            if is_referable(kind_in_space(spaces, space, slot)) {
                Ok(true)
            } else {
                index.has_space_at(spaces, space, slot)
            }
        }
        Link::Outside => Ok(false),
        _ => Ok(true),
    }
}

fn is_referable(kind: Option<Kind>) -> bool
    ensures { result ≡ leads.is_referable kind }
{
    matches!(
        kind,
        Some(Kind::Mapping | Kind::Region | Kind::Port | Kind::Thread)
    )
}

/// How many bytes a pointer has.
fn link_size(to: Link) -> u64
    ensures size { result ≡ length (spells.link_bytes to) }
    ensures small { result ≤ 6 }
{
    match to {
        Link::In { .. } => 6,
        Link::Out(_) => 2,
        _ => 1,
    }
}

/// An offset further on. More bytes than a number can count don't fit in memory.
fn plus(at: u64, size: u64) -> Result<u64, PointerFail>
    ensures { Sums result (at + size) }
{
    match at.checked_add(size) {
        Some(sum) => Ok(sum),
        None => Err(PointerFail::NoMemory),
    }
}

/// How many bytes so many pages have.
fn pages_size(count: usize) -> Result<u64, PointerFail>
    ensures { Sums result (513 * count) }
{
    match (count as u64).checked_mul(513) {
        Some(size) => Ok(size),
        None => Err(PointerFail::NoMemory),
    }
}

/// That what stands at an offset is right.
fn expect(right: bool, at: u64) -> Result<(), PointerFail>
    ensures { Expects result (words.expect_at right at) }
{
    if right {
        Ok(())
    } else {
        Err(PointerFail::Wrong(at))
    }
}

/// Whether a thread was named before.
fn is_named(named: &Places, peer: Link) -> bool
    ensures { result ≡ words.is_named (has_place named.now) peer }
{
    match peer {
        Link::In { space, slot } => named.contains(Place { space, slot }),
        _ => false,
    }
}

fn name(named: &mut Places, peer: Link) -> Result<(), PointerFail>
    ensures { Names result (has_place named.new) (words.with_peer peer (has_place named.old)) }
{
    if let Link::In { space, slot } = peer {
        named.insert(Place { space, slot })?;
    }
    Ok(())
}

/// The offset behind a peer of a port, whose tag is at `at`.
#[tactic(auto, unfolding(crate::specs::Format::Offsets::peer_walk))]
fn peer_walk(
    spaces: &[SpaceRec],
    port: Link,
    peer: Link,
    at: u64,
    named: &mut Places,
) -> Result<u64, PointerFail>
    ensures { Walks result named.new (words.peer_walk spaces.now port peer (standing at named.old)) }
{
    expect(
        serves_port(spaces, port, peer) && !is_named(named, peer),
        at,
    )?;
    name(named, peer)?;
    plus(at, link_size(peer))
}

/// The offset behind a port, which is three bytes behind `at`.
#[tactic(auto, unfolding(crate::specs::Format::Offsets::port_walk))]
fn port_end(spaces: &[SpaceRec], port: Link, at: u64) -> Result<u64, PointerFail>
    ensures { (named : words.Named) → Ends result named (words.port_walk spaces.now port (record { at = at; named = named })) }
{
    let tag = plus(at, 3)?;
    expect(leads_to_port(spaces, port), tag)?;
    plus(tag, link_size(port))
}

fn talk_walk(
    spaces: &[SpaceRec],
    talk: Option<TalkRec>,
    at: u64,
    named: &mut Places,
) -> Result<u64, PointerFail>
    ensures { Walks result named.new (words.talk_walk spaces.now talk (standing at named.old)) }
{
    match talk {
        None => plus(at, 1),
        Some(talk) => {
            let at = port_end(spaces, talk.port, at)?;
            peer_walk(spaces, talk.port, talk.server, at, named)
        }
    }
}

fn fault_walk(
    spaces: &[SpaceRec],
    fault: Option<FaultRec>,
    at: u64,
    named: &mut Places,
) -> Result<u64, PointerFail>
    ensures { Walks result named.new (words.fault_walk spaces.now fault (standing at named.old)) }
{
    let Some(fault) = fault else {
        return plus(at, 1);
    };
    let at = port_end(spaces, fault.port, at)?;
    match fault.taker {
        None => Ok(at),
        Some(taker) => peer_walk(spaces, fault.port, taker, at, named),
    }
}

/// The offset behind a thread, whose talk is 142 bytes behind `at`.
#[tactic(auto, unfolding(crate::specs::Format::Offsets::thread_walk))]
fn thread_walk(
    spaces: &[SpaceRec],
    thread: &ThreadRec,
    at: u64,
    named: &mut Places,
) -> Result<u64, PointerFail>
    ensures { Walks result named.new (words.thread_walk spaces.now thread.now (standing at named.old)) }
{
    let talk = plus(at, 142)?;
    let fault = talk_walk(spaces, thread.talk, talk, named)?;
    fault_walk(spaces, thread.fault, fault, named)
}

/// The offset behind a pointer, which is `before` bytes behind `at`.
#[tactic(auto, unfolding(crate::specs::Format::Offsets::link_walk))]
fn link_end(right: bool, before: u64, to: Link, at: u64) -> Result<u64, PointerFail>
    ensures { (named : words.Named) → Ends result named (words.link_walk right before to (record { at = at; named = named })) }
{
    let tag = plus(at, before)?;
    expect(right, tag)?;
    plus(tag, link_size(to))
}

/// The offset behind a port's set.
#[tactic(auto, unfolding(crate::specs::Format::Offsets::set_walk))]
fn set_end(right: bool, at: u64) -> Result<u64, PointerFail>
    ensures { (named : words.Named) → Ends result named (words.set_walk right (record { at = at; named = named })) }
{
    expect(right, plus(at, 2)?)?;
    plus(at, 4)
}

/// The offset behind an object, which begins at `at`.
fn body_walk(
    spaces: &[SpaceRec],
    index: &mut Index,
    objects: &Objects,
    body: &Rec,
    at: u64,
    named: &mut Places,
) -> Result<u64, PointerFail>
    requires { IsIndex spaces.now index.old }
    ensures walk { Walks result named.new (words.body_walk spaces.now objects.now body.now (standing at named.old)) }
    ensures index { IsIndex spaces.now index.new }
{
    match body {
        Rec::Mutex { .. } => plus(at, 3),
        Rec::Cond | Rec::Portset => plus(at, 2),
        Rec::Mapping { region, .. } => link_end(leads_to_region(spaces, *region), 7, *region, at),
        Rec::Region { keeper, .. } => link_end(leads_to_keeper(spaces, *keeper), 6, *keeper, at),
        Rec::Port { set } => set_end(is_set_of(objects, *set), at),
        Rec::Thread(thread) => thread_walk(spaces, thread.get(), at, named),
        Rec::Reference { to } => link_end(may_refer(spaces, index, *to)?, 2, *to, at),
    }
}

#[tactic(auto, unfolding(crate::specs::Format::Offsets::objects_walk))]
fn objects_walk(
    spaces: &[SpaceRec],
    index: &mut Index,
    objects: &Objects,
    from: u64,
    named: &mut Places,
) -> Result<u64, PointerFail>
    requires { IsIndex spaces.now index.old }
    ensures walk { Walks result named.new (words.objects_walk spaces.now objects.now objects.now (standing from named.old)) }
    ensures index { IsIndex spaces.now index.new }
{
    let mut at = from;
    for object in objects.as_slice() {
        at = body_walk(spaces, index, objects, &object.body, at, named)?;
    }
    Ok(at)
}

/// The offset behind a space with a number, which begins at `at`.
#[tactic(auto, unfolding(crate::specs::Format::Offsets::space_walk))]
fn space_walk(
    spaces: &[SpaceRec],
    index: &mut Index,
    number: usize,
    space: &SpaceRec,
    at: u64,
    named: &mut Places,
) -> Result<u64, PointerFail>
    requires index { IsIndex spaces.now index.old }
    requires number { number < length spaces.now }
    ensures walk { Walks result named.new (words.space_walk spaces.now number space.now (standing at named.old)) }
    ensures index { IsIndex spaces.now index.new }
{
    let right = may_hold(spaces, index, number, space.holder);
    let held = link_end(right, 5, space.holder, at)?;
    let end = objects_walk(spaces, index, &space.objects, plus(held, 2)?, named)?;
    plus(plus(end, 2)?, pages_size(space.pages.len())?)
}

#[tactic(auto, unfolding(crate::specs::Format::Offsets::spaces_walk))]
fn spaces_walk(
    spaces: &[SpaceRec],
    index: &mut Index,
    named: &mut Places,
) -> Result<u64, PointerFail>
    requires { IsIndex spaces.now index.old }
    ensures walk { Walks result named.new (words.spaces_walk spaces.now 0 spaces.now (standing 14 named.old)) }
    ensures index { IsIndex spaces.now index.new }
{
    let mut at = 14;
    for number in 0..spaces.len() {
        at = space_walk(spaces, index, number, &spaces[number], at, named)?;
    }
    Ok(at)
}

/// That each pointer leads to what its field may hold; else the first that doesn't.
///
/// # Errors
///
/// `Wrong`: the offset of the first pointer that leads elsewhere. `NoMemory`: there is none for what the walk keeps.
#[tactic(auto, unfolding(crate::specs::Format::Offsets::wrong_in))]
pub fn check_links(alloc: Global, spaces: &[SpaceRec]) -> Result<(), PointerFail>
    ensures { Checks result (words.wrong_in spaces.now) }
{
    let mut index = Index::of(alloc, spaces)?;
    let mut named = Places::new(alloc);
    let _end = spaces_walk(spaces, &mut index, &mut named)?;
    Ok(())
}
