//! Bytes to an image.
ghost use Rattle.std.specs.Prelude.{◌≡◌, [], length, IfErr, IfOk, Ok};
ghost use Rattle.fk_image.specs.declared.image.image.Image.{Image};
ghost use Rattle.fk_image.specs.Image.Preorder as preorder;
ghost use Rattle.fk_image.specs.Image.Preorder.{after_space, root_path};
ghost use Rattle.fk_image.specs.Format.Fields.{read_many};
ghost use Rattle.fk_image.specs.Format.Offsets.{wrong_link};
ghost use Rattle.fk_image.specs.Format.Reading as words;
ghost use Rattle.fk_image.specs.Format.Spells.{SpellsImage};
ghost use Rattle.fk_codec.specs.Reading.Given.{Decodes, IsFault};
ghost use Rattle.fk_image.specs.Form.Formed.{IsFormed};
ghost use Rattle.fk_codec.specs.Codec.Given.{IsFirstBreak, Reads};

use crate::codec::fail::{ImageError, ReadFail};
use crate::reading::{
    Fail, read_below, read_byte, read_link, read_objects, read_pages, read_u16, read_u32, refused,
};
use fk_image::format::{image_shows, reason};
use fk_image::pointers::{PointerFail, check_links};
use fk_image::{Image, Link, Open, SpaceRec, enter, kind_in_space, room_under};
use fk_model::List;
use fk_stack::Stack;
use std::alloc::Global;

/// The first space, which is the subtree's root.
#[tactic(auto, unfolding(fk_image::specs::Format::Reading::read_first))]
fn read_first(alloc: Global, newer: bool, bytes: &[u8]) -> Result<(SpaceRec, &[u8]), Fail>
    ensures { Decodes (λ x. (x.0, x.1.now)) result (words.read_first newer bytes.now) }
{
    let (parent, behind_parent) = read_u32(bytes)?;
    if parent != u32::MAX {
        return Err(refused(bytes, reason::RANGE));
    }
    let (slot, behind_slot) = read_byte(behind_parent)?;
    if slot != 0 {
        return Err(refused(behind_parent, reason::RANGE));
    }
    let (tag, rest) = read_byte(behind_slot)?;
    if tag != 0 {
        return Err(refused(behind_slot, reason::RANGE));
    }
    let (objects, rest) = read_objects(alloc, newer, rest)?;
    let (pages, rest) = read_pages(alloc, rest)?;
    let space = SpaceRec {
        parent,
        slot,
        holder: Link::Null,
        objects,
        pages,
    };
    Ok((space, rest))
}

/// The lowest slot under a parent in which a space may follow.
#[tactic(auto, unfolding(fk_image::specs::Format::Reading::read_room))]
fn read_room(path: &mut Stack<Open>, parent: u32, bytes: &[u8]) -> Result<u16, Fail>
    ensures room { Decodes (λ x. x) result (words.read_room path.old parent bytes.now) }
    ensures path { IfOk result (λ _. path.new ≡ preorder.from parent path.old) }
{
    match room_under(path, parent)? {
        None => Err(refused(bytes, reason::ORDER)),
        Some(floor) => Ok(floor),
    }
}

/// A space behind others.
#[tactic(auto, unfolding(fk_image::specs::Format::Reading::read_next))]
fn read_next<'a>(
    alloc: Global,
    newer: bool,
    done: &[SpaceRec],
    path: &mut Stack<Open>,
    bytes: &'a [u8],
) -> Result<(SpaceRec, &'a [u8]), Fail>
    ensures read { Decodes (λ x. (x.0, x.1.now)) result (words.read_next newer done.now path.old bytes.now) }
    ensures path { IfOk result (λ x. path.new ≡ preorder.from x.0.parent path.old) }
{
    let (parent, rest) = read_u32(bytes)?;
    let floor = read_room(path, parent, bytes)?;
    let (slot, rest) = read_below(240, rest)?;
    if u16::from(slot) < floor {
        return Err(refused(bytes, reason::ORDER));
    }
    if kind_in_space(done, parent, slot).is_some() {
        return Err(refused(bytes, reason::ORDER));
    }
    let (holder, rest) = read_link(rest)?;
    let (objects, rest) = read_objects(alloc, newer, rest)?;
    let (pages, rest) = read_pages(alloc, rest)?;
    let space = SpaceRec {
        parent,
        slot,
        holder,
        objects,
        pages,
    };
    Ok((space, rest))
}

#[tactic(auto, unfolding(fk_image::specs::Format::Reading::read_space))]
fn read_space<'a>(
    alloc: Global,
    newer: bool,
    done: &[SpaceRec],
    number: u32,
    path: &mut Stack<Open>,
    bytes: &'a [u8],
) -> Result<(SpaceRec, &'a [u8]), Fail>
    requires { number ≡ length done.now }
    ensures read { Decodes (λ x. (x.0, x.1.now)) result (words.read_space newer (done.now, path.old) bytes.now) }
    ensures path { IfOk result (λ x. path.new ≡ preorder.path_after done.now x.0 path.old) }
{
    match done {
        [] => read_first(alloc, newer, bytes),
        [_, ..] => {
            let (space, rest) = read_next(alloc, newer, done, path, bytes)?;
            enter(path, number, space.slot)?;
            Ok((space, rest))
        }
    }
}

#[tactic(auto, using(crate::proofs::InCodec::Loops::spaces))]
fn read_spaces(
    alloc: Global,
    newer: bool,
    count: u32,
    bytes: &[u8],
) -> Result<(List<SpaceRec>, &[u8]), Fail>
    ensures { Decodes (λ x. (x.0, x.1.now)) result (read_many (words.read_space newer) after_space count ([], root_path) [] bytes.now) }
{
    let mut spaces = List::new(alloc);
    let mut path = Stack::new(alloc);
    path.push(Open { space: 0, floor: 0 })?;
    let mut rest = bytes;
    for number in 0..count {
        let (space, after) = read_space(alloc, newer, spaces.as_slice(), number, &mut path, rest)?;
        spaces.push(space)?;
        rest = after;
    }
    Ok((spaces, rest))
}

/// Whether the version is the newer one.
#[tactic(auto, unfolding(fk_image::specs::Format::Reading::read_version))]
fn read_version(bytes: &[u8]) -> Result<(bool, &[u8]), Fail>
    ensures read { Decodes (λ x. (x.0, x.1.now)) result (words.read_version bytes.now) }
    ensures fault { IfErr result (λ fail. IsFault fail) }
{
    let (version, rest) = read_u16(bytes)?;
    match version {
        1 => Ok((false, rest)),
        2 => Ok((true, rest)),
        _ => Err(refused(bytes, reason::VERSION)),
    }
}

/// What begins an image: whether its version is the newer one, and its number of spaces.
#[derive(Clone, Copy)]
struct Head {
    newer: bool,
    count: u32,
}

/// The magic, the version and the number of spaces.
#[tactic(auto, unfolding(fk_image::specs::Format::Reading::read_head))]
fn read_head(bytes: &[u8]) -> Result<(Head, &[u8]), Fail>
    ensures { Decodes (λ x. ((x.0.newer, x.0.count), x.1.now)) result (words.read_head bytes.now) }
{
    if bytes.len() < 8 {
        return Err(refused(bytes, reason::CUT));
    }
    let (front, behind_magic) = bytes.split_at(8);
    if front != b"FLUKEIMG".as_slice() {
        return Err(refused(bytes, reason::MAGIC));
    }
    let (newer, behind_version) = read_version(behind_magic)?;
    let (count, rest) = read_u32(behind_version)?;
    if count == 0 {
        return Err(refused(behind_version, reason::RANGE));
    }
    Ok((Head { newer, count }, rest))
}

#[tactic(auto, unfolding(fk_image::specs::Format::Reading::read_image))]
fn read_image(alloc: Global, bytes: &[u8]) -> Result<(bool, Image), Fail>
    ensures { Decodes (λ x. x) result (words.read_image bytes.now) }
{
    let (head, rest) = read_head(bytes)?;
    let (spaces, rest) = read_spaces(alloc, head.newer, head.count, rest)?;
    if !rest.is_empty() {
        return Err(refused(rest, reason::LEFT_OVER));
    }
    Ok((head.newer, Image { spaces }))
}

/// An image of the newer version only where it needs that.
fn needed(newer: bool, image: Image) -> Result<Image, ReadFail>
    ensures { Reads result (words.needed newer image) }
{
    if newer && !image_shows(&image) {
        return Err(ReadFail::Image(ImageError {
            offset: 8,
            reason: reason::NEWER,
        }));
    }
    Ok(image)
}

/// An image whose pointers all lead to what their fields may hold.
fn led(alloc: Global, newer: bool, image: Image) -> Result<Image, ReadFail>
    ensures { Reads result (words.linked newer image (wrong_link image)) }
{
    match check_links(alloc, image.spaces.as_slice()) {
        Ok(()) => needed(newer, image),
        Err(PointerFail::Wrong(offset)) => Err(ReadFail::Image(ImageError {
            offset,
            reason: reason::POINTER,
        })),
        Err(PointerFail::NoMemory) => Err(ReadFail::NoMemory),
    }
}

#[tactic(auto, unfolding(fk_image::specs::Format::Reading::image_reading))]
fn checked_image(alloc: Global, bytes: &[u8]) -> Result<Image, ReadFail>
    ensures { Reads result (words.image_reading bytes.now) }
{
    match read_image(alloc, bytes) {
        Err(Fail::NoMemory) => Err(ReadFail::NoMemory),
        Err(Fail::At(stop)) => Err(ReadFail::Image(ImageError {
            offset: bytes.len().saturating_sub(stop.left) as u64,
            reason: stop.reason,
        })),
        Ok((newer, image)) => led(alloc, newer, image),
    }
}

/// The image that the bytes spell, all of the bytes. It takes memory in proportion to them. `Image` has
/// the offset of the first fault and its reason, where they spell no image.
///
/// # Errors
///
/// `Image`: the bytes spell none. `NoMemory`: there is none for the image.
pub fn read(alloc: Global, bytes: &[u8]) -> Result<Image, ReadFail>
    // What is read is spelled so, and valid.
    ensures found { IfOk result (λ i. SpellsImage bytes.now i) }
    // Its records have the form of an image.
    ensures formed { IfOk result (λ i. IsFormed i) }
    // The image that they spell is read, unless memory runs out.
    ensures only { (i : Image) → SpellsImage bytes.now i → Reads result (Ok i) }
    // Else it is the first fault.
    ensures exact { Reads result (words.image_reading bytes.now) }
    // Up to there the bytes have the form of an image, and there they, or the records that they spell, break it.
    ensures first { IfErr result (λ fail. IsFirstBreak bytes.now fail) }
{
    checked_image(alloc, bytes)
}
