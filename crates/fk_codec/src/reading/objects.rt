//! Bytes to objects and pages.
ghost use Rattle.std.specs.Prelude.{◌≡◌, ◌≤◌, ◌+◌, ◌++◌, ◌∷◌, [], IfErr, IfOk, OnOk};
ghost use Rattle.fk_image.specs.Image.Objects.{next_slot};
ghost use Rattle.fk_image.specs.Image.Valid.{after_object, after_page};
ghost use Rattle.fk_image.specs.Format.Fields.{read_many};
ghost use Rattle.fk_image.specs.Format.Reading as words;
ghost use Rattle.fk_codec.specs.Reading.Given.{Decodes, IsFault};
ghost use Rattle.fk_codec.specs.Reading.Adding.{with_body, with_object};

use crate::reading::fail::Fail;
use crate::reading::fields::{read_below, read_byte, read_link, read_u16, read_words, refused};
use crate::reading::threads::read_thread;
use fk_image::format::reason;
use fk_image::{ObjectRec, Objects, PageRec, Rec, is_extent, is_set_word};
use fk_model::{List, NoMemory, kind};
use std::alloc::Global;

/// A first page and a count.
#[tactic(auto, unfolding(fk_image::specs::Format::Reading::read_extent))]
fn read_extent(bytes: &[u8]) -> Result<((u8, u16), &[u8]), Fail>
    ensures read { Decodes (λ x. (x.0, x.1.now)) result (words.read_extent bytes.now) }
    ensures fault { IfErr result (λ fail. IsFault fail) }
{
    let (first, behind_first) = read_byte(bytes)?;
    let (count, rest) = read_u16(behind_first)?;
    if is_extent(first, count) {
        Ok(((first, count), rest))
    } else {
        Err(refused(behind_first, reason::RANGE))
    }
}

#[tactic(auto, unfolding(fk_image::specs::Format::Reading::read_mapping))]
fn read_mapping(bytes: &[u8]) -> Result<(Rec, &[u8]), Fail>
    ensures read { Decodes (λ x. (x.0, x.1.now)) result (words.read_mapping bytes.now) }
    ensures fault { IfErr result (λ fail. IsFault fail) }
{
    let ((first, count), rest) = read_extent(bytes)?;
    let (offset, rest) = read_byte(rest)?;
    let (write, rest) = read_below(2, rest)?;
    let (region, rest) = read_link(rest)?;
    let mapping = Rec::Mapping {
        first,
        count,
        offset,
        write,
        region,
    };
    Ok((mapping, rest))
}

#[tactic(auto, unfolding(fk_image::specs::Format::Reading::read_region))]
fn read_region(bytes: &[u8]) -> Result<(Rec, &[u8]), Fail>
    ensures read { Decodes (λ x. (x.0, x.1.now)) result (words.read_region bytes.now) }
    ensures fault { IfErr result (λ fail. IsFault fail) }
{
    let ((first, count), rest) = read_extent(bytes)?;
    let (write, rest) = read_below(2, rest)?;
    let (keeper, rest) = read_link(rest)?;
    let region = Rec::Region {
        first,
        count,
        write,
        keeper,
    };
    Ok((region, rest))
}

#[tactic(auto, unfolding(fk_image::specs::Format::Reading::read_port))]
fn read_port(bytes: &[u8]) -> Result<(Rec, &[u8]), Fail>
    ensures read { Decodes (λ x. (x.0, x.1.now)) result (words.read_port bytes.now) }
    ensures fault { IfErr result (λ fail. IsFault fail) }
{
    let (set, rest) = read_u16(bytes)?;
    if is_set_word(set) {
        Ok((Rec::Port { set }, rest))
    } else {
        Err(refused(bytes, reason::RANGE))
    }
}

#[tactic(auto, unfolding(fk_image::specs::Format::Reading::read_mutex))]
fn read_mutex(bytes: &[u8]) -> Result<(Rec, &[u8]), Fail>
    ensures read { Decodes (λ x. (x.0, x.1.now)) result (words.read_mutex bytes.now) }
    ensures fault { IfErr result (λ fail. IsFault fail) }
{
    let (locked, rest) = read_below(2, bytes)?;
    Ok((Rec::Mutex { locked }, rest))
}

#[tactic(auto, unfolding(fk_image::specs::Format::Reading::read_reference))]
fn read_reference(bytes: &[u8]) -> Result<(Rec, &[u8]), Fail>
    ensures read { Decodes (λ x. (x.0, x.1.now)) result (words.read_reference bytes.now) }
    ensures fault { IfErr result (λ fail. IsFault fail) }
{
    let (to, rest) = read_link(bytes)?;
    Ok((Rec::Reference { to }, rest))
}

/// Adds an object in a slot above the others: what was read of it is its body.
#[inline(always)]
#[tactic(auto, using(crate::proofs::InReading::Loops::last_slot))]
fn add<'a>(objects: &mut Objects, slot: u8, read: (Rec, &'a [u8])) -> Result<&'a [u8], NoMemory>
    requires { next_slot objects.old ≤ slot }
    ensures rest { IfOk result (λ rest. rest.now ≡ read.entry.1.now) }
    ensures more { OnOk result (objects.new ≡ objects.old ++ record { slot = slot; body = read.entry.0 } ∷ []) }
    ensures last { OnOk result (next_slot objects.new ≡ slot + 1) }
{
    let (body, rest) = read;
    objects.push(ObjectRec { slot, body })?;
    Ok(rest)
}

/// Adds an object in a slot above the others: the number of its kind, and what an object of that kind has.
#[tactic(auto, unfolding(fk_image::specs::Format::Reading::read_body))]
fn add_body<'a>(
    alloc: Global,
    newer: bool,
    objects: &mut Objects,
    slot: u8,
    bytes: &'a [u8],
) -> Result<&'a [u8], Fail>
    requires { next_slot objects.old ≤ slot }
    ensures read { Decodes (λ rest. (objects.new, rest.now)) result (with_body objects.old slot (words.read_body newer bytes.now)) }
    ensures last { OnOk result (next_slot objects.new ≡ slot + 1) }
{
    let (number, rest) = read_byte(bytes)?;
    match u64::from(number) {
        kind::MUTEX => Ok(add(objects, slot, read_mutex(rest)?)?),
        kind::COND => Ok(add(objects, slot, (Rec::Cond, rest))?),
        kind::MAPPING => Ok(add(objects, slot, read_mapping(rest)?)?),
        kind::REGION => Ok(add(objects, slot, read_region(rest)?)?),
        kind::PORT => Ok(add(objects, slot, read_port(rest)?)?),
        kind::PORTSET => Ok(add(objects, slot, (Rec::Portset, rest))?),
        kind::THREAD => Ok(add(objects, slot, read_thread(alloc, newer, rest)?)?),
        kind::REFERENCE => Ok(add(objects, slot, read_reference(rest)?)?),
        _ => Err(refused(bytes, reason::RANGE)),
    }
}

/// Adds an object in a slot from `floor` on, which is behind the others, and gives its slot.
#[tactic(auto, unfolding(fk_image::specs::Format::Reading::read_object))]
fn add_object<'a>(
    alloc: Global,
    newer: bool,
    objects: &mut Objects,
    floor: u16,
    bytes: &'a [u8],
) -> Result<(u8, &'a [u8]), Fail>
    requires { floor ≡ next_slot objects.old }
    ensures read { Decodes (λ x. (objects.new, x.1.now)) result (with_object objects.old (words.read_object newer floor bytes.now)) }
    ensures last { IfOk result (λ x. next_slot objects.new ≡ x.0 + 1) }
{
    let (slot, rest) = read_below(240, bytes)?;
    if u16::from(slot) < floor {
        return Err(refused(bytes, reason::ORDER));
    }
    let rest = add_body(alloc, newer, objects, slot, rest)?;
    Ok((slot, rest))
}

#[tactic(auto, using(crate::proofs::InReading::Loops::objects))]
fn objects_from(
    alloc: Global,
    newer: bool,
    count: u16,
    bytes: &[u8],
) -> Result<(Objects, &[u8]), Fail>
    ensures { Decodes (λ x. (x.0, x.1.now)) result (read_many (words.read_object newer) after_object count 0 [] bytes.now) }
{
    // An object has two bytes at least, whatever the count promises.
    let room = (count as usize).min(240).min(bytes.len() / 2);
    let mut objects = Objects::with_room(alloc, room)?;
    let mut rest = bytes;
    let mut floor = 0u16;
    for _ in 0..count {
        let (slot, after) = add_object(alloc, newer, &mut objects, floor, rest)?;
        floor = u16::from(slot) + 1;
        rest = after;
    }
    Ok((objects, rest))
}

/// A number of objects, and these.
///
/// # Errors
///
/// `At`: the first bad field, with its reason. `NoMemory`: there is none for the objects.
#[tactic(auto, unfolding(fk_image::specs::Format::Reading::read_objects))]
pub fn read_objects(alloc: Global, newer: bool, bytes: &[u8]) -> Result<(Objects, &[u8]), Fail>
    ensures { Decodes (λ x. (x.0, x.1.now)) result (words.read_objects newer bytes.now) }
{
    let (count, rest) = read_u16(bytes)?;
    objects_from(alloc, newer, count, rest)
}

/// A page with a number from `floor` on.
#[tactic(auto, unfolding(fk_image::specs::Format::Reading::read_page))]
fn read_page(floor: u16, bytes: &[u8]) -> Result<(PageRec, &[u8]), Fail>
    ensures read { Decodes (λ x. (x.0, x.1.now)) result (words.read_page floor bytes.now) }
    ensures fault { IfErr result (λ fail. IsFault fail) }
{
    let (page, rest) = read_byte(bytes)?;
    if u16::from(page) < floor {
        return Err(refused(bytes, reason::ORDER));
    }
    let (words, rest) = read_words::<64>(rest)?;
    Ok((PageRec { page, words }, rest))
}

#[tactic(auto, using(crate::proofs::InReading::Loops::pages))]
fn pages_from(alloc: Global, count: u16, bytes: &[u8]) -> Result<(List<PageRec>, &[u8]), Fail>
    ensures { Decodes (λ x. (x.0, x.1.now)) result (read_many words.read_page after_page count 0 [] bytes.now) }
{
    let mut pages = List::new(alloc);
    let mut rest = bytes;
    let mut floor = 0u16;
    for _ in 0..count {
        let (page, after) = read_page(floor, rest)?;
        floor = u16::from(page.page) + 1;
        pages.push(page)?;
        rest = after;
    }
    Ok((pages, rest))
}

/// A number of pages, and these.
///
/// # Errors
///
/// `At`: the first bad field, with its reason. `NoMemory`: there is none for the pages.
#[tactic(auto, unfolding(fk_image::specs::Format::Reading::read_pages))]
pub fn read_pages(alloc: Global, bytes: &[u8]) -> Result<(List<PageRec>, &[u8]), Fail>
    ensures { Decodes (λ x. (x.0, x.1.now)) result (words.read_pages bytes.now) }
{
    let (count, rest) = read_u16(bytes)?;
    pages_from(alloc, count, rest)
}
