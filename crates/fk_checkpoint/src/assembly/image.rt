//! The image, space by space.
ghost use Rattle.std.specs.Prelude.{◌≡◌, ◌≤◌, ◌++◌, drop, map, IfOk, OnOk};
ghost use Rattle.fk_image.specs.Image.Objects.{next_slot};
ghost use Rattle.fk_checkpoint.specs.Seeking.Seeking.{up};
ghost use Rattle.laws_checkpoint.specs.Assembly as parts;
ghost use Rattle.laws_checkpoint.specs.Narrow as narrow;
ghost use Rattle.fk_checkpoint.specs.Gathering.Gathering.{item_of, items_of, content_of, contents_of, leads_of};
ghost use Rattle.fk_checkpoint.specs.Assembly.Assembling.{spaces_of, kept_of, floor_after};

use crate::assembly::links::{link_at, parent, slot};
use crate::assembly::records::rec;
use crate::assembly::words::page_words;
use crate::gathering::{Content, Item, Lead, kind_of};
use crate::seeking::asked_of;
use fk_image::{Image, Link, ObjectRec, Objects, PageRec, SpaceRec};
use fk_model::{List, NoMemory};
use std::alloc::Global;

/// The pointers behind the first ones.
fn behind(leads: &[Lead], count: usize) -> &[Lead]
    ensures { result.now ≡ drop count leads.now }
{
    match leads.get(count..) {
        Some(left) => left,
        None => &[],
    }
}

/// The pointers behind those of some objects.
fn behind_objects<'a>(items: &[Item], leads: &'a [Lead]) -> &'a [Lead]
    ensures { leads_of result.now ≡ drop (parts.asked_of_all (items_of items.now)) (leads_of leads.now) }
{
    let mut left = leads;
    for item in items {
        left = behind(left, asked_of(kind_of(item)));
    }
    left
}

/// Adds an object whose pointers these begin with, where its slot is above the others. It answers above which slots the next one is.
#[tactic(auto, using(crate::proofs::InAssembly::Loops::next_after))]
fn keep(
    alloc: Global,
    contents: &[Content],
    item: &Item,
    leads: &[Lead],
    floor: u16,
    objects: &mut Objects,
) -> Result<u16, NoMemory>
    requires { next_slot objects.old ≤ floor }
    ensures kept { OnOk result (objects.new ≡ objects.old ++ kept_of (spaces_of contents.now) floor (item_of item.now) (leads_of leads.now)) }
    ensures floor { IfOk result (λ next. next ≡ floor_after floor item.now.number) }
    ensures above { IfOk result (λ next. next_slot objects.new ≤ next) }
{
    let slot = item.number;
    if u16::from(slot) < floor {
        return Ok(floor);
    }
    let body = rec(alloc, contents, item, leads)?;
    objects.push(ObjectRec { slot, body })?;
    Ok(u16::from(slot) + 1)
}

/// The objects of a space, whose pointers these begin with.
fn objects(
    alloc: Global,
    contents: &[Content],
    items: &[Item],
    leads: &[Lead],
) -> Result<Objects, NoMemory>
    ensures { IfOk result (λ objects. objects ≡ narrow.rising 0 (parts.objects_with (spaces_of contents.now) (items_of items.now) (leads_of leads.now))) }
{
    let mut objects = Objects::with_room(alloc, items.len())?;
    let mut left = leads;
    let mut floor = 0;
    for item in items {
        floor = keep(alloc, contents, item, left, floor, &mut objects)?;
        left = behind(left, asked_of(kind_of(item)));
    }
    Ok(objects)
}

/// The pages of a space.
fn pages(alloc: Global, items: &[Item]) -> Result<List<PageRec>, NoMemory>
    ensures { IfOk result (λ pages. pages ≡ map narrow.narrow_page (map parts.page_rec (items_of items.now))) }
{
    let mut pages = Vec::with_capacity(alloc, items.len())?;
    for item in items {
        // A push that has no way back copies no page.
        pages.reserve(1)?;
        pages.push_reserved(PageRec {
            page: item.number,
            words: page_words(item),
        });
    }
    Ok(List::of(pages))
}

/// Who holds a space.
#[tactic(auto, using(crate::proofs::InAssembly::Paths::holder_none, crate::proofs::InAssembly::Paths::holder_some))]
fn holder(contents: &[Content], place: &[u8], leads: &[Lead]) -> Link
    ensures { result ≡ narrow.narrow_link (parts.holder_from (spaces_of contents.now) (up place.now) (leads_of leads.now)) }
{
    if place.is_empty() {
        return Link::Null;
    }
    link_at(contents, leads, 0)
}

/// The pointers behind that of a space's holder.
#[tactic(auto, using(crate::proofs::InAssembly::Loops::drop_map, crate::proofs::InAssembly::Paths::behind_none, crate::proofs::InAssembly::Paths::behind_some))]
fn behind_holder<'a>(place: &[u8], leads: &'a [Lead]) -> &'a [Lead]
    ensures { leads_of result.now ≡ parts.behind_holder (up place.now) (leads_of leads.now) }
{
    if place.is_empty() {
        return leads;
    }
    behind(leads, 1)
}

/// The pointers behind those of a space.
fn behind_space<'a>(content: &Content, leads: &'a [Lead]) -> &'a [Lead]
    ensures { leads_of result.now ≡ drop (parts.asked_of_all (items_of content.now.objects)) (parts.behind_holder (up content.now.path) (leads_of leads.now)) }
{
    behind_objects(
        content.objects.as_slice(),
        behind_holder(content.path.as_slice(), leads),
    )
}

/// A space, whose pointers these begin with.
fn space(
    alloc: Global,
    contents: &[Content],
    content: &Content,
    leads: &[Lead],
) -> Result<SpaceRec, NoMemory>
    ensures { IfOk result (λ space. space ≡ narrow.narrow_space (parts.space_with (spaces_of contents.now) (content_of content.now) (leads_of leads.now))) }
{
    let place = content.path.as_slice();
    let own = behind_holder(place, leads);
    Ok(SpaceRec {
        parent: parent(alloc, contents, place)?,
        slot: slot(place),
        holder: holder(contents, place, leads),
        objects: objects(alloc, contents, content.objects.as_slice(), own)?,
        pages: pages(alloc, content.pages.as_slice())?,
    })
}

/// The image of these spaces, whose pointers these are.
///
/// # Errors
///
/// There is no memory for the image.
pub fn assembled(alloc: Global, contents: &[Content], leads: &[Lead]) -> Result<Image, NoMemory>
    ensures { IfOk result (λ image. image ≡ narrow.narrowed (parts.assembled (contents_of contents.now) (leads_of leads.now))) }
{
    let mut spaces = List::new(alloc);
    let mut left = leads;
    for content in contents {
        let next = space(alloc, contents, content, left)?;
        spaces.push(next)?;
        left = behind_space(content, left);
    }
    Ok(Image { spaces })
}
