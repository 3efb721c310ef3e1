//! Whether objects and pages fit.
ghost use Rattle.std.specs.Prelude.{◌≡◌, ◌&&◌, true};
ghost use Rattle.fk_image.specs.declared.image.image.Rec.TheVariants as recs;
ghost use Rattle.std.specs.List.{list_all};
ghost use Rattle.fk_image.specs.Image.Ranges as ranges;
ghost use Rattle.fk_image.specs.Image.Valid as words;

use crate::image::{
    FaultRec, Link, ObjectRec, PageRec, Rec, TalkRec, ThreadRec, is_code, is_extent, is_mode_byte,
    is_set_word,
};

/// Whether the slots of a pointer are slots of objects.
pub fn fits_link(to: Link) -> bool
    ensures { result ≡ ranges.fits_link to }
{
    match to {
        Link::In { slot, .. } => slot < 240,
        Link::Out(slot) => slot < 240,
        Link::Null | Link::Dead | Link::Root | Link::Outside => true,
    }
}

fn fits_talk(talk: Option<TalkRec>) -> bool
    ensures { result ≡ ranges.fits_talk talk }
{
    match talk {
        None => true,
        Some(talk) => {
            talk.turn != 0 && talk.turn < 3 && fits_link(talk.port) && fits_link(talk.server)
        }
    }
}

fn fits_taker(taker: Option<Link>) -> bool
    ensures { result ≡ ranges.fits_taker taker }
{
    match taker {
        None => true,
        Some(taker) => fits_link(taker),
    }
}

fn fits_fault(fault: Option<FaultRec>) -> bool
    ensures { result ≡ ranges.fits_fault fault }
{
    match fault {
        None => true,
        Some(fault) => fault.write < 2 && fits_link(fault.port) && fits_taker(fault.taker),
    }
}

/// Registers and the words of pages fit: each is a word.
fn words_fit(words: &[u64])
    ensures { list_all ranges.is_word words.now ≡ true }
{}

/// The numbers of a thread fit but for its talk and its fault. Its counter and its stop count always do.
fn fits_state(regs: &[u64; 16], _pc: u64, mode: u8, code: u8, _stops: u16) -> bool
    ensures { result ≡ (ranges.are_words 16 regs.now && ranges.is_word _pc && ranges.is_mode_byte regs.now mode
        && ranges.is_byte code && ranges.is_code mode code && ranges.is_half _stops) }
{
    words_fit(regs);
    is_mode_byte(regs, mode) && is_code(mode, code)
}

fn fits_thread(thread: &ThreadRec) -> bool
    ensures { result ≡ ranges.fits_thread thread.now }
{
    fits_state(
        &thread.regs,
        thread.pc,
        thread.mode,
        thread.code,
        thread.stops,
    ) && fits_talk(thread.talk)
        && fits_fault(thread.fault)
}

/// Each offset fits.
fn fits_mapping(first: u8, count: u16, _offset: u8, write: u8, region: Link) -> bool
    ensures { result ≡ ranges.fits_body (recs.Mapping first count _offset write region) }
{
    is_extent(first, count) && write < 2 && fits_link(region)
}

fn fits_body(body: &Rec) -> bool
    ensures { result ≡ ranges.fits_body body.now }
{
    match body {
        Rec::Mutex { locked } => *locked < 2,
        Rec::Cond | Rec::Portset => true,
        Rec::Mapping {
            first,
            count,
            offset,
            write,
            region,
        } => fits_mapping(*first, *count, *offset, *write, *region),
        Rec::Region {
            first,
            count,
            write,
            keeper,
        } => is_extent(*first, *count) && *write < 2 && fits_link(*keeper),
        Rec::Port { set } => is_set_word(*set),
        Rec::Thread(thread) => fits_thread(thread.get()),
        Rec::Reference { to } => fits_link(*to),
    }
}

fn fits_object(floor: u16, object: &ObjectRec) -> bool
    ensures { result ≡ words.fits_object floor object.now }
{
    object.slot < 240 && u16::from(object.slot) >= floor && fits_body(&object.body)
}

/// Whether objects fit, and their slots rise.
pub fn fits_objects(objects: &[ObjectRec]) -> bool
    ensures { result ≡ words.fits_objects objects.now }
{
    if objects.len() > u16::MAX as usize {
        return false;
    }
    let mut floor = 0u16;
    for object in objects {
        if !fits_object(floor, object) {
            return false;
        }
        floor = u16::from(object.slot) + 1;
    }
    true
}

fn fits_page(floor: u16, page: &PageRec) -> bool
    ensures { result ≡ words.fits_page floor page.now }
{
    words_fit(&page.words);
    u16::from(page.page) >= floor
}

/// Whether the numbers of pages rise.
pub fn fits_pages(pages: &[PageRec]) -> bool
    ensures { result ≡ words.fits_pages pages.now }
{
    if pages.len() > u16::MAX as usize {
        return false;
    }
    let mut floor = 0u16;
    for page in pages {
        if !fits_page(floor, page) {
            return false;
        }
        floor = u16::from(page.page) + 1;
    }
    true
}
