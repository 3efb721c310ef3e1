//! An image to its bytes.
ghost use Rattle.std.specs.Prelude.{◌≡◌, ◌<◌, ◌^◌, ◌++◌, ◌∷◌, length, IsTrue, OnOk, IfOk};
ghost use Rattle.std.specs.Int.{w16, to_le_bytes};
ghost use Rattle.std.specs.List.{flat_map};
ghost use Rattle.fk_image.specs.Image.Valid.{is_valid};
ghost use Rattle.fk_image.specs.Format.Spelling as spells;
ghost use Rattle.fk_image.specs.Format.Spells.{SpellsImage};

use crate::writing::numbers::{put_u16, put_u32, put_u64};
use fk_image::{FaultRec, Image, Link, ObjectRec, PageRec, Rec, SpaceRec, TalkRec, ThreadRec};
use fk_model::NoMemory;
use std::alloc::Global;

fn put_link(out: &mut Vec<u8>, to: Link) -> Result<(), NoMemory>
    ensures { OnOk result (out.new.items ≡ out.old.items ++ spells.link_bytes to) }
{
    match to {
        Link::Null => out.push(0)?,
        Link::Dead => out.push(1)?,
        Link::In { space, slot } => {
            out.push(2)?;
            put_u32(out, space)?;
            out.push(slot)?;
        }
        Link::Out(slot) => out.extend_from_slice(&[3, slot])?,
        Link::Root => out.push(4)?,
        Link::Outside => out.push(5)?,
    }
    Ok(())
}

fn put_words(out: &mut Vec<u8>, words: &[u64]) -> Result<(), NoMemory>
    ensures { OnOk result (out.new.items ≡ out.old.items ++ spells.words_bytes words.now) }
{
    for word in words {
        put_u64(out, *word)?;
    }
    Ok(())
}

fn put_talk(out: &mut Vec<u8>, talk: Option<TalkRec>) -> Result<(), NoMemory>
    ensures { OnOk result (out.new.items ≡ out.old.items ++ spells.talk_bytes talk) }
{
    match talk {
        None => out.push(0)?,
        Some(talk) => {
            out.push(talk.turn)?;
            put_u16(out, talk.moved)?;
            put_link(out, talk.port)?;
            put_link(out, talk.server)?;
        }
    }
    Ok(())
}

fn put_taker(out: &mut Vec<u8>, taker: Option<Link>) -> Result<(), NoMemory>
    ensures { OnOk result (out.new.items ≡ out.old.items ++ spells.taker_bytes taker) }
{
    match taker {
        None => Ok(()),
        Some(taker) => put_link(out, taker),
    }
}

fn fault_state(taker: Option<Link>) -> u8
    ensures { result ≡ spells.fault_state taker }
{
    match taker {
        None => 1,
        Some(_) => 2,
    }
}

fn put_fault(out: &mut Vec<u8>, fault: Option<FaultRec>) -> Result<(), NoMemory>
    ensures { OnOk result (out.new.items ≡ out.old.items ++ spells.fault_bytes fault) }
{
    match fault {
        None => out.push(0)?,
        Some(fault) => {
            out.extend_from_slice(&[fault_state(fault.taker), fault.page, fault.write])?;
            put_link(out, fault.port)?;
            put_taker(out, fault.taker)?;
        }
    }
    Ok(())
}

/// A mode, a halt code and a stop count.
fn put_mode(out: &mut Vec<u8>, mode: u8, code: u8, stops: u16) -> Result<(), NoMemory>
    ensures { OnOk result (out.new.items ≡ out.old.items ++ (mode ∷ code ∷ to_le_bytes w16 stops)) }
{
    out.extend_from_slice(&[mode, code])?;
    put_u16(out, stops)
}

fn put_thread(out: &mut Vec<u8>, thread: &ThreadRec) -> Result<(), NoMemory>
    ensures { OnOk result (out.new.items ≡ out.old.items ++ spells.thread_bytes thread.now) }
{
    put_words(out, &thread.regs)?;
    put_u64(out, thread.pc)?;
    put_mode(out, thread.mode, thread.code, thread.stops)?;
    put_talk(out, thread.talk)?;
    put_fault(out, thread.fault)?;
    Ok(())
}

fn put_extent(out: &mut Vec<u8>, kind: u8, first: u8, count: u16) -> Result<(), NoMemory>
    ensures { OnOk result (out.new.items ≡ out.old.items ++ (kind ∷ first ∷ to_le_bytes w16 count)) }
{
    out.extend_from_slice(&[kind, first])?;
    put_u16(out, count)
}

fn put_body(out: &mut Vec<u8>, body: &Rec) -> Result<(), NoMemory>
    ensures { OnOk result (out.new.items ≡ out.old.items ++ spells.body_bytes body.now) }
{
    match body {
        Rec::Mutex { locked } => out.extend_from_slice(&[1, *locked])?,
        Rec::Cond => out.push(2)?,
        Rec::Mapping {
            first,
            count,
            offset,
            write,
            region,
        } => {
            put_extent(out, 3, *first, *count)?;
            out.extend_from_slice(&[*offset, *write])?;
            put_link(out, *region)?;
        }
        Rec::Region {
            first,
            count,
            write,
            keeper,
        } => {
            put_extent(out, 4, *first, *count)?;
            out.push(*write)?;
            put_link(out, *keeper)?;
        }
        Rec::Port { set } => {
            out.push(5)?;
            put_u16(out, *set)?;
        }
        Rec::Portset => out.push(6)?,
        Rec::Thread(thread) => {
            out.push(8)?;
            put_thread(out, thread.get())?;
        }
        Rec::Reference { to } => {
            out.push(9)?;
            put_link(out, *to)?;
        }
    }
    Ok(())
}

fn put_objects(out: &mut Vec<u8>, objects: &[ObjectRec]) -> Result<(), NoMemory>
    ensures { OnOk result (out.new.items ≡ out.old.items ++ flat_map spells.object_bytes objects.now) }
{
    for object in objects {
        out.push(object.slot)?;
        put_body(out, &object.body)?;
    }
    Ok(())
}

fn put_pages(out: &mut Vec<u8>, pages: &[PageRec]) -> Result<(), NoMemory>
    ensures { OnOk result (out.new.items ≡ out.old.items ++ flat_map spells.page_bytes pages.now) }
{
    for page in pages {
        out.push(page.page)?;
        put_words(out, &page.words)?;
    }
    Ok(())
}

fn put_space(out: &mut Vec<u8>, space: &SpaceRec) -> Result<(), NoMemory>
    requires objects { length space.now.objects < 2 ^ 16 }
    requires pages { length space.now.pages < 2 ^ 16 }
    ensures { OnOk result (out.new.items ≡ out.old.items ++ spells.space_bytes space.now) }
{
    put_u32(out, space.parent)?;
    out.push(space.slot)?;
    put_link(out, space.holder)?;
    put_u16(out, space.objects.len() as u16)?;
    put_objects(out, space.objects.as_slice())?;
    put_u16(out, space.pages.len() as u16)?;
    put_pages(out, space.pages.as_slice())
}

/// The one spelling of a valid image.
///
/// # Errors
///
/// There is no memory for the bytes.
pub fn write(alloc: Global, image: &Image) -> Result<Vec<u8>, NoMemory>
    requires { IsTrue (is_valid image.now) }
    ensures { IfOk result (λ bytes. SpellsImage bytes.items image.now) }
{
    let mut out = Vec::new(alloc);
    out.extend_from_slice(b"FLUKEIMG")?;
    put_u16(&mut out, u16::from(image.version()))?;
    put_u32(&mut out, image.spaces.len() as u32)?;
    for space in image.spaces.as_slice() {
        put_space(&mut out, space)?;
    }
    Ok(out)
}
