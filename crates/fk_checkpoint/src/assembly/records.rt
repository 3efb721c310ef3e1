//! Records with links.
ghost use Rattle.std.specs.Prelude.{◌≡◌, option_map, IfOk};
ghost use Rattle.fk_model.specs.Records.{word};
ghost use Rattle.fk_image.specs.declared.image.image.Rec.TheVariants as recs;
ghost use Rattle.laws_pictures.specs.Imaged.{link_of};
ghost use Rattle.laws_checkpoint.specs.Assembly as parts;
ghost use Rattle.laws_checkpoint.specs.Narrow as narrow;
ghost use Rattle.fk_checkpoint.specs.Gathering.Gathering.{item_of, leads_of};
ghost use Rattle.fk_checkpoint.specs.Assembly.Assembling.{spaces_of};

use crate::assembly::links::{link_at, peer_at};
use crate::assembly::words::{byte, half, registers, word};
use crate::gathering::{Content, Item, Lead};
use fk_image::{BoxedThread, FaultRec, Rec, TalkRec, ThreadRec};
use fk_model::{NoMemory, kind};
use std::alloc::Global;

/// The talk of a thread, by the words of its record that show it.
fn talk(contents: &[Content], item: &Item, leads: &[Lead]) -> Option<TalkRec>
    ensures { result ≡ option_map narrow.narrow_talk (parts.talk_from (spaces_of contents.now) (item_of item.now).words (leads_of leads.now)) }
{
    if word(item, 21) == 0 {
        return None;
    }
    Some(TalkRec {
        turn: byte(word(item, 21)),
        moved: half(word(item, 22)),
        port: link_at(contents, leads, 0),
        server: peer_at(contents, leads, 0, 1),
    })
}

/// The fault of a thread, by the words of its record that show it.
fn fault(contents: &[Content], item: &Item, leads: &[Lead]) -> Option<FaultRec>
    ensures { result ≡ option_map narrow.narrow_fault (parts.fault_from (spaces_of contents.now) (item_of item.now).words (leads_of leads.now)) }
{
    if word(item, 23) == 0 {
        return None;
    }
    Some(FaultRec {
        page: byte(word(item, 24)),
        write: byte(word(item, 25)),
        port: link_at(contents, leads, 2),
        taker: if word(item, 23) == 2 {
            Some(peer_at(contents, leads, 2, 3))
        } else {
            None
        },
    })
}

/// A thread by its record.
fn thread(contents: &[Content], item: &Item, leads: &[Lead]) -> ThreadRec
    ensures { result ≡ narrow.narrow_thread (parts.thread_from (spaces_of contents.now) (item_of item.now).words (leads_of leads.now)) }
{
    ThreadRec {
        regs: registers(item),
        pc: word(item, 17),
        mode: byte(word(item, 18)),
        code: byte(word(item, 19)),
        stops: half(word(item, 20)),
        talk: talk(contents, item, leads),
        fault: fault(contents, item, leads),
    }
}

/// The mapping of a record.
fn mapping(contents: &[Content], item: &Item, leads: &[Lead]) -> Rec
    ensures { result ≡ narrow.narrow_rec (recs.Mapping (word (item_of item.now).words 1) (word (item_of item.now).words 2) (word (item_of item.now).words 3)
        (word (item_of item.now).words 4) (link_of (spaces_of contents.now) (parts.pointer_at (leads_of leads.now) 0))) }
{
    Rec::Mapping {
        first: byte(word(item, 1)),
        count: half(word(item, 2)),
        offset: byte(word(item, 3)),
        write: byte(word(item, 4)),
        region: link_at(contents, leads, 0),
    }
}

/// The region of a record.
fn region(contents: &[Content], item: &Item, leads: &[Lead]) -> Rec
    ensures { result ≡ narrow.narrow_rec (recs.Region (word (item_of item.now).words 1) (word (item_of item.now).words 2) (word (item_of item.now).words 3)
        (link_of (spaces_of contents.now) (parts.pointer_at (leads_of leads.now) 0))) }
{
    Rec::Region {
        first: byte(word(item, 1)),
        count: half(word(item, 2)),
        write: byte(word(item, 3)),
        keeper: link_at(contents, leads, 0),
    }
}

/// An object by its record, whose pointers these begin with.
///
/// # Errors
///
/// There is no memory for the record.
pub fn rec(
    alloc: Global,
    contents: &[Content],
    item: &Item,
    leads: &[Lead],
) -> Result<Rec, NoMemory>
    ensures { IfOk result (λ rec. rec ≡ narrow.narrow_rec (parts.rec_from (spaces_of contents.now) (item_of item.now).words (leads_of leads.now))) }
{
    Ok(match word(item, 0) {
        kind::MUTEX => Rec::Mutex {
            locked: byte(word(item, 1)),
        },
        kind::COND => Rec::Cond,
        kind::MAPPING => mapping(contents, item, leads),
        kind::REGION => region(contents, item, leads),
        kind::PORT => Rec::Port {
            set: half(word(item, 1)),
        },
        kind::PORTSET => Rec::Portset,
        kind::THREAD => Rec::Thread(BoxedThread::new(alloc, thread(contents, item, leads))?),
        _ => Rec::Reference {
            to: link_at(contents, leads, 0),
        },
    })
}
