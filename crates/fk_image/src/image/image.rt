//! The records of an image, as they stand in its bytes.
use crate::image::boxed::BoxedThread;
use crate::image::objects::Objects;
use fk_model::List;

/// A pointer: one variant for each tag.
#[derive(Clone, Copy)]
pub enum Link {
    /// It leads nowhere.
    Null,
    /// What it led to was destroyed.
    Dead,
    /// What lies in a slot, 0 to 239, of a space of the image, by the space's number.
    In { slot: u8, space: u32 },
    /// The port in this slot, 0 to 239, of the nester.
    Out(u8),
    /// The subtree's root.
    Root,
    /// A peer outside the subtree.
    Outside,
}

/// A talk, in the record of its client.
#[derive(Clone, Copy)]
pub struct TalkRec {
    /// 1 at the client's turn, 2 at the server's.
    pub turn: u8,
    /// The words moved in this turn.
    pub moved: u16,
    pub port: Link,
    pub server: Link,
}

/// A fault on a missing page, in the record of the thread that met it.
#[derive(Clone, Copy)]
pub struct FaultRec {
    pub page: u8,
    /// 1 where a write missed the page, else 0.
    pub write: u8,
    /// The port of the page's keeper.
    pub port: Link,
    /// Who has taken the fault; nobody while it is raised.
    pub taker: Option<Link>,
}

/// A thread.
#[derive(Clone, Copy)]
pub struct ThreadRec {
    pub regs: [u64; 16],
    pub pc: u64,
    /// 0 running, 1 calling, 2 halted.
    pub mode: u8,
    /// The halt code; 0 unless the thread has halted.
    pub code: u8,
    /// How often it is stopped.
    pub stops: u16,
    /// Its talk as a client.
    pub talk: Option<TalkRec>,
    pub fault: Option<FaultRec>,
}

/// What an object is.
#[derive(Drop)]
pub enum Rec {
    /// 1 where it is locked, else 0.
    Mutex {
        locked: u8,
    },
    Cond,
    Portset,
    /// The pages from `first` on, `count` of them from 1 to 256, lead to a region from its page
    /// `offset` on. `write` is 1 where they may be written, else 0.
    Mapping {
        first: u8,
        count: u16,
        offset: u8,
        write: u8,
        region: Link,
    },
    /// The pages from `first` on, `count` of them from 1 to 256, are offered to mappings.
    Region {
        first: u8,
        count: u16,
        write: u8,
        keeper: Link,
    },
    /// 0, or 1 and the slot of its port set in the same space.
    Port {
        set: u16,
    },
    Thread(BoxedThread),
    Reference {
        to: Link,
    },
}

/// An object in its slot, 0 to 239.
#[derive(Drop)]
pub struct ObjectRec {
    pub slot: u8,
    pub body: Rec,
}

/// A page and its words.
#[derive(Clone, Copy)]
pub struct PageRec {
    pub page: u8,
    pub words: [u64; 64],
}

/// A space with its objects, by rising slot, and its pages, by rising number.
#[derive(Drop)]
pub struct SpaceRec {
    /// The number of the space in which it lies; `u32::MAX` for the first.
    pub parent: u32,
    /// Its slot there, 0 to 239; 0 for the first.
    pub slot: u8,
    /// The thread that holds it.
    pub holder: Link,
    pub objects: Objects,
    pub pages: List<PageRec>,
}

/// A subtree: its spaces in preorder, the root first.
#[derive(Drop)]
pub struct Image {
    pub spaces: List<SpaceRec>,
}
