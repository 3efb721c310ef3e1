//! The slots of the nester that an image's pointers lead to.
ghost use Rattle.std.specs.Prelude.{◌≡◌, ◌<◌, ℕ, ◌∷◌, [], ◌++◌, false, get_or};
ghost use Rattle.std.specs.List.{list_any, flat_map};
ghost use Rattle.fk_image.specs.Image.Outs.{Marks, leads_out_at, links};
ghost use Rattle.fk_image.specs.Image.Outs as words;

use crate::image::image::{FaultRec, Image, Link, ObjectRec, Rec, SpaceRec, TalkRec};

fn mark(used: &mut [bool; 240], to: Link)
    ensures { Marks used.old used.new (to ∷ []) }
{
    if let Link::Out(slot) = to
        && slot < 240
    {
        used[slot as usize] = true;
    }
}

fn mark_talk(used: &mut [bool; 240], talk: Option<TalkRec>)
    ensures { Marks used.old used.new (words.talk_links talk) }
{
    if let Some(talk) = talk {
        mark(used, talk.port);
        mark(used, talk.server);
    }
}

fn mark_fault(used: &mut [bool; 240], fault: Option<FaultRec>)
    ensures { Marks used.old used.new (words.fault_links fault) }
{
    if let Some(fault) = fault {
        mark(used, fault.port);
        if let Some(taker) = fault.taker {
            mark(used, taker);
        }
    }
}

fn mark_body(used: &mut [bool; 240], body: &Rec)
    ensures { Marks used.old used.new (words.body_links body.now) }
{
    match body {
        Rec::Mapping { region: to, .. } | Rec::Region { keeper: to, .. } | Rec::Reference { to } =>
            { mark(used, *to) }
        Rec::Thread(thread) => {
            mark_talk(used, thread.get().talk);
            mark_fault(used, thread.get().fault);
        }
        Rec::Mutex { .. } | Rec::Cond | Rec::Portset | Rec::Port { .. } => {}
    }
}

fn mark_objects(used: &mut [bool; 240], objects: &[ObjectRec])
    ensures { Marks used.old used.new (flat_map words.object_links objects.now) }
{
    for object in objects {
        mark_body(used, &object.body);
    }
}

fn mark_spaces(used: &mut [bool; 240], spaces: &[SpaceRec])
    ensures { Marks used.old used.new (flat_map words.space_links spaces.now) }
{
    for space in spaces {
        mark(used, space.holder);
        mark_objects(used, space.objects.as_slice());
    }
}

impl Image {
    /// Which slots of the nester its pointers lead to, slot by slot.
    pub fn outs(&self) -> [bool; 240]
        ensures { (slot : ℕ) → slot < 240 → get_or result slot false ≡ list_any (leads_out_at slot) (links self.now) }
    {
        let mut used = [false; 240];
        mark_spaces(&mut used, self.spaces.as_slice());
        used
    }
}
