//! Ports in sets, where a set is destroyed or gets another name.
ghost use Rattle.std.specs.Prelude.{◌≡◌, ◌<◌, ◌*◌, ◌+◌, false, slice_index_or};
ghost use Rattle.fk_model.specs.Objects.{holds};
ghost use Rattle.fk_store_graph.specs.Linked.Bodied.{body_under, AreMarked, Maps, member_after, members_in};
ghost use Rattle.fk_store_graph.specs.Leads.Marks as marks_of;
ghost use Rattle.fk_store_graph.specs.Leads.Marks.{member_mark};

use crate::leads::{Sweep, is_port_in_set};
use crate::linked::replacing::sweep_one;
use fk_model::Who;
use fk_store_cells::objects::Objects;

/// The ports of the object's space that are in it as their set are swept.
pub fn sweep_members(objects: &mut Objects, sweep: Sweep)
    requires { AreMarked objects.old marks_of.is_member member_mark }
    ensures { Maps objects.old objects.new (member_after sweep objects.old) }
{
    objects.slots();
    objects.filed();
    let marks = objects.marks(sweep.from.space);
    for group in 0..16u8 {
        if has_members(&marks, group) {
            sweep_group(objects, group, sweep);
        }
    }
}

/// A port of a group of slots may be in a set.
#[inline]
fn has_members(marks: &[bool; 32], group: u8) -> bool
    requires { group < 16 }
    ensures { result ≡ slice_index_or marks.now (16 + group) false }
{
    marks[16 + group as usize]
}

/// The ports of a group of slots of the object's space are swept.
#[inline(never)]
fn sweep_group(objects: &mut Objects, group: u8, sweep: Sweep)
    requires { group < 16 }
    ensures { Maps objects.old objects.new (members_in sweep objects.old (group * 16) (group * 16 + 16)) }
{
    for at in 0..16u8 {
        sweep_port(objects, group * 16 + at, sweep);
    }
}

/// The port in a slot of the object's space is swept, if it is in a set.
fn sweep_port(objects: &mut Objects, slot: u8, sweep: Sweep)
    ensures { Maps objects.old objects.new (members_in sweep objects.old slot (slot + 1)) }
{
    objects.filed();
    let who = Who {
        space: sweep.from.space,
        slot,
    };
    if let Some(key) = objects.key(who) {
        if is_member(objects, key) {
            sweep_one(objects, key, sweep);
        }
    }
}

/// The object under a key is a port in a set.
fn is_member(objects: &Objects, key: u32) -> bool
    ensures { result ≡ holds marks_of.is_member (body_under objects.now key) }
{
    match objects.entry(key) {
        None => false,
        Some(entry) => is_port_in_set(&entry.body),
    }
}
