//! In which groups of 16 slots a space may have mappings and regions, and ports in sets.
ghost use Rattle.std.specs.Prelude.{◌≡◌, ◌==◌, ◌&&◌, ◌||◌, ℕ, true, Some, IsSome};
ghost use Rattle.fk_store_cells.specs.Keys.Tables.{mark_at};
ghost use Rattle.fk_store_cells.specs.declared.objects.entry.Entry.{Entry};
ghost use Rattle.fk_store_cells.specs.Objects.Filed.{entry_under, key_of};
ghost use Rattle.fk_store_graph.specs.Leads.Marks as marks_of;
ghost use Rattle.fk_store_graph.specs.Linked.Bodied.{IsMarked, StillMarked};

use crate::leads::{is_of_pages, is_port_in_set};
use fk_model::{Body, Who};
use fk_store_cells::objects::Objects;

/// Marks the group of an object's slot, where its body asks for it. A mark is never taken back while
/// the space lives: it says that something may be there, so what removes an object owes it nothing.
pub fn mark_all(objects: &mut Objects, who: Who, body: &Body)
    requires { IsSome (key_of objects.old who) }
    ensures keys { objects.new.keys ≡ objects.old.keys }
    ensures entries { objects.new.entries ≡ objects.old.entries }
    ensures still { StillMarked objects.old objects.new }
    ensures marked { IsMarked objects.new who body.now }
{
    if is_of_pages(body) {
        objects.mark(who, who.slot / 16);
    } else if is_port_in_set(body) {
        objects.mark(who, 16 + who.slot / 16);
    }
}

/// Marks the group of the slot of the object under a key, by the name that it has now.
pub fn mark_again(objects: &mut Objects, key: u32)
    ensures keys { objects.new.keys ≡ objects.old.keys }
    ensures entries { objects.new.entries ≡ objects.old.entries }
    ensures still { StillMarked objects.old objects.new }
    ensures marked { (e : Entry) → entry_under objects.old key ≡ Some e → IsMarked objects.new e.who e.body }
{
    if let Some(entry) = objects.entry(key) {
        let who = entry.who;
        let body = entry.body;
        mark_all(objects, who, &body);
    }
}
