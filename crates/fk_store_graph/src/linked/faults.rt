//! A thread gets another fault where it stands, and nothing else of it is looked at.
ghost use Rattle.std.specs.Prelude.{◌≡◌, ◌<◌, ◌≤◌, ◌+◌, ◌*◌, ◌==◌, ℕ, Option, Some, None, length, if◌then◌else◌};
ghost use Rattle.fk_model.specs.declared.body.Body.TheVariants.{Thread};
ghost use Rattle.fk_model.specs.declared.thread.Thread as threads_of;
ghost use Rattle.fk_store_graph.specs.Links.Links.{AreRings};
ghost use Rattle.fk_store_graph.specs.Links.Nodes as nodes;
ghost use Rattle.fk_store_graph.specs.Links.Rings.{put_at};
ghost use Rattle.fk_store_graph.specs.Leads.Held.{held_in, IsCount};
ghost use Rattle.fk_store_graph.specs.Leads.Leading.{with_fault, IsThread};
ghost use Rattle.fk_store_graph.specs.Linked.Bodied.{body_under, bodies, head_led_by_fault, owner, AreAlike, HaveHeads, HaveNodes};

use crate::leads::{is_same, target_of_fault};
use crate::links::{Links, head_of, node_of};
use fk_model::{Body, Fault};
use fk_store_cells::objects::Objects;

/// The thread under a key has this fault, or none: its pointers lead where that says. Those that lead where they led stay in their rings.
pub fn set_fault(objects: &mut Objects, links: &mut Links, key: u32, fault: Option<Fault>)
    requires thread { IsThread (body_under objects.old key) }
    requires rings { AreRings links.old (owner objects.old) }
    requires long { HaveNodes objects.old (length links.old) }
    ensures alike { AreAlike objects.old objects.new }
    ensures bodies { (t : threads_of.Thread) → body_under objects.old key ≡ Some (Thread t)
        → (j : ℕ) → body_under objects.new j ≡ (if j == key then Some (with_fault t fault) else body_under objects.old j) }
    ensures rings { AreRings links.new (owner objects.new) }
    ensures long { length links.new ≡ length links.old }
    ensures held { (n : ℕ) → IsCount (held_in (bodies objects.old)) n → IsCount (held_in (bodies objects.new)) n }
{
    objects.filed();
    let old = fault_under(objects, key);
    link_fault(objects, links, key, 3, old, fault);
    link_fault(objects, links, key, 4, old, fault);
    objects.set_fault(key, fault);
}

/// The fault of the thread under a key.
fn fault_under(objects: &Objects, key: u32) -> Option<Fault>
    ensures { (t : threads_of.Thread) → body_under objects.now key ≡ Some (Thread t) → result ≡ t.fault }
{
    match objects.entry(key) {
        None => None,
        Some(entry) => fault_in(&entry.body),
    }
}

/// The fault of a thread.
fn fault_in(body: &Body) -> Option<Fault>
    ensures { (t : threads_of.Thread) → body.now ≡ Thread t → result ≡ t.fault }
{
    match body {
        Body::Thread(thread) => thread.fault,
        _ => None,
    }
}

/// The head of the object to which a field of a thread with this fault leads, if it leads to one as a pointer.
fn head_by_fault(objects: &Objects, fault: Option<Fault>, field: u8) -> Option<u32>
    ensures { result ≡ head_led_by_fault objects.now fault field }
{
    let key = objects.key(target_of_fault(fault, field)?)?;
    Some(head_of(key))
}

/// A field of a thread leads where its new fault says, of the fields 3 and 4.
fn link_fault(
    objects: &Objects,
    links: &mut Links,
    key: u32,
    field: u8,
    old: Option<Fault>,
    fault: Option<Fault>,
)
    requires low { 3 ≤ field }
    requires field { field < 5 }
    requires small { key < 858993458 }
    requires long { key * 5 + 5 ≤ length links.old }
    requires heads { HaveHeads objects.now (length links.old) }
    ensures rings { (owner : ℕ → Option ℕ) → owner (nodes.node_of key field) ≡ head_led_by_fault objects.now old field
        → AreRings links.old owner
        → AreRings links.new (put_at owner (nodes.node_of key field) (head_led_by_fault objects.now fault field)) }
    ensures long { length links.new ≡ length links.old }
{
    if !is_same(target_of_fault(old, field), target_of_fault(fault, field)) {
        links.point(node_of(key, field), head_by_fault(objects, fault, field));
    }
}
