//! The pointers of an object stand in the rings of what they lead to.
ghost use Rattle.std.specs.Prelude.{◌≡◌, ◌<◌, ◌≤◌, ◌+◌, ◌*◌, ℕ, Option, Some, None, length, true};
ghost use Rattle.fk_store_graph.specs.Links.Links.{AreRings};
ghost use Rattle.fk_store_graph.specs.Links.Nodes as nodes;
ghost use Rattle.fk_store_graph.specs.Links.Rings.{put_at};
ghost use Rattle.fk_store_graph.specs.Linked.Bodied.{owner_with, unled_with, HaveHeads};
ghost use Rattle.fk_store_graph.specs.Leads.Leading.{target};
ghost use Rattle.fk_store_graph.specs.Linked.Bodied as bodied;

use crate::leads::{ends, is_same, larger, target_of};
use crate::links::{Links, head_of, node_of};
use fk_model::Body;
use fk_store_cells::objects::Objects;

/// The head of the object to which a field of a body leads, if it leads to one as a pointer.
fn head_led(objects: &Objects, body: &Body, field: u8) -> Option<u32>
    ensures { result ≡ bodied.head_led objects.now (Some body.now) field }
{
    let key = objects.key(target_of(body, field)?)?;
    Some(head_of(key))
}

/// The pointers of an object, which led nowhere, lead where its body says.
pub fn link_all(objects: &Objects, links: &mut Links, key: u32, body: &Body)
    requires small { key < 858993458 }
    requires long { key * 5 + 5 ≤ length links.old }
    requires heads { HaveHeads objects.now (length links.old) }
    ensures rings { (owner : ℕ → Option ℕ) → ((i : ℕ) → i < 5 → owner (nodes.node_of key i) ≡ None)
        → AreRings links.old owner → AreRings links.new (owner_with objects.now owner key (Some body.now)) }
    ensures long { length links.new ≡ length links.old }
{
    let most = ends(body);
    for field in 0..most {
        link_field(objects, links, key, field, body);
    }
}

/// A field of an object leads where its body says, if it is a pointer.
pub fn link_field(objects: &Objects, links: &mut Links, key: u32, field: u8, body: &Body)
    requires field { field < 5 }
    requires small { key < 858993458 }
    requires long { key * 5 + 5 ≤ length links.old }
    requires heads { HaveHeads objects.now (length links.old) }
    ensures rings { (owner : ℕ → Option ℕ) → AreRings links.old owner
        → AreRings links.new (put_at owner (nodes.node_of key field) (bodied.head_led objects.now (Some body.now) field)) }
    ensures long { length links.new ≡ length links.old }
{
    if field != 2 {
        links.point(node_of(key, field), head_led(objects, body, field));
    }
}

/// The pointers of an object lead where its new body says. Those that lead where they led stay in
/// their rings.
pub fn link_anew(objects: &Objects, links: &mut Links, key: u32, old: &Body, body: &Body)
    requires small { key < 858993458 }
    requires long { key * 5 + 5 ≤ length links.old }
    requires heads { HaveHeads objects.now (length links.old) }
    ensures rings { (owner : ℕ → Option ℕ) → ((i : ℕ) → i < 5 → owner (nodes.node_of key i) ≡ bodied.head_led objects.now (Some old.now) i)
        → AreRings links.old owner → AreRings links.new (owner_with objects.now owner key (Some body.now)) }
    ensures long { length links.new ≡ length links.old }
{
    let most = larger(ends(old), ends(body));
    for field in 0..most {
        link_moved(objects, links, key, field, old, body);
    }
}

/// A field of an object leads where its new body says, if it is a pointer.
fn link_moved(objects: &Objects, links: &mut Links, key: u32, field: u8, old: &Body, body: &Body)
    requires field { field < 5 }
    requires small { key < 858993458 }
    requires long { key * 5 + 5 ≤ length links.old }
    requires heads { HaveHeads objects.now (length links.old) }
    ensures rings { (owner : ℕ → Option ℕ) → owner (nodes.node_of key field) ≡ bodied.head_led objects.now (Some old.now) field
        → AreRings links.old owner
        → AreRings links.new (put_at owner (nodes.node_of key field) (bodied.head_led objects.now (Some body.now) field)) }
    ensures long { length links.new ≡ length links.old }
{
    if !is_same(target_of(old, field), target_of(body, field)) {
        link_field(objects, links, key, field, body);
    }
}

/// The pointers of an object, which are among so many of its first fields, lead nowhere.
pub fn unlink_all(links: &mut Links, key: u32, most: u8)
    requires few { most ≤ 5 }
    requires small { key < 858993458 }
    requires long { key * 5 + 5 ≤ length links.old }
    ensures rings { (owner : ℕ → Option ℕ) → ((i : ℕ) → most ≤ i → i < 5 → owner (nodes.node_of key i) ≡ None)
        → AreRings links.old owner → AreRings links.new (unled_with owner key) }
    ensures long { length links.new ≡ length links.old }
{
    for field in 0..most {
        unlink_field(links, key, field);
    }
}

/// A field of an object leads nowhere.
fn unlink_field(links: &mut Links, key: u32, field: u8)
    requires field { field < 5 }
    requires small { key < 858993458 }
    requires long { key * 5 + 5 ≤ length links.old }
    ensures rings { (owner : ℕ → Option ℕ) → AreRings links.old owner → AreRings links.new (put_at owner (nodes.node_of key field) None) }
    ensures long { length links.new ≡ length links.old }
{
    if field != 2 {
        links.point(node_of(key, field), None);
    }
}
