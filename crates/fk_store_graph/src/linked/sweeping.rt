//! What leads to an object that is destroyed, or gets another name.
ghost use Rattle.std.specs.Prelude.{◌≡◌, ◌≢◌, ◌<◌, ◌+◌, ◌*◌, ◌/◌, ℕ, Some, None, false, length, option_map};
ghost use Rattle.fk_store_graph.specs.Links.Links.{AreRings};
ghost use Rattle.fk_store_graph.specs.Links.Nodes.{is_head, node_of as node};
ghost use Rattle.fk_store_cells.specs.Objects.Filed.{key_of};
ghost use Rattle.fk_store_graph.specs.Linked.Bodied.{owner, body_under, bodies, HaveNodes, AreAlike, AreMarked, Maps, swept_under};
ghost use Rattle.fk_store_graph.specs.Leads.Held.{held_in, IsCount};
ghost use Rattle.fk_store_graph.specs.Leads.Leading.{all_leading};
ghost use Rattle.fk_store_graph.specs.Leads.Marks.{is_member, member_mark};
ghost use Rattle.fk_store_graph.specs.Leads.Sweeps.{led_after};

use crate::leads::{Sweep, is_reference};
use crate::linked::members::sweep_members;
use crate::linked::replacing::{kill_reference, replace, sweep_one};
use crate::links::{Links, head_of};
use fk_store_cells::objects::Objects;

/// All bodies are swept of an object that is destroyed, and nothing leads to it any more.
pub fn free_all(objects: &mut Objects, links: &mut Links, held: &mut u64, key: u32, sweep: Sweep)
    requires here { key_of objects.old sweep.from ≡ Some key }
    requires gone { sweep.to ≡ None }
    requires rings { AreRings links.old (owner objects.old) }
    requires long { HaveNodes objects.old (length links.old) }
    requires held { IsCount (held_in (bodies objects.old)) held.old }
    requires members { AreMarked objects.old is_member member_mark }
    ensures swept { Maps objects.old objects.new (swept_under sweep objects.old) }
    ensures rings { AreRings links.new (owner objects.new) }
    ensures alone { (n : ℕ) → is_head n ≡ false → owner objects.new n ≢ Some (node key 2) }
    ensures long { length links.new ≡ length links.old }
    ensures held { IsCount (held_in (bodies objects.new)) held.new }
{
    objects.filed();
    free_led(objects, links, held, key, sweep);
    sweep_members(objects, sweep);
}

/// All that leads to an object by a pointer is swept, and leads there no more.
fn free_led(objects: &mut Objects, links: &mut Links, held: &mut u64, key: u32, sweep: Sweep)
    requires here { key_of objects.old sweep.from ≡ Some key }
    requires gone { sweep.to ≡ None }
    requires rings { AreRings links.old (owner objects.old) }
    requires long { HaveNodes objects.old (length links.old) }
    requires held { IsCount (held_in (bodies objects.old)) held.old }
    ensures swept { Maps objects.old objects.new (λ j. led_after sweep) }
    ensures rings { AreRings links.new (owner objects.new) }
    ensures alone { (n : ℕ) → is_head n ≡ false → owner objects.new n ≢ Some (node key 2) }
    ensures long { length links.new ≡ length links.old }
    ensures held { IsCount (held_in (bodies objects.new)) held.new }
{
    objects.filed();
    while let Some(node) = links.first(head_of(key)) {
        free_one(objects, links, held, key, node / 5, sweep);
    }
}

/// One object whose pointers lead there is swept.
fn free_one(
    objects: &mut Objects,
    links: &mut Links,
    held: &mut u64,
    key: u32,
    other: u32,
    sweep: Sweep,
)
    requires here { key_of objects.old sweep.from ≡ Some key }
    requires gone { sweep.to ≡ None }
    requires rings { AreRings links.old (owner objects.old) }
    requires long { HaveNodes objects.old (length links.old) }
    requires held { IsCount (held_in (bodies objects.old)) held.old }
    requires leads { (n : ℕ) × (is_head n ≡ false) × (n / 5 ≡ other) × (owner objects.old n ≡ Some (node key 2)) }
    ensures alike { AreAlike objects.old objects.new }
    ensures swept { (j : ℕ) → option_map (led_after sweep) (body_under objects.new j) ≡ option_map (led_after sweep) (body_under objects.old j) }
    ensures less { all_leading sweep.from (bodies objects.new) < all_leading sweep.from (bodies objects.old) }
    ensures rings { AreRings links.new (owner objects.new) }
    ensures long { length links.new ≡ length links.old }
    ensures held { IsCount (held_in (bodies objects.new)) held.new }
{
    objects.filed();
    if let Some(entry) = objects.entry(other) {
        if is_reference(&entry.body) {
            kill_reference(objects, links, other);
        } else {
            let new = sweep.body(entry.who.space, entry.body);
            replace(objects, links, held, other, &new);
        }
    }
}

/// All bodies say the other name of an object. No ring changes.
pub fn rename_all(objects: &mut Objects, links: &Links, key: u32, sweep: Sweep)
    requires here { key_of objects.old sweep.from ≡ Some key }
    requires other { sweep.to ≢ Some sweep.from }
    requires rings { AreRings links.now (owner objects.old) }
    requires long { HaveNodes objects.old (length links.now) }
    requires members { AreMarked objects.old is_member member_mark }
    ensures { Maps objects.old objects.new (swept_under sweep objects.old) }
{
    objects.filed();
    rename_led(objects, links, key, sweep);
    sweep_members(objects, sweep);
}

/// The name in all pointers that lead to an object is its other one.
fn rename_led(objects: &mut Objects, links: &Links, key: u32, sweep: Sweep)
    requires here { key_of objects.old sweep.from ≡ Some key }
    requires other { sweep.to ≢ Some sweep.from }
    requires rings { AreRings links.now (owner objects.old) }
    requires long { HaveNodes objects.old (length links.now) }
    ensures { Maps objects.old objects.new (λ j. led_after sweep) }
{
    objects.filed();
    let mut walk = links.walk(head_of(key));
    while let Some(node) = walk.next() {
        sweep_one(objects, node / 5, sweep);
    }
}
