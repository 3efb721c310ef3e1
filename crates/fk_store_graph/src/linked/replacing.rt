//! An object gets another body where it stands.
ghost use Rattle.std.specs.Prelude.{◌≡◌, ◌+◌, ◌==◌, ℕ, true, Some, IsSome, length, if◌then◌else◌};
ghost use Rattle.fk_model.specs.declared.body.Body.{Body};
ghost use Rattle.fk_model.specs.declared.body.Body.TheVariants.{Reference};
ghost use Rattle.fk_model.specs.declared.names.Ptr.TheVariants.{Dead};
ghost use Rattle.fk_model.specs.Objects.{holds};
ghost use Rattle.fk_store_graph.specs.Links.Links.{AreRings};
ghost use Rattle.fk_store_graph.specs.Linked.Bodied.{owner, owner_with, body_under, bodies, HaveNodes, AreAlike, Maps, swept_at};
ghost use Rattle.fk_store_graph.specs.Leads.Leading.{is_reference};
ghost use Rattle.fk_store_graph.specs.Leads.Held as held_by;
ghost use Rattle.fk_store_graph.specs.Leads.Held.{held_in, one_if, IsCount};

use crate::leads::{Sweep, counted, is_held};
use crate::linked::linking::{link_anew, link_field};
use crate::links::{Links, node_of};
use fk_model::{Body, Ptr};
use fk_store_cells::objects::Objects;

/// The object under a key has another body: its pointers lead where that says, and it is counted if it
/// is held.
pub fn replace(objects: &mut Objects, links: &mut Links, held: &mut u64, key: u32, body: &Body)
    requires there { IsSome (body_under objects.old key) }
    requires rings { AreRings links.old (owner objects.old) }
    requires long { HaveNodes objects.old (length links.old) }
    requires held { IsCount (held_in (bodies objects.old)) held.old }
    ensures alike { AreAlike objects.old objects.new }
    ensures bodies { (j : ℕ) → body_under objects.new j ≡ (if j == key then Some body.now else body_under objects.old j) }
    ensures rings { AreRings links.new (owner objects.new) }
    ensures long { length links.new ≡ length links.old }
    ensures held { IsCount (held_in (bodies objects.new)) held.new }
{
    objects.filed();
    relink(objects, links, held, key, body);
    objects.put(key, *body);
}

/// What stands beside the object under a key is as its new body says.
fn relink(objects: &Objects, links: &mut Links, held: &mut u64, key: u32, body: &Body)
    requires there { IsSome (body_under objects.now key) }
    requires long { HaveNodes objects.now (length links.old) }
    ensures rings { AreRings links.old (owner objects.now) → AreRings links.new (owner_with objects.now (owner objects.now) key (Some body.now)) }
    ensures long { length links.new ≡ length links.old }
    ensures held { (b : Body) → body_under objects.now key ≡ Some b
        → (n m : ℕ) → IsCount n held.old → m + one_if (held_by.is_held b) ≡ n + one_if (held_by.is_held body.now) → IsCount m held.new }
{
    objects.filed();
    if let Some(entry) = objects.entry(key) {
        *held = counted(*held, is_held(&entry.body), is_held(body));
        link_anew(objects, links, key, &entry.body, body);
    }
}

/// The reference under a key is dead, and leads nowhere. So it costs less than by `replace`.
pub fn kill_reference(objects: &mut Objects, links: &mut Links, key: u32)
    requires there { holds is_reference (body_under objects.old key) ≡ true }
    requires rings { AreRings links.old (owner objects.old) }
    requires long { HaveNodes objects.old (length links.old) }
    ensures alike { AreAlike objects.old objects.new }
    ensures bodies { (j : ℕ) → body_under objects.new j ≡ (if j == key then Some (Reference Dead) else body_under objects.old j) }
    ensures rings { AreRings links.new (owner objects.new) }
    ensures long { length links.new ≡ length links.old }
    ensures held { (n : ℕ) → IsCount (held_in (bodies objects.old)) n → IsCount (held_in (bodies objects.new)) n }
{
    objects.filed();
    links.point(node_of(key, 0), None);
    objects.put(key, Body::Reference { to: Ptr::Dead });
}

/// The reference under a key leads elsewhere. So it costs less than by `replace`.
pub fn aim(objects: &mut Objects, links: &mut Links, key: u32, to: Ptr)
    requires there { holds is_reference (body_under objects.old key) ≡ true }
    requires rings { AreRings links.old (owner objects.old) }
    requires long { HaveNodes objects.old (length links.old) }
    ensures alike { AreAlike objects.old objects.new }
    ensures bodies { (j : ℕ) → body_under objects.new j ≡ (if j == key then Some (Reference to) else body_under objects.old j) }
    ensures rings { AreRings links.new (owner objects.new) }
    ensures long { length links.new ≡ length links.old }
    ensures held { (n : ℕ) → IsCount (held_in (bodies objects.old)) n → IsCount (held_in (bodies objects.new)) n }
{
    objects.filed();
    let body = Body::Reference { to };
    link_field(objects, links, key, 0, &body);
    objects.put(key, body);
}

/// The object under a key is swept where it stands. No ring changes.
pub fn sweep_one(objects: &mut Objects, key: u32, sweep: Sweep)
    ensures { Maps objects.old objects.new (swept_at sweep objects.old key) }
{
    if let Some(entry) = objects.entry(key) {
        if let Body::Reference { to } = entry.body {
            let to = sweep.pointer(to);
            objects.put(key, Body::Reference { to });
        } else {
            let new = sweep.body(entry.who.space, entry.body);
            objects.put(key, new);
        }
    }
}
