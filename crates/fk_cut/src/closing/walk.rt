//! The objects of a subtree in preorder: an object before what lies in it, and what lies in a space by rising slot.
ghost use Rattle.std.specs.Prelude.{◌≡◌, ◌++◌, ◌∷◌, ℕ, map, Option, None, OnOk, IfOk, IfSome, is_some, if◌then◌else◌};
ghost use Rattle.fk_model.specs.declared.body.Body.TheVariants as bodies;
ghost use Rattle.fk_model.specs.declared.names.Kind.TheVariants as kinds;
ghost use Rattle.fk_model.specs.declared.names.Who.{Who};
ghost use Rattle.fk_model.specs.Objects.{kind_of};
ghost use Rattle.fk_model.specs.Places.{Path};
ghost use Rattle.fk_model.specs.Searches.{residents};
ghost use Rattle.fk_store.specs.Store.Bodies.{body_by};
ghost use Rattle.fk_store.specs.Store.Names.{at};
ghost use Rattle.fk_store.specs.Store.Paths.{path};
ghost use Rattle.fk_store.specs.Store.World.{world, place_of, IsLive};
ghost use Rattle.fk_cut.specs.Closing.Walks.{AreObjects};

use fk_model::{Body, List, NoMemory, Who};
use fk_stack::Stack;
use fk_store::Store;
use std::alloc::Global;

/// Puts an object before what a walk has yet to come to, if it is there.
fn await_object(store: &Store, who: Who, stack: &mut Stack<Who>) -> Result<(), NoMemory>
    ensures { OnOk result (stack.new ≡ if is_some ((world store.now).body (place_of store.now who)) then who ∷ stack.old else stack.old) }
{
    if store.at(who).is_some() {
        stack.push(who)?;
    }
    Ok(())
}

/// Puts what stands in a space before what a walk has yet to come to, the lowest slot first.
fn await_residents(store: &Store, space: u32, stack: &mut Stack<Who>) -> Result<(), NoMemory>
    ensures { OnOk result (stack.new ≡ map (at space) (residents (world store.now) (path store.now space)) ++ stack.old) }
{
    let mut left = 256u16;
    while left > 0 {
        left -= 1;
        let slot = left as u8;
        await_object(store, Who { space, slot }, stack)?;
    }
    Ok(())
}

/// The birth number of an object that is a space.
pub fn birth_of(body: &Body) -> Option<u32>
    ensures some { IfSome result (λ birth. (holder : Option Who) × (body.now ≡ bodies.Space birth holder)) }
    ensures none { (p : ℕ → Path) → result ≡ None → kind_of (body_by p body.now) ≡ kinds.Space → ⊥ }
{
    match body {
        Body::Space { birth, .. } => Some(*birth),
        Body::Mutex { .. }
        | Body::Cond
        | Body::Mapping { .. }
        | Body::Region { .. }
        | Body::Port { .. }
        | Body::Portset
        | Body::Thread(_)
        | Body::Reference { .. } => None,
    }
}

/// Puts what stands in an object before what a walk has yet to come to.
fn await_inner(store: &Store, who: Who, stack: &mut Stack<Who>) -> Result<(), NoMemory>
    ensures { OnOk result (map (place_of store.now) stack.new
        ≡ map (λ k. k ∷ place_of store.now who) (residents (world store.now) (place_of store.now who)) ++ map (place_of store.now) stack.old) }
{
    let Some(body) = store.at(who) else {
        return Ok(());
    };
    match birth_of(body) {
        Some(birth) => await_residents(store, birth, stack),
        None => Ok(()),
    }
}

/// The objects of a subtree in preorder, its root first.
///
/// # Errors
///
/// There is no memory for the list.
pub fn objects_of(alloc: Global, store: &Store, root: Who) -> Result<List<Who>, NoMemory>
    ensures { IfOk result (λ objects. AreObjects store.now (path store.now root.space) root.slot objects) }
{
    let mut objects = List::new(alloc);
    let mut stack = Stack::new(alloc);
    stack.push(root)?;
    while let Some(who) = stack.pop() {
        let _below_2_32 = who.space;
        objects.push(who)?;
        await_inner(store, who, &mut stack)?;
    }
    Ok(objects)
}
