//! Whether anything outside a subtree leads to an object of it.
ghost use Rattle.std.specs.Prelude.{◌≡◌, option_map, Some, None};
ghost use Rattle.fk_model.specs.Closed as definition;
ghost use Rattle.fk_model.specs.Closed.{is_holders_scratch};
ghost use Rattle.fk_store.specs.Store.Paths.{path, HasOwnPath};
ghost use Rattle.fk_store.specs.Store.World.{world, place_of, IsLive};

use crate::closing::above::{has_own_path, is_inside, is_met};
use crate::closing::points::{all_three, points_to};
use fk_model::limits::{FIRST_SCRATCH_SLOT, LAST_SCRATCH_SLOT};
use fk_model::{Body, Who};
use fk_store::Store;

/// An object is scratch of the holder of a subtree's root.
fn is_scratch(store: &Store, root: Who, from: Who) -> bool
    requires { HasOwnPath (path store.now) from }
    ensures { result ≡ is_holders_scratch (world store.now) (place_of store.now root) (place_of store.now from) }
{
    match store.at(root) {
        Some(
            Body::Space {
                holder: Some(holder),
                ..
            },
        ) => {
            let slot = u64::from(from.slot);
            let beside = from.space == holder.space;
            let past_users = slot >= FIRST_SCRATCH_SLOT;
            all_three(beside, past_users, slot <= LAST_SCRATCH_SLOT)
        }
        Some(_) | None => false,
    }
}

/// An object outside a subtree, no scratch of the root's holder, has a pointer to a target.
fn leads_in_from(store: &Store, root: Who, target: Who, from: Who) -> bool
    requires root { HasOwnPath (path store.now) root }
    requires target { HasOwnPath (path store.now) target }
    ensures { result ≡ definition.leads_in_from (world store.now) (place_of store.now root) (place_of store.now target) (place_of store.now from) }
{
    match store.at(from) {
        Some(body) => {
            if !points_to(body, target) {
                return false;
            }
            let scratch = is_scratch(store, root, from);
            all_three(true, !scratch, !is_inside(store, root, from))
        }
        None => false,
    }
}

/// An object outside a subtree, no scratch of the root's holder, has a pointer to a target. It looks
/// at those alone of which a pointer leads there.
pub fn is_led_to(store: &Store, root: Who, target: Who) -> bool
    requires root { HasOwnPath (path store.now) root }
    requires target { HasOwnPath (path store.now) target }
    ensures { result ≡ definition.is_led_to (world store.now) (place_of store.now root) (place_of store.now target) }
{
    let mut leaders = store.leaders(target);
    while let Some(from) = leaders.next() {
        if leads_in_from(store, root, target, from) {
            is_met(store, from);
            return true;
        }
    }
    !leaders.are_all() && is_led_to_by_any(store, root, target)
}

/// An object outside a subtree has a pointer to a target, by a look at all objects: where it isn't known who leads there.
fn is_led_to_by_any(store: &Store, root: Who, target: Who) -> bool
    requires root { HasOwnPath (path store.now) root }
    requires target { HasOwnPath (path store.now) target }
    ensures { result ≡ definition.is_led_to (world store.now) (place_of store.now root) (place_of store.now target) }
{
    let mut at = store.after(None);
    while let Some(from) = at {
        if leads_in_from(store, root, target, from) {
            is_met(store, from);
            return true;
        }
        at = store.after(Some(from));
    }
    false
}
