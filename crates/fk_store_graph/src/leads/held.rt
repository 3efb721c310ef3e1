//! How many spaces are held.
ghost use Rattle.std.specs.Prelude.{◌≡◌, ◌+◌, ℕ};
ghost use Rattle.fk_store_graph.specs.Leads.Held as held;
ghost use Rattle.fk_store_graph.specs.Leads.Held.{one_if, IsCount};

use fk_model::Body;

/// It is a space that somebody holds.
pub fn is_held(body: &Body) -> bool
    ensures { result ≡ held.is_held body.now }
{
    match body {
        Body::Space { holder, .. } => holder.is_some(),
        _ => false,
    }
}

/// The count once an object that was held, or wasn't, is held, or isn't. A count that has come to
/// its end stays there.
pub fn counted(count: u64, before: bool, now: bool) -> u64
    ensures { (n m : ℕ) → IsCount n count → m + one_if before ≡ n + one_if now → IsCount m result }
{
    if before == now || count == u64::MAX {
        count
    } else if now {
        count + 1
    } else {
        count.saturating_sub(1)
    }
}
