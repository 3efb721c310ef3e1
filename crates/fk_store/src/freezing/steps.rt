//! The steps of a walk through all that lies beneath a space.
ghost use Rattle.std.specs.Prelude.{◌≡◌, ◌≢◌, ◌≤◌, ◌+◌, ℕ, IfSome, Some, None};
ghost use Rattle.fk_store_graph.specs.Bodies.Births.{home_in};
ghost use Rattle.fk_store.specs.Freezing.Freezing.{upward};

use fk_store_graph::bodies::Bodies;

/// Where a walk goes on once it is done with a space: behind that space, if it isn't the one where the
/// walk began.
pub fn up(bodies: &Bodies, top: u32, space: u32) -> Option<(u32, u16)>
    ensures to { result ≡ upward bodies.now top space }
    ensures slot { IfSome result (λ next. next.1 ≤ 256) }
{
    if space == top {
        return None;
    }
    let who = bodies.home(space)?;
    Some((who.space, u16::from(who.slot) + 1))
}
