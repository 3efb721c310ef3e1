//! What a move would tell native servers.
ghost use Rattle.std.specs.Prelude.{◌≡◌, true, IfSome, IfNone};
ghost use Rattle.fk_model.specs.Who.{event_of};
ghost use Rattle.fk_kernel.specs.Events.{is_fit_event, IsReadyEvent};
ghost use Rattle.fk_kernel.specs.Kernels.{path_of, world_of};
ghost use Rattle.fk_served.specs.Foretold.{IsForetold};

use fk_kernel::{Kernel, Told};
use fk_model::{Ask, Move};

/// What a move would tell native servers, and the port whose native server would lose its client by it; none where it isn't ready. It is
/// fit. Nothing is made, and what a porter would be told isn't looked at.
pub fn foretell(kernel: &Kernel, m: &Move, ask: &Ask) -> Option<Told>
    requires fit { is_fit_event (world_of kernel.now) (event_of (world_of kernel.now) ask.now m.now) ≡ true }
    ensures told { IfSome result (IsForetold (world_of kernel.now) (path_of kernel.now) (event_of (world_of kernel.now) ask.now m.now)) }
    ensures unready { IfNone result (IsReadyEvent (world_of kernel.now) (event_of (world_of kernel.now) ask.now m.now) → ⊥) }
{
    // Tells that its world is valid, and that names and paths agree.
    kernel.names();
    fk_calls::foretell(kernel.store(), m, ask)
}
