//! When the freezing rule allows an act.
ghost use Rattle.std.specs.Prelude.{◌≡◌};
ghost use Rattle.fk_store.specs.Store.Paths.{path, place};
ghost use Rattle.fk_store.specs.Store.World.{world};
ghost use Rattle.fk_calls.specs.Acts.Acts.{is_act_allowed};

use crate::acts::act::Act;
use fk_model::Who;
use fk_store::Store;

/// The freezing rule allows an act of a port's server. The port and the client are free, so that the
/// page alone into which words go may be frozen. A server decides over nothing.
pub fn is_allowed(store: &Store, port: Who, act: &Act) -> bool
    ensures { result ≡ is_act_allowed (world store.now) (place (path store.now) port) (path store.now) act.now }
{
    match act {
        Act::Gives { to, .. } => !store.space_frozen_for(port, to.0),
        Act::Takes { .. }
        | Act::Resumes { .. }
        | Act::GivesNothing
        | Act::Fills { .. }
        | Act::Passes { .. } => true,
    }
}
