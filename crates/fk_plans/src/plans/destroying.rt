//! Destroying an object.
ghost use Rattle.std.specs.Prelude.{◌≡◌, ℕ, List, false, option_map};
ghost use Rattle.fk_model.specs.Moves.{closed, stepped};
ghost use Rattle.fk_model.specs.Places.{Path};
ghost use Rattle.fk_changes.specs.Deaths.Told.{told_at};
ghost use Rattle.fk_store.specs.Store.Moves.{said_by};
ghost use Rattle.fk_store.specs.Store.Paths.{path, place};
ghost use Rattle.fk_store.specs.Store.World.{world, IsLive};
ghost use Rattle.fk_plans.specs.Plans.Destroys.{destroyed, IsDying};
ghost use Rattle.fk_plans.specs.Plans.Hearers.{IsPadded};
ghost use Rattle.fk_plans.specs.Plans.Plans.{caller_by};

use crate::plans::telling::told;
use fk_changes::deaths::told_port;
use fk_changes::readers::Caller;
use fk_changes::threads::{Answers, finish};
use fk_model::status::OK;
use fk_model::{Said, Who};
use fk_store::Store;

/// That the talk at a port has ended, or nothing.
fn told_end(port: Option<Who>) -> Said
    ensures said { (p : ℕ → Path) → said_by p result ≡ told_at (option_map (place p) port) }
    ensures padded { IsPadded result }
{
    match port {
        Some(port) => Said::Ended { port },
        None => Said::Nothing,
    }
}

/// Destroys an object with all that ends with it, and then the caller's stage may be done. Of a
/// thread that destroys itself nothing is left.
pub fn destroy(store: &mut Store, caller: Caller, object: Who, last: bool) -> Said
    requires live { caller.is_porter ≡ false → IsLive store.old caller.who }
    requires fits { IsDying store.old object }
    ensures step { (words : List ℕ) → let c = caller_by (path store.old) caller words in
        stepped (world store.old) (closed c (destroyed (world store.old) c (place (path store.old) object) last))
        ≡ record { world = world store.new; said = said_by (path store.new) result } }
    ensures padded { IsPadded result }
{
    let port = told_port(store, object);
    fk_changes::deaths::destroy(store, object);
    if caller.is_porter {
        return told(OK, Answers::Nothing);
    }
    if !last {
        return told_end(port);
    }
    finish(store, caller.who, Answers::Nothing);
    told_end(port)
}
