//! A porter, put into a world by hand.
ghost use Rattle.std.specs.Prelude.{OnOk};
ghost use Rattle.fk_model.specs.Valid.{IsValid};
ghost use Rattle.fk_store.specs.Store.World.{world};

use fk_model::{Body, Mode, NoMemory, Thread, Who};
use fk_store::Store;

/// Puts a porter into a slot of a space, if that is live and the slot empty. The world stays valid.
///
/// # Errors
///
/// There is no memory for the porter.
pub fn put_porter(store: &mut Store, who: Who) -> Result<(), NoMemory>
    requires { IsValid (world store.old) }
    ensures { OnOk result (IsValid (world store.new)) }
{
    if !store.is_live(who.space) || store.at(who).is_some() {
        return Ok(());
    }
    let porter = Thread {
        regs: [0; 16],
        pc: 0,
        mode: Mode::Native,
        stops: 0,
        talk: None,
        fault: None,
    };
    store.make(who, Body::Thread(porter))
}
