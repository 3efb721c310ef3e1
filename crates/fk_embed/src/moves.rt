//! A thread's ready move, and a move that is made where it is ready.
ghost use Rattle.std.specs.Bool.{OnFalse, OnTrue};
ghost use Rattle.std.specs.Prelude.{◌≡◌, IfNone, IfOk, IfSome, OnErr, map};
ghost use Rattle.fk_host.specs.Hosts.{IsReadyWith, IsTurn};
ghost use Rattle.fk_model.specs.Who.{event_of, named};
ghost use Rattle.fk_model.specs.declared.moves.Ask.TheVariants as asks;
ghost use Rattle.fk_model.specs.declared.moves.Said as says;
ghost use Rattle.fk_served.specs.Events.{IsMoveReady, IsReadyEvent};
ghost use Rattle.fk_served.specs.Kernels.{world_of as world};
ghost use Rattle.fk_served.specs.Served.{AllFit};

use fk_host::Host;
use fk_model::{Ask, Move, NoMemory, Who};
use fk_natives::Service;
use fk_responders::Table;
use fk_served::Kernel;

/// The move of the user thread in a slot that is ready. It picks somebody where the thread's stage asks for that. There is none exactly where no move of that
/// thread is ready.
pub fn ready_move(kernel: &Kernel, who: Who) -> Option<Move>
    ensures ready { IfSome result (λ m. IsReadyEvent (world kernel.now) (event_of (world kernel.now) asks.Run m)) }
    ensures who { IfSome result (λ m. m.who ≡ who) }
    ensures none { IfNone result (IsMoveReady (world kernel.now) (named (world kernel.now) who) → ⊥) }
{
    kernel.names();
    fk_turns::next::ready_move(kernel.store(), who)
}

/// Makes a move of a user or a server where it is ready, has each server hear what it tells, and answers whether it was; else all is as before.
///
/// # Errors
///
/// There is no memory for an object, a page or what servers hear; all is as before then.
pub fn make<S: Service + Drop>(
    host: &mut Host<S>,
    table: &Table,
    m: &Move,
) -> Result<bool, NoMemory>
    requires fits { AllFit (map (λ r. r.rule) table.now.list.items) host.old.services.list }
    ensures made { IfOk result (λ made. OnTrue made ((said : says.Said)
        × IsTurn host.old.kernel host.old.services.list m.now asks.Run said host.new.kernel host.new.services.list)) }
    ensures unready { IfOk result (λ made. OnFalse made (IsReadyWith host.old.services.list (world host.old.kernel) m.now asks.Run → ⊥)) }
    ensures same { IfOk result (λ made. OnFalse made ((host.new.kernel ≡ host.old.kernel) × (host.new.services.list ≡ host.old.services.list))) }
    ensures fits { AllFit (map (λ r. r.rule) table.now.list.items) host.new.services.list }
    ensures lacking_kernel { OnErr result (host.new.kernel ≡ host.old.kernel) }
    ensures lacking_services { OnErr result (host.new.services.list ≡ host.old.services.list) }
{
    if !host.ready(m, &Ask::Run) {
        return Ok(false);
    }
    host.turn(table, m, &Ask::Run)?;
    Ok(true)
}
