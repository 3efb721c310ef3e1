//! The call that a running thread enters, made by one look.
ghost use Rattle.std.specs.Prelude.{◌≡◌, true, None};
ghost use Rattle.std.specs.Bool.{OnTrue, OnFalse};
ghost use Rattle.fk_model.specs.declared.moves.Ask.TheVariants as asks;
ghost use Rattle.fk_model.specs.declared.moves.Said.TheVariants as says;
ghost use Rattle.fk_model.specs.Searches.{thread_at};
ghost use Rattle.fk_model.specs.Valid.{IsValid};
ghost use Rattle.fk_plans.specs.Plans.Effects.{is_running};
ghost use Rattle.fk_plans.specs.declared.wakes.touching.Touched.TheVariants as touches;
ghost use Rattle.fk_store.specs.Store.Paths.{path, place};
ghost use Rattle.fk_store.specs.Store.World.{world};
ghost use Rattle.fk_calls.specs.Calls.Judgements.{IsEnded, IsReadyMove, IsStepTo, TellsTouched};

use crate::calls::judging::running_user;
use crate::calls::moves::make_instruction;
use fk_changes::readers::Caller;
use fk_model::{Move, Who};
use fk_plans::Effect;
use fk_store::Store;

/// Enters the call at which the user in a slot is, where it runs, its registers name one and the move is ready, and answers whether it did; else all stays as
/// it is. Whoever is at another instruction is told apart by one look at its word.
pub fn enter(store: &mut Store, who: Who) -> bool
    requires valid { IsValid (world store.old) }
    ensures made { OnTrue result (IsReadyMove store.old (record { who = who; pick = None }) asks.Run
        × IsStepTo store.old (record { who = who; pick = None }) asks.Run store.new says.Nothing) }
    ensures ended { OnTrue result (IsEnded store.old store.new None) }
    ensures touched { OnTrue result (TellsTouched store.old (record { who = who; pick = None }) asks.Run (touches.Few None None None)) }
    ensures ran { OnTrue result (is_running (thread_at (world store.old) (place (path store.old) who)) ≡ true) }
    ensures same { OnFalse result (store.new ≡ store.old) }
{
    let Some(thread) = running_user(store, who) else {
        return false;
    };
    let caller = Caller {
        who,
        is_porter: false,
    };
    if !fk_user::enters(store, caller, thread) {
        return false;
    }
    let registers = thread.regs;
    let counter = thread.pc;
    let m = Move { who, pick: None };
    make_instruction(store, &m, registers, counter, Effect::Enters)
}
