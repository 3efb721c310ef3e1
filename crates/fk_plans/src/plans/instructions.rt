//! Making what an instruction comes to.
ghost use Rattle.std.specs.Prelude.{◌≡◌};
ghost use Rattle.fk_model.specs.Moves.{stepped};
ghost use Rattle.fk_model.specs.Outcomes.Said.{Nothing};
ghost use Rattle.fk_store.specs.Store.Paths.{path, place};
ghost use Rattle.fk_store.specs.Store.World.{world};
ghost use Rattle.fk_plans.specs.Plans.Effects.{IsEffect, effect_by, of_running, registers_there};
ghost use Rattle.fk_model.specs.Searches.{thread_at};
ghost use Rattle.fk_model.specs.Valid.{kind_there};

use crate::plans::plan::Effect;
use fk_model::{Mode, Who};
use fk_store::Store;

/// Makes an effect of a running thread with these registers at this counter.
#[tactic(auto, unfolding(fk_model::specs::World::apply_all))]
#[inline(always)]
pub fn make_effect(
    store: &mut Store,
    me: Who,
    mut registers: [u64; 16],
    counter: u64,
    effect: Effect,
)
    requires { IsEffect (path store.old) (world store.old) registers effect }
    ensures step { stepped (world store.old) (effect_by (world store.old) (path store.old) (place (path store.old) me) effect registers counter)
        ≡ record { world = world store.new; said = Nothing } }
    ensures kinds { kind_there (world store.new) ≡ kind_there (world store.old) }
    ensures paths { path store.new ≡ path store.old }
{
    let next = counter.wrapping_add(1);
    match effect {
        Effect::Puts { register, value } => {
            registers[register as usize] = value;
            store.proceed(me, &registers, next, Mode::Running);
        }
        Effect::Jumps { counter } => store.proceed(me, &registers, counter, Mode::Running),
        Effect::Halts { code } => store.proceed(me, &registers, counter, Mode::Halted(code)),
        Effect::Enters => store.proceed(me, &registers, counter, Mode::Calling),
        Effect::Stores {
            space,
            page,
            at,
            value,
        } => {
            store.put_word(space, page, at, value);
            store.proceed(me, &registers, next, Mode::Running);
        }
    }
}

/// Makes an effect of a thread where it runs.
#[inline(always)]
pub fn run(store: &mut Store, me: Who, effect: Effect)
    requires { IsEffect (path store.old) (world store.old) (registers_there (thread_at (world store.old) (place (path store.old) me))) effect }
    ensures step { stepped (world store.old) (of_running (effect_by (world store.old) (path store.old) (place (path store.old) me) effect)
        (thread_at (world store.old) (place (path store.old) me))) ≡ record { world = world store.new; said = Nothing } }
{
    match store.thread(me) {
        Some(thread) => {
            if let Mode::Running = thread.mode {
                let registers = thread.regs;
                let counter = thread.pc;
                make_effect(store, me, registers, counter, effect);
            }
        }
        None => {}
    }
}
