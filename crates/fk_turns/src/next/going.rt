//! Whose move comes next.
ghost use Rattle.std.specs.Prelude.{◌≡◌, [], IfSome, IfNone, option_map};
ghost use Rattle.fk_model.specs.declared.moves.Ask.TheVariants as asks;
ghost use Rattle.fk_model.specs.Valid.{IsValid};
ghost use Rattle.fk_store.specs.Store.World.{world};
ghost use Rattle.fk_turns.specs.Picks.Judgements.{IsReadyMove};
ghost use Rattle.fk_turns.specs.Moved.Kept.{AreKept};
ghost use Rattle.fk_waits.specs.Waits.Lists.{first_ready};
ghost use Rattle.fk_turns.specs.Next.Waiting.{standing, AreWaiting, ArePassed, IsIdle};

use crate::moved::settle_at;
use crate::next::looking::move_of;
use fk_model::Move;
use fk_store::Store;
use fk_waits::turns::Turns;

/// Each user's thread stands once, and who is queued can't move. What the lists keep is seen where they are kept alone; by this call it is had above.
pub fn waiting(turns: &Turns, store: &Store)
    requires valid { IsValid (world store.now) }
    requires kept { AreKept store.now turns.now.waits turns.now.marks }
    ensures { AreWaiting store.now turns.now.waits }
{
    store.names();
    turns.waits().once();
}

/// The move of the first of the ready that can move. Those before it are queued, each at its cause; where nobody can move all are.
pub fn next(turns: &mut Turns, store: &Store) -> Option<Move>
    requires valid { IsValid (world store.now) }
    requires kept { AreKept store.now turns.old.waits turns.old.marks }
    ensures kept { AreKept store.now turns.new.waits turns.new.marks }
    ensures ready { IfSome result (λ m. IsReadyMove store.now m asks.Run) }
    ensures passed { ArePassed store.now (standing turns.old.waits) (standing turns.new.waits) }
    ensures first { option_map (λ m. m.who) result ≡ first_ready turns.new.waits.ready }
    ensures none { IfNone result (IsIdle store.now) }
{
    while let Some(who) = turns.next() {
        match move_of(turns, store, who) {
            Ok(m) => return Some(m),
            Err(mutex) => {
                turns.waits().once();
                settle_at(turns, store, who, mutex);
            }
        }
    }
    idle(turns, store);
    None
}

/// No move of a user is ready, where none of the threads is.
fn idle(turns: &Turns, store: &Store)
    requires valid { IsValid (world store.now) }
    requires kept { AreKept store.now turns.now.waits turns.now.marks }
    requires none { turns.now.waits.ready ≡ [] }
    ensures { IsIdle store.now }
{
    store.names();
    // Tells that every object has a name.
    let _first = store.after(None);
}
