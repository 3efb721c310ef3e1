//! The lock and its passes.
ghost use Rattle.std.specs.Prelude.{◌≡◌, ℕ, [], ◌<◌, ◌≤◌, ◌%◌, ◌^◌, ◌∷◌, ◌+◌, max, Some, IfOk, IsTrue, is_some};
ghost use Rattle.std.specs.Fn.{FnOnceTakesAtMut, FnOnceReturnsAtMut};
ghost use Rattle.fk_rlock.specs.Rule.{idle, queued, called, holding};
ghost use Rattle.fk_rlock.specs.Plays.{Entered};

use crate::counted::Counted;
use crate::kinds::{Draw, Give, Learn, Look, Merge, Order, Part, PassOn, Raise, Take};
use crate::view::{About, View};
use atomic_table::{Refused, Seat, Table};
use fk_model::NoMemory;
use std::alloc::Global;
use std::hint::spin_loop;
use std::marker::Model;
use std::snapshot::Snapshot;
use std::sync::Wait;
use std::thread::yield_now;
use std::time::Duration;

// How many tickets were drawn, modulo 2^64.
const TICKET: usize = 0;

// How many turns have ended, modulo 2^64: the ticket that is served.
const SERVING: usize = 1;

// The count of the value at home.
const FRONT: usize = 2;

// So many looks are made at most before a ticket is drawn, the first ones on the processor.
const LOOKS: u32 = 384;

const FIRST_LOOKS: u32 = 256;

// Between two of these.
const PAUSE: u32 = 4;

// And so many microseconds it sleeps between two of the others.
const SLEEP: u64 = 100;

// So many looks for its turn are made without letting other threads run.
const NEAR_LOOKS: u32 = 256;

// Waits on the processor for a moment.
fn pause() {
    for _ in 0..PAUSE {
        spin_loop();
    }
}

/// A lock round a value whose count never falls. Those who wait with a ticket are served in the order in which they drew it; who comes while
/// another is served waits a while before it draws one.
/// It is cut into at most nine parts, of which each pass has some; where they all are in one pass, the lock can be closed.
#[derive(Drop)]
pub struct Ruled<T: Counted> {
    table: Table<T, View<T::Boot>, About<T>, Order, Global>,
    ghost sized: { (table.shared.table_id.words ≡ 3) × (table.shared.table_id.slots ≡ 1) },
}

impl<T: Counted> Model for Ruled<T> {
    ghost use Rattle.fk_rlock.specs.Known.{Lock, lock_code};

    ghost Value = { Lock };

    ghost coded = { lock_code };

    ghost view = { λ s. record { id = s.table.shared.table_id; seats = s.table.shared.key.seats } };
}

/// What a thread takes turns with: it knows its lock, what the value was begun from, the greatest count
/// that it has seen, and how many of the lock's parts it has, at least one. It has no bytes.
#[derive(Drop)]
pub struct Pass<T: Counted> {
    seat: Seat<T, View<T::Boot>>,
    ghost begun: { IsTrue (is_some seat.me.0.boot) },
    ghost idle: { seat.me ≡ (idle seat.me.0.seen seat.me.0.parts seat.me.0.boot, []) },
    ghost alive: { 0 < seat.me.0.parts },
}

impl<T: Counted> Model for Pass<T> {
    ghost use Rattle.fk_rlock.specs.Known.{Known, known_code, held};

    ghost Value = { Known T.Boot };

    ghost coded = { known_code T.Boot.code };

    ghost view = { λ s. record { lock = s.seat.table_id; boot = held s.seat.me.0.boot s.begun; seen = s.seat.me.0.seen; parts = s.seat.me.0.parts } };
}

impl<T: Counted> Ruled<T> {
    // Draws a ticket.
    fn draw(&self, seat: &mut Seat<T, View<T::Boot>>) -> u64
        requires lock { seat.old.table_id ≡ self.now.id }
        requires idle { (seat.old.me ≡ (idle seat.old.me.0.seen seat.old.me.0.parts seat.old.me.0.boot, [])) × (0 < seat.old.me.0.parts) }
        ensures lock { seat.new.table_id ≡ seat.old.table_id }
        ensures drawn { (t : ℕ) × (t % 2 ^ 64 ≡ result) × (seat.new.me ≡ (queued t seat.old.me.0.seen seat.old.me.0.parts seat.old.me.0.boot, [])) }
    {
        self.table.shared.fetch_add::<Draw>(seat, TICKET, 1)
    }

    // Whether nobody has a turn or waits for one.
    fn is_free(&self) -> bool {
        self.table.shared.peek(SERVING) == self.table.shared.peek(TICKET)
    }

    // Sleeps for a moment. Nobody wakes it.
    fn sleep<R: Wait>(&self, rt: &R) {
        let drawn = self.table.shared.peek(TICKET) % (1 << 32);
        self.table
            .shared
            .park_timeout(rt, TICKET, drawn as u32, Duration::from_micros(SLEEP));
    }

    // Waits a while until nobody has a turn. A ticket holds up all that are drawn behind it, also while its thread doesn't run; so who comes while
    // another has its turn draws none yet. Who finds no free moment for the time of several turns sleeps, so that no processor is held for nothing.
    fn await_free<R: Wait>(&self, rt: &R) {
        for look in 0..LOOKS {
            if self.is_free() {
                return;
            }
            if look < FIRST_LOOKS {
                pause();
            } else {
                self.sleep(rt);
            }
        }
    }

    // Waits a while for a ticket's turn without letting other threads run.
    fn linger(&self, ticket: u64) {
        for _ in 0..NEAR_LOOKS {
            if self.table.shared.peek(SERVING) == ticket {
                return;
            }
            spin_loop();
        }
    }

    // Waits until the ticket is served: for a while on the processor, and then other threads run between two looks.
    fn await_turn<R: Wait>(&self, rt: &R, seat: &mut Seat<T, View<T::Boot>>, ticket: u64)
        requires lock { seat.old.table_id ≡ self.now.id }
        requires drawn { (t : ℕ) × (t % 2 ^ 64 ≡ ticket) × (seat.old.me ≡ (queued t seat.old.me.0.seen seat.old.me.0.parts seat.old.me.0.boot, [])) }
        ensures lock { seat.new.table_id ≡ seat.old.table_id }
        ensures called { (t : ℕ) × (seat.new.me ≡ (called t seat.old.me.0.seen seat.old.me.0.parts seat.old.me.0.boot, [])) }
    {
        self.linger(ticket);
        for _ in rt.forever() {
            if self.table.shared.load::<Look>(seat, SERVING) == ticket {
                return;
            }
            yield_now();
        }
        unreachable!()
    }

    // Waits for a turn, and takes the value out.
    fn enter<R: Wait>(&self, rt: &R, seat: &mut Seat<T, View<T::Boot>>)
        requires lock { seat.old.table_id ≡ self.now.id }
        requires idle { (seat.old.me ≡ (idle seat.old.me.0.seen seat.old.me.0.parts seat.old.me.0.boot, [])) × (0 < seat.old.me.0.parts) }
        ensures lock { seat.new.table_id ≡ seat.old.table_id }
        ensures entered { Entered T.boot T.counted seat.old.me.0 seat.new.me }
    {
        self.await_free(rt);
        let ticket = self.draw(seat);
        self.await_turn(rt, seat, ticket);
        self.table.shared.load::<Learn>(seat, FRONT);
        self.table.shared.load::<Take>(seat, FRONT);
    }

    // Gives the value back under its new count, and lets the next one in.
    fn leave(&self, seat: &mut Seat<T, View<T::Boot>>, count: u64)
        requires lock { seat.old.table_id ≡ self.now.id }
        requires held { (t : ℕ) × (x : T) × (seat.old.me ≡ (holding t seat.old.me.0.seen seat.old.me.0.parts seat.old.me.0.boot, (0, x) ∷ [])) × (seat.old.me.0.boot ≡ Some (T.boot x)) × (T.counted x ≡ count) }
        requires up { seat.old.me.0.seen ≤ count }
        ensures lock { seat.new.table_id ≡ seat.old.table_id }
        ensures idle { seat.new.me ≡ (idle count seat.old.me.0.parts seat.old.me.0.boot, []) }
    {
        self.table.shared.store::<Raise>(seat, FRONT, count);
        self.table.shared.load::<Give>(seat, FRONT);
        self.table.shared.fetch_add::<PassOn>(seat, SERVING, 1);
    }

    /// Waits for its turn, calls `f` on the value, and answers what `f` answers. The value that `f` meets was
    /// begun from what the pass knows, and counts at least what the pass had seen. `f` has to leave a value that
    /// was begun from the same, with a count that isn't lower; the pass then has seen that count.
    pub fn turn<R: Wait, O, F: FnOnce(&mut T) -> O>(&self, rt: &R, pass: &mut Pass<T>, f: F) -> O
        requires lock { pass.old.lock ≡ self.now.id }
        requires may { (x : T) → T.boot x ≡ pass.old.boot → pass.old.seen ≤ T.counted x → FnOnceTakesAtMut F.FnOnce f x }
        requires keeps { (x y : T) (r : O) → T.boot x ≡ pass.old.boot → pass.old.seen ≤ T.counted x → FnOnceReturnsAtMut F.FnOnce f x r y → (T.boot y ≡ T.boot x) × (T.counted x ≤ T.counted y) }
        ensures lock { pass.new.lock ≡ pass.old.lock }
        ensures boot { pass.new.boot ≡ pass.old.boot }
        ensures parts { pass.new.parts ≡ pass.old.parts }
        ensures met { (x : T) × (y : T) × (T.boot x ≡ pass.old.boot) × (pass.old.seen ≤ T.counted x) × FnOnceReturnsAtMut F.FnOnce f x result y × (pass.new.seen ≡ T.counted y) }
    {
        let seat = &mut pass.seat;
        self.enter(rt, seat);
        let value = seat.slot_mut(&self.table.shared, 0);
        let answer = f(value);
        let count = value.count();
        self.leave(seat, count);
        answer
    }

    /// Waits for a moment, without a turn.
    pub fn rest<R: Wait>(&self, rt: &R) {
        self.sleep(rt);
    }

    /// A new pass with one of this pass's parts, of which it has at least two. It knows what this one knows.
    pub fn split(&self, pass: &mut Pass<T>) -> Pass<T>
        requires lock { pass.old.lock ≡ self.now.id }
        requires parts { 2 ≤ pass.old.parts }
        ensures new { (result.lock ≡ pass.old.lock) × (result.boot ≡ pass.old.boot) × (result.seen ≡ pass.old.seen) × (result.parts ≡ 1) }
        ensures left { (pass.new.lock ≡ pass.old.lock) × (pass.new.boot ≡ pass.old.boot) × (pass.new.seen ≡ pass.old.seen) × (pass.new.parts + 1 ≡ pass.old.parts) }
    {
        let seat = self.table.shared.split_seat::<Part>(&mut pass.seat);
        Pass { seat }
    }

    /// Takes in another pass of this lock, with its parts. The pass has then seen the greater of both counts.
    pub fn join(&self, pass: &mut Pass<T>, other: Pass<T>)
        requires lock { (pass.old.lock ≡ self.now.id) × (other.lock ≡ self.now.id) }
        ensures same { (pass.new.lock ≡ pass.old.lock) × (pass.new.boot ≡ pass.old.boot) }
        ensures joined { (pass.new.seen ≡ max pass.old.seen other.seen) × (pass.new.parts ≡ pass.old.parts + other.parts) }
    {
        let Pass { seat } = other;
        self.table.shared.join_seat::<Merge>(&mut pass.seat, seat);
    }

    /// The value, for a pass with all parts: it was begun from what the pass knows, and counts at least what
    /// the pass has seen.
    pub fn close(self, pass: Pass<T>) -> T
        requires lock { pass.lock ≡ self.id }
        requires all { pass.parts ≡ self.seats }
        ensures boot { T.boot result ≡ pass.boot }
        ensures count { pass.seen ≤ T.counted result }
    {
        let Ruled { table } = self;
        let Pass { seat } = pass;
        let mut closed = table.close_with(seat);
        let value = closed.take(0);
        closed.free();
        value
    }
}

impl<T: Counted + Drop> Ruled<T> {
    /// A lock round `first`, and the pass with all its 1 to 9 parts, which knows what `first` was begun from
    /// and has seen its count. `NoMemory` where there is no memory for the table.
    ///
    /// # Errors
    ///
    /// There is no memory for the table.
    pub fn new(alloc: Global, first: T, seats: u32) -> Result<(Ruled<T>, Pass<T>), NoMemory>
        requires seats { (0 < seats) × (seats ≤ 9) }
        ensures lock { IfOk result (λ r. (r.0.seats ≡ seats) × (r.1.lock ≡ r.0.id)) }
        ensures pass { IfOk result (λ r. (r.1.boot ≡ T.boot first) × (r.1.seen ≡ T.counted first) × (r.1.parts ≡ seats)) }
    {
        let about = About {
            first: Snapshot::of(&first),
            seats,
        };
        let count = first.count();
        let mut slots = Vec::with_capacity(alloc, 1)?;
        slots.push(first)?;
        let (table, seat) = match Table::new(alloc, &[0, 0, count], slots, &about) {
            Ok(made) => made,
            Err(Refused { slots: _ }) => return Err(NoMemory),
        };
        Ok((Ruled { table }, Pass { seat }))
    }
}
