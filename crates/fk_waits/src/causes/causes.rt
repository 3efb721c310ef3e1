//! Queues by what their threads wait for.
ghost use Rattle.std.specs.Prelude.{◌≡◌, ◌≢◌, ◌+◌, ◌≤◌, ◌<◌, ◌^◌, ◌==◌, List, [], ◌∷◌, ◌++◌, length, map, not, is_some, None, Some, IfOk, IfSome};
ghost use Rattle.std.specs.Prelude.{OnErr, OnOk, slice_index_or};
ghost use Rattle.fk_model.specs.declared.names.Who as names_of;
ghost use Rattle.fk_waits.specs.Causes.Names.{key_at};
ghost use Rattle.fk_waits.specs.declared.causes.names.Name as name_of;
ghost use Rattle.fk_waits.specs.Causes.Causes.{cause_of, first_of, front_of, recaused, AreStanding, AreTaken, HasSeat, HasStanding, IsEmpty};
ghost use Rattle.fk_waits.specs.Causes.Causes.{Stand, Standing};

use crate::causes::names::Names;
use crate::queues::Queues;
use fk_model::{NoMemory, Who};
use std::alloc::Global;

/// So many queues with a name may be kept beyond two for each thread.
const MORE: usize = 14;

/// The queues of causes, which are found by their names, and the queue of those that are ready; and for how many threads there
/// is room.
#[derive(Drop)]
pub struct Causes {
    queues: Queues,
    names: Names,
    ready: usize,
    seats: usize,
    /// How many queues with a name there may be. One in which nobody stands any more is kept, since its cause is likely to be waited for again. Where there
    /// are so many, one of those goes when another comes.
    most: usize,
    /// The place of the name of the queue that went last. From there on the next one is looked for.
    hand: usize,
}

/// A place that there is, or the end of so many.
fn at_most(place: usize, many: usize) -> usize
    ensures { result ≤ many }
{
    if place < many { place } else { many }
}

impl Causes {
    /// Nobody stands, and there is no room yet.
    ///
    /// # Errors
    ///
    /// There is no memory for the heads of the lists.
    pub fn new(alloc: Global) -> Result<Causes, NoMemory>
        ensures standing { IfOk result (λ c. AreStanding c c.ready []) }
        ensures seats { IfOk result (λ c. c.seats ≡ 0) }
    {
        let mut queues = Queues::new(alloc)?;
        queues.reserve(1, MORE + 1)?;
        let mut names = Names::new(alloc);
        names.reserve(MORE)?;
        let ready = queues.open(Who { space: 0, slot: 0 });
        Ok(Causes {
            queues,
            names,
            ready,
            seats: 0,
            most: MORE,
            hand: 0,
        })
    }

    /// For how many threads there is room in all.
    pub fn seats(&self) -> usize
        ensures { result ≡ self.now.seats }
    {
        self.seats
    }

    /// Makes room for so many threads in all, which are no fewer than before. For want of memory all stands as it did.
    ///
    /// # Errors
    ///
    /// There is no memory for so many; all stands as before then.
    pub fn reserve(&mut self, seats: usize) -> Result<(), NoMemory>
        requires more { self.old.seats ≤ seats }
        requires few { seats < 2 ^ 62 }
        ensures kept { (l : List Standing) → AreStanding self.old self.old.ready l → AreStanding self.new self.new.ready l }
        ensures seats { OnOk result (self.new.seats ≡ seats) }
        ensures same { OnErr result (self.new.seats ≡ self.old.seats) }
    {
        let most = 2 * seats + MORE;
        self.names.reserve(most)?;
        self.queues.reserve(seats + 1, seats + most + 1)?;
        self.seats = seats;
        self.most = most;
        Ok(())
    }

    /// A thread comes, last of all.
    pub fn enter(&mut self, who: Who, cause: Option<Who>) -> usize
        requires { HasSeat self.old self.old.ready }
        ensures standing { (l : List Standing) → AreStanding self.old self.old.ready l → length l + 1 ≤ self.old.seats
            → AreStanding self.new self.new.ready (l ++ record { key = result; who = who; cause = cause } ∷ []) }
        ensures seats { self.new.seats ≡ self.old.seats }
    {
        let head = self.queue_for(cause);
        self.enter_at(who, head)
    }

    /// The thread with a node in the order goes last of all, and waits for something else. Tells whether it waited.
    pub fn turn(&mut self, key: usize, cause: Option<Who>) -> bool
        requires { HasStanding self.old self.old.ready key }
        ensures waited { (a b : List Standing) (s : Standing) → AreStanding self.old self.old.ready (a ++ s ∷ b) → s.key ≡ key → result ≡ is_some s.cause }
        ensures standing { (a b : List Standing) (s : Standing) → AreStanding self.old self.old.ready (a ++ s ∷ b) → s.key ≡ key
            → AreStanding self.new self.new.ready ((a ++ b) ++ record s { cause = cause } ∷ []) }
        ensures seats { self.new.seats ≡ self.old.seats }
    {
        let head = self.queue_for(cause);
        let left = self.turn_to(key, head);
        left != self.ready
    }

    /// The thread with a node in the order goes. Tells whether it waited.
    pub fn leave(&mut self, key: usize) -> bool
        requires { HasStanding self.old self.old.ready key }
        ensures waited { (a b : List Standing) (s : Standing) → AreStanding self.old self.old.ready (a ++ s ∷ b) → s.key ≡ key → result ≡ is_some s.cause }
        ensures standing { (a b : List Standing) (s : Standing) → AreStanding self.old self.old.ready (a ++ s ∷ b) → s.key ≡ key
            → AreStanding self.new self.new.ready (a ++ b) }
        ensures seats { self.new.seats ≡ self.old.seats }
    {
        let left = self.take_out(key);
        left != self.ready
    }

    /// The thread with a node in the order has another name.
    pub fn rename_thread(&mut self, key: usize, who: Who)
        requires { HasStanding self.old self.old.ready key }
        ensures standing { (a b : List Standing) (s : Standing) → AreStanding self.old self.old.ready (a ++ s ∷ b) → s.key ≡ key
            → AreStanding self.new self.new.ready (a ++ record s { who = who } ∷ b) }
        ensures seats { self.new.seats ≡ self.old.seats }
    {
        self.queues.rename_thread(key, who);
    }

    /// A cause has another name, which is no cause's.
    pub fn rename_cause(&mut self, from: Who, to: Who)
        requires stand { Stand self.old self.old.ready }
        requires unused { key_at self.old.names.0 to ≡ None }
        ensures standing { (l : List Standing) → AreStanding self.old self.old.ready l → AreStanding self.new self.new.ready (map (recaused from to) l) }
        ensures seats { self.new.seats ≡ self.old.seats }
    {
        let Some(head) = self.names.take(from) else {
            return;
        };
        self.queues.rename_queue(head, to);
        self.names.put(to, head);
    }

    /// The first that waits for something, or that is ready.
    pub fn first(&self, cause: Option<Who>) -> Option<Who>
        requires { Stand self.now self.now.ready }
        ensures { (l : List Standing) → AreStanding self.now self.now.ready l → result ≡ first_of cause l }
    {
        match cause {
            None => self.queues.first(self.ready),
            Some(name) => self.first_named(name),
        }
    }

    /// Who waits for the same behind the thread with a node in the order, or is ready as it is. It is a hint: nothing is said of it.
    pub fn behind(&self, key: usize) -> Option<Who> {
        self.queues.behind(key)
    }

    /// Who stands first of all.
    pub fn front(&self) -> Option<Who>
        ensures { (l : List Standing) → AreStanding self.now self.now.ready l → result ≡ front_of l }
    {
        self.queues.front()
    }

    /// The first that waits for a cause.
    fn first_named(&self, name: Who) -> Option<Who>
        requires { Stand self.now self.now.ready }
        ensures { (l : List Standing) → AreStanding self.now self.now.ready l → result ≡ first_of (Some name) l }
    {
        match self.names.find(name) {
            Some(head) => self.queues.first(head),
            None => None,
        }
    }

    /// The queue of a cause, or of those that are ready. Where there was none, there is one now, in which nobody stands.
    fn queue_for(&mut self, cause: Option<Who>) -> usize
        requires { Stand self.old self.old.ready }
        ensures standing { (l : List Standing) → AreStanding self.old self.old.ready l → AreStanding self.new result l }
        ensures cause { cause_of self.new result ≡ cause }
        ensures ready { self.new.ready ≡ self.old.ready }
        ensures seats { self.new.seats ≡ self.old.seats }
    {
        match cause {
            None => self.ready,
            Some(name) => self.queue_named(name),
        }
    }

    /// The queue of a cause.
    fn queue_named(&mut self, name: Who) -> usize
        requires { Stand self.old self.old.ready }
        ensures standing { (l : List Standing) → AreStanding self.old self.old.ready l → AreStanding self.new result l }
        ensures cause { cause_of self.new result ≡ Some name }
        ensures ready { self.new.ready ≡ self.old.ready }
        ensures seats { self.new.seats ≡ self.old.seats }
    {
        match self.names.find_near(name) {
            Some(head) => head,
            None => self.queue_new(name),
        }
    }

    /// A queue of a cause that has none, in which nobody stands.
    #[inline(never)]
    fn queue_new(&mut self, name: Who) -> usize
        requires stand { Stand self.old self.old.ready }
        requires new { key_at self.old.names.0 name ≡ None }
        ensures standing { (l : List Standing) → AreStanding self.old self.old.ready l → AreStanding self.new result l }
        ensures cause { cause_of self.new result ≡ Some name }
        ensures ready { self.new.ready ≡ self.old.ready }
        ensures seats { self.new.seats ≡ self.old.seats }
    {
        self.make_place();
        self.open(name)
    }

    /// Opens a queue, in which nobody stands yet, for a cause that has none, where there is room for one queue more.
    fn open(&mut self, name: Who) -> usize
        requires stand { Stand self.old self.old.ready }
        requires new { key_at self.old.names.0 name ≡ None }
        requires place { length self.old.names.0 < self.old.most }
        ensures standing { (l : List Standing) → AreStanding self.old self.old.ready l → AreStanding self.new result l }
        ensures cause { cause_of self.new result ≡ Some name }
        ensures ready { self.new.ready ≡ self.old.ready }
        ensures seats { self.new.seats ≡ self.old.seats }
    {
        let head = self.queues.open(name);
        self.names.put(name, head);
        head
    }

    /// There may be one queue more. Where there are as many as may be, one goes in which nobody stands.
    fn make_place(&mut self)
        requires { Stand self.old self.old.ready }
        ensures standing { (l : List Standing) → AreStanding self.old self.old.ready l → AreStanding self.new self.new.ready l }
        ensures place { length self.new.names.0 < self.new.most }
        ensures new { (name : names_of.Who) → key_at self.old.names.0 name ≡ None → key_at self.new.names.0 name ≡ None }
        ensures ready { self.new.ready ≡ self.old.ready }
        ensures seats { self.new.seats ≡ self.old.seats }
    {
        if self.names.len() < self.most {
            return;
        }
        let at = self.find_empty();
        let name = self.names.entry(at);
        self.drop_queue(name.who, name.key);
        self.hand = at;
    }

    /// The place of the name of a queue in which nobody stands. There is one where there are more names than threads.
    fn find_empty(&self) -> usize
        requires stand { Stand self.now self.now.ready }
        requires many { self.now.seats < length self.now.names.0 }
        ensures within { result < length self.now.names.0 }
        ensures empty { (d : name_of.Name) → IsEmpty self.now (slice_index_or self.now.names.0 result d).key }
    {
        self.names.once();
        let many = self.names.len();
        let hand = at_most(self.hand, many);
        if let Some(at) = self.empty_within(hand, many) {
            return at;
        }
        match self.empty_within(0, hand) {
            Some(at) => at,
            None => unreachable!(),
        }
    }

    /// The place of the name of a queue in which nobody stands, of the names from one place to another; none where there is none.
    fn empty_within(&self, from: usize, to: usize) -> Option<usize>
        requires stand { Stand self.now self.now.ready }
        requires to { to ≤ length self.now.names.0 }
        ensures within { IfSome result (λ at. at < length self.now.names.0) }
        ensures empty { IfSome result (λ at. (d : name_of.Name) → IsEmpty self.now (slice_index_or self.now.names.0 at d).key) }
        ensures taken { result ≡ None → AreTaken self.now from to }
    {
        for at in from..to {
            if self.queues.is_empty(self.names.entry(at).key) {
                return Some(at);
            }
        }
        None
    }

    /// A thread comes to a queue.
    fn enter_at(&mut self, who: Who, head: usize) -> usize
        requires { HasSeat self.old head }
        ensures standing { (l : List Standing) → AreStanding self.old head l → length l + 1 ≤ self.old.seats
            → AreStanding self.new self.new.ready (l ++ record { key = result; who = who; cause = cause_of self.old head } ∷ []) }
        ensures seats { self.new.seats ≡ self.old.seats }
    {
        self.queues.enter(who, head)
    }

    /// A thread goes to a queue. Tells which one it leaves.
    fn turn_to(&mut self, key: usize, head: usize) -> usize
        requires { HasStanding self.old head key }
        ensures standing { (a b : List Standing) (s : Standing) → AreStanding self.old head (a ++ s ∷ b) → s.key ≡ key
            → AreStanding self.new self.new.ready ((a ++ b) ++ record s { cause = cause_of self.old head } ∷ []) }
        ensures waited { (a b : List Standing) (s : Standing) → AreStanding self.old head (a ++ s ∷ b) → s.key ≡ key
            → is_some s.cause ≡ not (result == self.old.ready) }
        ensures ready { self.new.ready ≡ self.old.ready }
        ensures seats { self.new.seats ≡ self.old.seats }
    {
        self.queues.turn(key, head)
    }

    /// A thread goes. Tells which queue it leaves.
    fn take_out(&mut self, key: usize) -> usize
        requires { HasStanding self.old self.old.ready key }
        ensures standing { (a b : List Standing) (s : Standing) → AreStanding self.old self.old.ready (a ++ s ∷ b) → s.key ≡ key
            → AreStanding self.new self.new.ready (a ++ b) }
        ensures waited { (a b : List Standing) (s : Standing) → AreStanding self.old self.old.ready (a ++ s ∷ b) → s.key ≡ key
            → is_some s.cause ≡ not (result == self.old.ready) }
        ensures ready { self.new.ready ≡ self.old.ready }
        ensures seats { self.new.seats ≡ self.old.seats }
    {
        self.queues.leave(key)
    }

    /// The queue of a cause goes where nobody waits for it.
    pub fn forget(&mut self, name: Who)
        requires { Stand self.old self.old.ready }
        ensures standing { (l : List Standing) → AreStanding self.old self.old.ready l → AreStanding self.new self.new.ready l }
        ensures gone { (l : List Standing) → AreStanding self.old self.old.ready l → first_of (Some name) l ≡ None → key_at self.new.names.0 name ≡ None }
        ensures seats { self.new.seats ≡ self.old.seats }
    {
        let Some(head) = self.names.find(name) else {
            return;
        };
        if self.queues.is_empty(head) {
            self.drop_queue(name, head);
        }
    }

    /// The queue of a cause goes, in which nobody stands.
    fn drop_queue(&mut self, name: Who, head: usize)
        requires stand { Stand self.old self.old.ready }
        requires named { key_at self.old.names.0 name ≡ Some head }
        requires empty { IsEmpty self.old head }
        ensures standing { (l : List Standing) → AreStanding self.old self.old.ready l → AreStanding self.new self.new.ready l }
        ensures gone { key_at self.new.names.0 name ≡ None }
        ensures new { (other : names_of.Who) → key_at self.old.names.0 other ≡ None → key_at self.new.names.0 other ≡ None }
        ensures fewer { length self.new.names.0 + 1 ≡ length self.old.names.0 }
        ensures most { self.new.most ≡ self.old.most }
        ensures ready { self.new.ready ≡ self.old.ready }
        ensures seats { self.new.seats ≡ self.old.seats }
    {
        self.names.take(name);
        self.queues.close(head);
    }
}
