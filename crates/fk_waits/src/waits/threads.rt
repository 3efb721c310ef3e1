//! Threads by their names.
ghost use Rattle.std.specs.Prelude.{◌≡◌, ◌+◌, ◌≤◌, ◌<◌, ◌^◌, [], ◌∷◌, ◌++◌, length, map, Option, None, true, false, IfOk, OnErr, OnOk};
ghost use Rattle.fk_waits.specs.Causes.Names.{key_at};
ghost use Rattle.fk_waits.specs.Waits.Threads.{all_ready, besides, first_for, front_for, is_there, is_waiting, with_cause, with_name, AreThere};
ghost use Rattle.fk_waits.specs.Waits.Threads.{Fits, IsNobody, IsUnused, Pairs, Stand};

use crate::causes::{Causes, Names};
use fk_model::{NoMemory, Who};
use std::alloc::Global;

/// Threads that stand in queues, and are found by their names.
#[derive(Drop)]
pub struct Threads {
    causes: Causes,
    names: Names,
}

impl Threads {
    /// Nobody stands, and there is no room yet.
    ///
    /// # Errors
    ///
    /// There is no memory for the heads of the lists.
    pub fn new(alloc: Global) -> Result<Threads, NoMemory>
        ensures there { IfOk result (λ t. AreThere t []) }
        ensures seats { IfOk result (λ t. t.causes.seats ≡ 0) }
    {
        let causes = Causes::new(alloc)?;
        let names = Names::new(alloc);
        Ok(Threads { causes, names })
    }

    /// How many stand.
    pub fn len(&self) -> usize
        ensures { result ≡ length self.now.names.0 }
    {
        self.names.len()
    }

    /// For how many there is room in all.
    pub fn seats(&self) -> usize
        ensures { result ≡ self.now.causes.seats }
    {
        self.causes.seats()
    }

    /// Makes room for so many in all, which are no fewer than before. For want of memory all stands as it did.
    ///
    /// # Errors
    ///
    /// There is no memory for so many; all stands as before then.
    pub fn reserve(&mut self, seats: usize) -> Result<(), NoMemory>
        requires more { self.old.causes.seats ≤ seats }
        requires few { seats < 2 ^ 62 }
        ensures kept { (l : Pairs) → AreThere self.old l → AreThere self.new l }
        ensures len { length self.new.names.0 ≡ length self.old.names.0 }
        ensures seats { OnOk result (self.new.causes.seats ≡ seats) }
        ensures same { OnErr result (self.new.causes.seats ≡ self.old.causes.seats) }
    {
        self.names.reserve(seats)?;
        self.causes.reserve(seats)
    }

    /// A thread goes last of all, and waits for something, or is ready. It stands already, or there is room for it. Tells whether it waited.
    pub fn settle(&mut self, thread: Who, cause: Option<Who>) -> bool
        requires { Fits self.old thread }
        ensures there { (l : Pairs) → AreThere self.old l → AreThere self.new (besides thread l ++ (thread, cause) ∷ []) }
        ensures waited { (l : Pairs) → AreThere self.old l → result ≡ is_waiting thread l }
        ensures seats { self.new.causes.seats ≡ self.old.causes.seats }
    {
        let key = self.names.find_near(thread);
        self.settle_found(thread, cause, key)
    }

    /// A thread with this node, or with none where it doesn't stand, goes last of all, and waits for something, or is ready.
    fn settle_found(&mut self, thread: Who, cause: Option<Who>, key: Option<usize>) -> bool
        requires fits { Fits self.old thread }
        requires key { key ≡ key_at self.old.names.0 thread }
        ensures there { (l : Pairs) → AreThere self.old l → AreThere self.new (besides thread l ++ (thread, cause) ∷ []) }
        ensures waited { (l : Pairs) → AreThere self.old l → result ≡ is_waiting thread l }
        ensures seats { self.new.causes.seats ≡ self.old.causes.seats }
    {
        match key {
            Some(key) => self.causes.turn(key, cause),
            None => {
                let key = self.causes.enter(thread, cause);
                self.names.put(thread, key);
                false
            }
        }
    }

    /// All are ready, in the order in which they stand.
    pub fn wake_all(&mut self)
        requires { Stand self.old }
        ensures there { (l : Pairs) → AreThere self.old l → AreThere self.new (all_ready l) }
        ensures seats { self.new.causes.seats ≡ self.old.causes.seats }
    {
        for _at in 0..self.names.len() {
            self.wake_front();
        }
    }

    /// Who stands first is ready, and goes last of all.
    fn wake_front(&mut self)
        requires { Stand self.old }
        ensures there { (x : Who × Option Who) (l : Pairs) → AreThere self.old (x ∷ l) → AreThere self.new (l ++ (x.0, None) ∷ []) }
        ensures seats { self.new.causes.seats ≡ self.old.causes.seats }
    {
        if let Some(who) = self.front() {
            self.settle(who, None);
        }
    }

    /// Who stands first of all.
    fn front(&self) -> Option<Who>
        ensures { (l : Pairs) → AreThere self.now l → result ≡ front_for l }
    {
        self.causes.front()
    }

    /// A thread goes, if it stands. Tells whether it waited.
    pub fn leave(&mut self, thread: Who) -> bool
        requires { Stand self.old }
        ensures there { (l : Pairs) → AreThere self.old l → AreThere self.new (besides thread l) }
        ensures waited { (l : Pairs) → AreThere self.old l → result ≡ is_waiting thread l }
        ensures seats { self.new.causes.seats ≡ self.old.causes.seats }
    {
        match self.names.take(thread) {
            Some(key) => self.causes.leave(key),
            None => false,
        }
    }

    /// A thread has another name, which is nobody's.
    pub fn rename_thread(&mut self, from: Who, to: Who)
        requires { IsNobody self.old to }
        ensures there { (l : Pairs) → AreThere self.old l → AreThere self.new (map (with_name from to) l) }
        ensures seats { self.new.causes.seats ≡ self.old.causes.seats }
    {
        let Some(key) = self.names.take(from) else {
            return;
        };
        self.causes.rename_thread(key, to);
        self.names.put(to, key);
    }

    /// A cause has another name, for which nobody waits.
    pub fn rename_cause(&mut self, from: Who, to: Who)
        requires { IsUnused self.old to }
        ensures there { (l : Pairs) → AreThere self.old l → AreThere self.new (map (with_cause from to) l) }
        ensures seats { self.new.causes.seats ≡ self.old.causes.seats }
    {
        self.causes.forget(to);
        self.causes.rename_cause(from, to);
    }

    /// Who waits for the same behind a thread, or is ready as it is. It is a hint: nothing is said of it.
    pub fn behind(&self, thread: Who) -> Option<Who> {
        let key = self.names.find(thread)?;
        self.causes.behind(key)
    }

    /// A thread stands.
    pub fn has(&self, thread: Who) -> bool
        ensures { (l : Pairs) → AreThere self.now l → result ≡ is_there thread l }
    {
        match self.names.find(thread) {
            Some(_) => true,
            None => false,
        }
    }

    /// The first that waits for something, or that is ready.
    pub fn first(&self, cause: Option<Who>) -> Option<Who>
        requires { Stand self.now }
        ensures { (l : Pairs) → AreThere self.now l → result ≡ first_for cause l }
    {
        self.causes.first(cause)
    }
}
