//! What moves do to threads.
ghost use Rattle.std.specs.Prelude.{◌≡◌, ◌≤◌, ℕ, List, [], length, option_map, true, IfSome, IsSome};
ghost use Rattle.std.specs.Option.{option_copied};
ghost use Rattle.fk_model.specs.Holds as holds;
ghost use Rattle.fk_model.specs.Objects.Body.{Thread_of};
ghost use Rattle.fk_model.specs.Places.{Path};
ghost use Rattle.fk_model.specs.World.{apply, edited};
ghost use Rattle.fk_model.specs.World.Change.{Alter};
ghost use Rattle.fk_model.specs.World.Edit.{End, SetStops};
ghost use Rattle.fk_model.specs.Valid.{kind_there};
ghost use Rattle.fk_store.specs.Store.Paths.{path, place};
ghost use Rattle.fk_store.specs.Store.Bodies.{mode_by, thread_by};
ghost use Rattle.fk_store.specs.Store.Named.{OnNamed};
ghost use Rattle.fk_store.specs.Store.Threads.{is_free_at};
ghost use Rattle.fk_store.specs.Store.WellFormed.{HasCall, IsSized};
ghost use Rattle.fk_store.specs.Store.World.{world, IsLive, IsSpace};
ghost use Rattle.fk_model.specs.Searches.{thread_at};

use crate::store::store::Store;
use fk_model::{Body, Mode, Thread, Who};
use fk_store_graph::leads::Nudge;

impl Store {
    /// The thread in a slot, if one is there.
    pub fn thread(&self, who: Who) -> Option<&Thread>
        ensures thread { option_map (thread_by (path self.now)) (option_copied result) ≡ thread_at (world self.now) (place (path self.now) who) }
        ensures named { IfSome result (λ thread. OnNamed (IsLive self.now) (Body.Thread thread.now)) }
        ensures sized { IfSome result (λ thread. IsSized (Body.Thread thread.now)) }
        ensures space { IsSome result → IsSpace self.now who.space }
    {
        match self.at(who) {
            Some(Body::Thread(thread)) => Some(thread),
            Some(
                Body::Mutex { .. }
                | Body::Cond
                | Body::Mapping { .. }
                | Body::Region { .. }
                | Body::Port { .. }
                | Body::Portset
                | Body::Space { .. }
                | Body::Reference { .. },
            )
            | None => None,
        }
    }

    /// A user thread is free: no space above it is held, it is not stopped, has no fault, and runs or
    /// calls. False where no thread is there.
    #[tactic(auto, unfolding(crate::specs::Store::Threads::is_free_at))]
    pub fn is_free(&self, who: Who) -> bool
        ensures free { result ≡ is_free_at (world self.now) (place (path self.now) who) }
        ensures space { result ≡ true → IsSpace self.now who.space }
    {
        match self.thread(who) {
            None => false,
            Some(thread) => {
                !self.is_frozen(who.space)
                    && thread.stops == 0
                    && thread.fault.is_none()
                    && is_user(thread.mode)
            }
        }
    }

    /// Ends the call of a thread with a status. What is in no call stays as it is.
    #[tactic(auto, using(crate::proofs::InStore::changing::ThreadLaws::kind_thread, crate::proofs::InStore::changing::ThreadLaws::end_nobody))]
    pub fn end_call(&mut self, me: Who, status: u8)
        ensures world { world self.new ≡ apply (Alter (place (path self.old) me) (End status [])) (world self.old) }
        ensures kinds { kind_there (world self.new) ≡ kind_there (world self.old) }
        ensures paths { path self.new ≡ path self.old }
    {
        if let Some(&thread) = self.thread(me) {
            let after = ended(thread, status);
            self.proceed(me, &after.regs, after.pc, after.mode);
        }
    }

    /// A thread is stopped so many times. What is no thread stays as it is.
    pub fn set_stops(&mut self, who: Who, stops: u16)
        ensures world { world self.new ≡ apply (Alter (place (path self.old) who) (SetStops stops)) (world self.old) }
        ensures kinds { kind_there (world self.new) ≡ kind_there (world self.old) }
        ensures paths { path self.new ≡ path self.old }
    {
        self.nudge(who, Nudge::Stops(stops));
    }
}

/// It runs or calls.
fn is_user(mode: Mode) -> bool
    ensures { (registers : List ℕ) → result ≡ holds.is_user (mode_by mode registers) }
{
    match mode {
        Mode::Running | Mode::Calling => true,
        Mode::Halted(_) | Mode::Native => false,
    }
}

/// A thread whose call has ended with a status.
fn ended(mut thread: Thread, status: u8) -> Thread
    ensures edit { (p : ℕ → Path) → edited (End status []) (Thread_of (thread_by p thread)) ≡ Thread_of (thread_by p result) }
    ensures talk { result.talk ≡ thread.talk }
    ensures fault { result.fault ≡ thread.fault }
    ensures stops { result.stops ≡ thread.stops }
    ensures call { HasCall thread.mode thread.regs → HasCall result.mode result.regs }
{
    if let Mode::Calling = thread.mode {
        thread.regs[0] = u64::from(status);
        thread.pc = thread.pc.wrapping_add(1);
        thread.mode = Mode::Running;
    }
    thread
}
