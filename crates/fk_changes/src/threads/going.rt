//! A thread goes on where it stands.
ghost use Rattle.std.specs.Prelude.{◌≡◌, Some};
ghost use Rattle.fk_model.specs.Objects.Body.{Thread_of};
ghost use Rattle.fk_model.specs.Searches.{thread_at};
ghost use Rattle.fk_model.specs.Valid.{kind_there};
ghost use Rattle.fk_model.specs.World.{Edit, apply, edited};
ghost use Rattle.fk_model.specs.World.Change.{Alter};
ghost use Rattle.fk_store.specs.Store.Bodies.{thread_by};
ghost use Rattle.fk_store.specs.Store.Paths.{path, place};
ghost use Rattle.fk_store.specs.Store.WellFormed.{HasCall};
ghost use Rattle.fk_store.specs.Store.World.{world};

use fk_model::{Thread, Who};
use fk_store::Store;

/// A thread becomes another, which differs from it in its registers, its counter and its mode alone,
/// and whose registers hold a call's code where it calls.
/// So what it leads to needn't be told of it again.
#[inline(always)]
pub fn go_on(store: &mut Store, who: Who, was: Thread, thread: Thread)
    requires there { Some (thread_by (path store.old) was) ≡ thread_at (world store.old) (place (path store.old) who) }
    requires talk { thread.talk ≡ was.talk }
    requires fault { thread.fault ≡ was.fault }
    requires stops { thread.stops ≡ was.stops }
    requires call { HasCall thread.mode thread.regs }
    ensures edits { (e : Edit)
        → edited e (Thread_of (thread_by (path store.old) was)) ≡ Thread_of (thread_by (path store.old) thread)
        → world store.new ≡ apply (Alter (place (path store.old) who) e) (world store.old) }
    ensures kinds { kind_there (world store.new) ≡ kind_there (world store.old) }
    ensures paths { path store.new ≡ path store.old }
{
    store.proceed(who, &thread.regs, thread.pc, thread.mode);
}
