//! What a move does to the lists.
ghost use Rattle.std.specs.Prelude.{◌≡◌, ◌||◌, true, false, [], if◌then◌else◌};
ghost use Rattle.fk_model.specs.declared.names.Who as names_of;
ghost use Rattle.fk_store.specs.Store.Contents.{Contents};
ghost use Rattle.fk_waits.specs.Causes.Names.{is_same};
ghost use Rattle.fk_waits.specs.Waits.Lists.{is_queued, stands};
ghost use Rattle.fk_waits.specs.Turns.Turns.{all_marks, AreMet, IsLess, IsSound};
ghost use Rattle.fk_turns.specs.Moved.Kept.{is_user_at, AreKept};
ghost use Rattle.fk_turns.specs.Moved.Moved.{is_it, is_named, is_wide, AreFreed, AreRoused, HasPlace, HasRoom, HasRoomFor, IsMoved, IsTouched};

use crate::moved::users::is_user;
use fk_model::Who;
use fk_plans::wakes::Touched;
use fk_store::Store;
use fk_waits::turns::Turns;

/// The lists after a move, where they were kept before it: all whom any change may free are ready, and so are all where more than a few
/// objects are touched; then what the move touched, and last of all who moved, by the name before the move.
pub fn moved(turns: &mut Turns, store: &Store, mover: Who, touched: &Touched)
    requires sound { IsSound turns.old.waits turns.old.marks }
    requires room { HasRoom store.now mover touched.now turns.old.waits turns.old.marks }
    ensures sound { IsSound turns.new.waits turns.new.marks }
    ensures kept { (m : Contents) → AreKept m turns.old.waits turns.old.marks → IsMoved m store.now mover touched.now
        → AreKept store.now turns.new.waits turns.new.marks }
{
    rouse(turns, touched);
    touch_told(turns, store, touched);
    touch(turns, store, mover);
}

/// Whom any change may free is ready; all are, where more than a few objects are touched.
fn rouse(turns: &mut Turns, touched: &Touched)
    requires sound { IsSound turns.old.waits turns.old.marks }
    ensures sound { IsSound turns.new.waits turns.new.marks }
    ensures roused { AreRoused touched.now turns.old.waits turns.old.marks turns.new.waits turns.new.marks }
{
    if touches_more(touched) {
        turns.rouse_all();
    } else {
        turns.rouse_marked();
    }
}

/// A move may have touched others than are told.
fn touches_more(touched: &Touched) -> bool
    ensures { result ≡ is_wide touched.now }
{
    match touched {
        Touched::Few { .. } | Touched::Makes { .. } => false,
        Touched::Any | Touched::Dies { .. } | Touched::Moves { .. } => true,
    }
}

/// What a move touched besides who moved.
fn touch_told(turns: &mut Turns, store: &Store, touched: &Touched)
    requires sound { IsSound turns.old.waits turns.old.marks }
    requires room { HasRoomFor store.now touched.now turns.old.waits turns.old.marks }
    requires none { is_wide touched.now ≡ true → turns.old.waits.queued ≡ [] }
    ensures sound { IsSound turns.new.waits turns.new.marks }
    ensures touched { IsTouched store.now (is_named touched.now) turns.old.waits turns.new.waits }
    ensures freed { AreFreed (is_named touched.now)
        (all_marks turns.old.waits turns.old.marks) (all_marks turns.new.waits turns.new.marks) turns.new.waits }
{
    match *touched {
        Touched::Few {
            first,
            second,
            third,
        } => touch_few(turns, store, first, second, third),
        Touched::Makes { object } => touch(turns, store, object),
        Touched::Dies { object } => touch(turns, store, object),
        Touched::Any => {}
        Touched::Moves { object, slot } => shift(
            turns,
            store,
            object,
            Who {
                space: object.space,
                slot,
            },
        ),
    }
}

/// A few objects, one after another.
fn touch_few(
    turns: &mut Turns,
    store: &Store,
    first: Option<Who>,
    second: Option<Who>,
    third: Option<Who>,
)
    requires sound { IsSound turns.old.waits turns.old.marks }
    requires known { (who : names_of.Who) → (is_it first who || (is_it second who || is_it third who)) ≡ true → is_user_at store.now who ≡ true
        → stands who turns.old.waits ≡ true }
    ensures sound { IsSound turns.new.waits turns.new.marks }
    ensures touched { IsTouched store.now (λ who. is_it first who || (is_it second who || is_it third who)) turns.old.waits turns.new.waits }
    ensures freed { AreFreed (λ who. is_it first who || (is_it second who || is_it third who))
        (all_marks turns.old.waits turns.old.marks) (all_marks turns.new.waits turns.new.marks) turns.new.waits }
{
    touch_one(turns, store, first);
    touch_one(turns, store, second);
    touch_one(turns, store, third);
}

/// An object, if there is one.
fn touch_one(turns: &mut Turns, store: &Store, name: Option<Who>)
    requires sound { IsSound turns.old.waits turns.old.marks }
    requires known { (who : names_of.Who) → is_it name who ≡ true → is_user_at store.now who ≡ true → stands who turns.old.waits ≡ true }
    ensures sound { IsSound turns.new.waits turns.new.marks }
    ensures touched { IsTouched store.now (is_it name) turns.old.waits turns.new.waits }
    ensures freed { AreFreed (is_it name)
        (all_marks turns.old.waits turns.old.marks) (all_marks turns.new.waits turns.new.marks) turns.new.waits }
{
    match name {
        Some(who) => touch(turns, store, who),
        None => {}
    }
}

/// A user's thread is ready, last of all, and what is none stands no more. Whom it may free is ready.
fn touch(turns: &mut Turns, store: &Store, who: Who)
    requires sound { IsSound turns.old.waits turns.old.marks }
    requires room { HasPlace store.now turns.old.waits turns.old.marks who }
    ensures sound { IsSound turns.new.waits turns.new.marks }
    ensures touched { IsTouched store.now (is_same who) turns.old.waits turns.new.waits }
    ensures freed { AreFreed (is_same who)
        (all_marks turns.old.waits turns.old.marks) (all_marks turns.new.waits turns.new.marks) turns.new.waits }
{
    place(turns, store, who);
    turns.rouse_at(who);
}

/// A user's thread is ready, last of all, and what is none stands no more.
fn place(turns: &mut Turns, store: &Store, who: Who)
    requires sound { IsSound turns.old.waits turns.old.marks }
    requires room { HasPlace store.now turns.old.waits turns.old.marks who }
    ensures sound { IsSound turns.new.waits turns.new.marks }
    ensures placed { (other : names_of.Who) → stands other turns.new.waits
        ≡ (if is_same who other then is_user_at store.now who else stands other turns.old.waits) }
    ensures less { IsLess turns.old.waits turns.new.waits }
    ensures met { AreMet turns.old.marks turns.new.marks turns.new.waits }
    ensures away { is_queued who turns.new.waits.queued ≡ false }
{
    if is_user(store, who) {
        turns.wake(who);
    } else {
        turns.forget(who);
    }
}

/// What got another slot stands there, where it is a user's thread, and no more where it was.
fn shift(turns: &mut Turns, store: &Store, from: Who, to: Who)
    requires sound { IsSound turns.old.waits turns.old.marks }
    requires none { turns.old.waits.queued ≡ [] }
    requires stands { is_user_at store.now to ≡ true → stands from turns.old.waits ≡ true }
    requires left { is_user_at store.now from ≡ false }
    ensures sound { IsSound turns.new.waits turns.new.marks }
    ensures touched { IsTouched store.now (λ who. is_same from who || is_same to who) turns.old.waits turns.new.waits }
    ensures freed { AreFreed (λ who. is_same from who || is_same to who)
        (all_marks turns.old.waits turns.old.marks) (all_marks turns.new.waits turns.new.marks) turns.new.waits }
{
    if is_user(store, to) {
        turns.rename(from, to);
    } else {
        turns.forget(from);
        turns.forget(to);
    }
}
