//! The stages that read and set the records of objects.
ghost use Rattle.std.specs.Prelude.{◌≡◌, ◌==◌, ◌%◌, ◌≤◌, ℕ, List, true, false, Some, IsSome, IfOk, length};
ghost use Rattle.fk_model.specs.Holds.{is_decided_by, is_frozen_for};
ghost use Rattle.fk_model.specs.Objects as objects;
ghost use Rattle.fk_model.specs.Places.{Path};
ghost use Rattle.fk_model.specs.Reach.{words_at};
ghost use Rattle.fk_model.specs.StateRows as rows;
ghost use Rattle.fk_store.specs.Store.Bodies.{body_by};
ghost use Rattle.fk_store.specs.Store.Paths.{path, place};
ghost use Rattle.fk_store.specs.Store.World.{world, IsSpace};
ghost use Rattle.fk_plans.specs.Plans.Plans.{caller_by};
ghost use Rattle.fk_plans.specs.Plans.Recordings.{record_words, IsRecord};
ghost use Rattle.fk_plans.specs.Plans.Verdicts.{Judges, JudgesGiven, IsVerdict, IsSureVerdict, outcome_of};

use fk_changes::readers::{Caller, object_in, place};
use fk_changes::records::takes_state;
use fk_changes::threads::Answers;
use fk_model::limits::{PAGE_WORDS, RECORD_WORDS};
use fk_model::status::{BADADDRESS, BADSTATE, DENIED, NOTSTOPPED};
use fk_model::{Body, Mode, Who};
use fk_plans::{Deed, Plan, Record, Verdict, own_page, unfrozen};
use fk_store::Store;

/// A record of a user's can stand at an address.
fn is_record_address(address: u64) -> bool
    ensures exact { result ≡ (address % 32 == 0) }
    ensures multiple { result ≡ true → address % 32 ≡ 0 }
{
    address % RECORD_WORDS == 0
}

/// Where a word stands in its page.
fn word_of(address: u64) -> u8
    ensures { result ≡ address % 64 }
{
    (address % PAGE_WORDS) as u8
}

/// The record of an object goes to a page of the caller.
fn shows(caller: Caller, object: Who, space: u32, page: u8, at: u8) -> Verdict
    ensures { result ≡ Verdict.Done (Plan.One (Deed.Records object (space, page) at)) Answers.Nothing }
{
    let to = (space, page);
    Verdict::Done(
        Plan::One(Deed::Records { object, to, at }),
        Answers::Nothing,
    )
}

/// The record of an object goes to the caller: for a user to its memory, for a porter as its answer.
fn shows_to(store: &Store, caller: Caller, object: Who, address: u64) -> Result<Verdict, u8>
    requires address { caller.is_porter ≡ false → address % 32 ≡ 0 }
    ensures outcome { (words : List ℕ) (b : objects.Body) → (world store.now).body (place (path store.now) object) ≡ Some b →
        outcome_of (world store.now) (path store.now) (caller_by (path store.now) caller words) result
        ≡ rows.shows_to (world store.now) (caller_by (path store.now) caller words) b address }
    ensures fits { IfOk result (IsVerdict store.now caller) }
    ensures sure { IfOk result IsSureVerdict }
{
    if caller.is_porter {
        return Ok(Verdict::ShowsRecord { object });
    }
    let at = word_of(address);
    match own_page(store, caller, address, true) {
        Ok((space, page)) => Ok(shows(caller, object, space, page, at)),
        Err(verdict) => Ok(verdict),
    }
}

/// The record of an object, as it is before, goes to the caller: for a user to an address of its
/// memory that is a multiple of 32, for a porter as its answer. Anybody may read.
///
/// # Errors
///
/// The status of the first refusal: its place (BADHANDLE, WRONGKIND, NULLREF, DEAD); the slot (BADHANDLE); BADADDRESS, for a user's address that is no
/// multiple of 32, and where its page is missing and has no keeper.
#[tactic(auto, unfolding(fk_model::specs::StateRows::get_state))]
pub fn get_state(store: &Store, caller: Caller, s: u64, x: u64, address: u64) -> Result<Verdict, u8>
    requires space { IsSpace store.now caller.who.space }
    ensures row { Judges store.now caller result (λ w c. rows.get_state w c s x address) }
    ensures sure { IfOk result IsSureVerdict }
{
    let space = place(store, caller, s)?;
    object_in(store, caller, space, x)?;
    let is_bad_address = !caller.is_porter && !is_record_address(address);
    if is_bad_address {
        return Err(BADADDRESS);
    }
    let slot = x as u8;
    shows_to(store, caller, Who { space, slot }, address)
}

/// A porter's thread.
fn is_native(body: &Body) -> bool
    ensures { (p : ℕ → Path) → result ≡ rows.is_native (body_by p body.now) }
{
    match body {
        Body::Thread(thread) => matches!(thread.mode, Mode::Native),
        _ => false,
    }
}

/// The caller decides over an object that is frozen.
fn decides(store: &Store, caller: Caller, object: Who) -> bool
    ensures { result ≡ is_decided_by (world store.now) (place (path store.now) caller.who) (place (path store.now) object) }
{
    match store.decider(object) {
        None => false,
        Some(holder) => holder == caller.who,
    }
}

/// A thread is stopped, or frozen by the caller; any other object is still.
fn is_still(store: &Store, caller: Caller, object: Who, body: &Body) -> bool
    ensures { (words : List ℕ) → result ≡ rows.is_still (world store.now) (caller_by (path store.now) caller words)
        (place (path store.now) object) (body_by (path store.now) body.now) }
{
    match body {
        // A hold counts where the caller's is the outermost. To have halted is no stop.
        Body::Thread(thread) => thread.stops != 0 || decides(store, caller, object),
        _ => true,
    }
}

/// An object that isn't frozen for the caller becomes what a record says, whose words are these.
fn sets_record(
    store: &Store,
    caller: Caller,
    given: &[u64],
    object: Who,
    from: Record,
    words: &[u64],
) -> Result<Verdict, u8>
    requires long { 32 ≤ length words.now }
    requires unfrozen { is_frozen_for (world store.now) (place (path store.now) caller.who) (place (path store.now) object) ≡ false }
    requires fits { IsRecord (path store.now) (world store.now) from }
    requires giver { from ≡ Record.Given → caller.is_porter ≡ true }
    requires words { record_words (path store.now) given.now from (world store.now) ≡ words.now }
    ensures outcome { (b : objects.Body) → (world store.now).body (place (path store.now) object) ≡ Some b →
        let c = caller_by (path store.now) caller given.now in
        outcome_of (world store.now) (path store.now) c result
        ≡ rows.sets_record (world store.now) c (path store.now object.space) (place (path store.now) object) b
        (record_words (path store.now) given.now from (world store.now)) }
    ensures fits { IfOk result (IsVerdict store.now caller) }
    ensures sure { IfOk result IsSureVerdict }
{
    let body = match store.at(object) {
        Some(body) => body,
        None => return Err(BADSTATE),
    };
    if !is_still(store, caller, object, body) {
        return Err(NOTSTOPPED);
    }
    if !takes_state(store, object.space, body, words) {
        return Err(BADSTATE);
    }
    Ok(Verdict::Sets { object, from })
}

/// The record stands at an address of the caller's memory, in a page that is there.
fn sets_from_page(
    store: &Store,
    caller: Caller,
    given: &[u64],
    object: Who,
    home: (u32, u8),
    address: u64,
) -> Result<Verdict, u8>
    requires page { IsSome ((world store.now).page (path store.now home.0) home.1) }
    requires address { address % 32 ≡ 0 }
    requires unfrozen { is_frozen_for (world store.now) (place (path store.now) caller.who) (place (path store.now) object) ≡ false }
    ensures outcome { (b : objects.Body) → (world store.now).body (place (path store.now) object) ≡ Some b →
        let c = caller_by (path store.now) caller given.now in
        outcome_of (world store.now) (path store.now) c result
        ≡ rows.sets_record (world store.now) c (path store.now object.space) (place (path store.now) object) b
        (rows.record_at (words_at (world store.now) (path store.now home.0) home.1) address) }
    ensures fits { IfOk result (IsVerdict store.now caller) }
    ensures sure { IfOk result IsSureVerdict }
{
    let (space, page) = home;
    let at = word_of(address);
    let Some(words) = store.page(space, page) else {
        unreachable!()
    };
    let first = at as usize;
    let from = Record::Page { space, page, at };
    sets_record(
        store,
        caller,
        given,
        object,
        from,
        &words[first..first + 32],
    )
}

/// The record stands in the caller's memory, or is what a porter gives.
fn sets_from(
    store: &Store,
    caller: Caller,
    given: &[u64],
    object: Who,
    address: u64,
) -> Result<Verdict, u8>
    requires given { caller.is_porter ≡ true → length given.now ≡ 64 }
    requires address { caller.is_porter ≡ false → address % 32 ≡ 0 }
    requires unfrozen { is_frozen_for (world store.now) (place (path store.now) caller.who) (place (path store.now) object) ≡ false }
    ensures outcome { (b : objects.Body) → (world store.now).body (place (path store.now) object) ≡ Some b →
        let c = caller_by (path store.now) caller given.now in
        outcome_of (world store.now) (path store.now) c result
        ≡ rows.sets_from (world store.now) c (path store.now object.space) (place (path store.now) object) b address }
    ensures fits { IfOk result (IsVerdict store.now caller) }
    ensures sure { IfOk result IsSureVerdict }
{
    if caller.is_porter {
        return sets_record(store, caller, given, object, Record::Given, given);
    }
    match own_page(store, caller, address, false) {
        Ok(home) => sets_from_page(store, caller, given, object, home, address),
        Err(verdict) => Ok(verdict),
    }
}

/// An object becomes what a record says, but for its pointers: for a user the record at an address
/// of its memory that is a multiple of 32, for a porter the words that it gives. A thread has to be
/// stopped, or frozen by the caller.
///
/// # Errors
///
/// The status of the first refusal: its place (BADHANDLE, WRONGKIND, NULLREF, DEAD); the slot (BADHANDLE); HELD; DENIED, for a porter; BADADDRESS, for a
/// user's address that is no multiple of 32, and where its page is missing and has no keeper; NOTSTOPPED; BADSTATE.
#[tactic(auto, unfolding(fk_model::specs::StateRows::set_state))]
pub fn set_state(
    store: &Store,
    caller: Caller,
    given: &[u64],
    s: u64,
    x: u64,
    address: u64,
) -> Result<Verdict, u8>
    requires space { IsSpace store.now caller.who.space }
    requires given { caller.is_porter ≡ true → length given.now ≡ 64 }
    ensures row { JudgesGiven store.now caller given.now result (λ w c. rows.set_state w c s x address) }
    ensures sure { IfOk result IsSureVerdict }
{
    let space = place(store, caller, s)?;
    let body = object_in(store, caller, space, x)?;
    let object = unfrozen(store, caller, space, x)?;
    if is_native(body) {
        return Err(DENIED);
    }
    let is_bad_address = !caller.is_porter && !is_record_address(address);
    if is_bad_address {
        return Err(BADADDRESS);
    }
    sets_from(store, caller, given, object, address)
}
