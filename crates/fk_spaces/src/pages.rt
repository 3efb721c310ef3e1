//! Stages of pages.
ghost use Rattle.std.specs.Prelude.{◌≡◌, ◌%◌, ℕ, List, true, false, IsSome, IfOk};
ghost use Rattle.fk_model.specs.Reach.{words_at};
ghost use Rattle.fk_model.specs.SpaceRows as rows;
ghost use Rattle.fk_store.specs.Store.Paths.{path};
ghost use Rattle.fk_store.specs.Store.World.{world, IsSpace};
ghost use Rattle.fk_plans.specs.Plans.Plans.{caller_by};
ghost use Rattle.fk_plans.specs.Plans.Sources.{source_words, IsSource};
ghost use Rattle.fk_plans.specs.Plans.Verdicts.{Judges, IsVerdict, IsSureVerdict, outcome_of};
ghost use Rattle.fk_spaces.specs.Targets as targets;

use fk_changes::readers::{Caller, place};
use fk_changes::threads::Answers;
use fk_model::limits::{PAGE_WORDS, PAGES, ZEROS};
use fk_model::status::{BADADDRESS, HELD, NONE, OCCUPIED};
use fk_plans::{Deed, Plan, Source, Verdict, own_page};
use fk_store::Store;

/// An address is the first of a page.
fn is_page_address(address: u64) -> bool
    ensures { result ≡ rows.is_page_address address }
{
    address % PAGE_WORDS == 0
}

/// A space gets a page with these words where it has none.
fn gives_page(
    store: &Store,
    caller: Caller,
    space: u32,
    page: u8,
    source: Source,
) -> Result<Verdict, u8>
    requires space { IsSpace store.now space }
    requires source { IsSource (path store.now) (world store.now) source }
    requires giver { source ≡ Source.Given → caller.is_porter ≡ true }
    ensures outcome { (words : List ℕ) → let c = caller_by (path store.now) caller words in
        outcome_of (world store.now) (path store.now) c result
        ≡ rows.gives_page (world store.now) c (path store.now space) page (source_words (path store.now) words source (world store.now)) }
    ensures fits { IfOk result (IsVerdict store.now caller) }
{
    if store.page(space, page).is_some() {
        return Err(OCCUPIED);
    }
    let plan = Plan::Gives {
        space,
        page,
        source,
    };
    Ok(Verdict::Done(plan, Answers::Nothing))
}

/// A space gets the words that the porter gives, or zeros, or a copy of the caller's page.
fn gives_from(
    store: &Store,
    caller: Caller,
    space: u32,
    page: u8,
    address: u64,
) -> Result<Verdict, u8>
    requires space { IsSpace store.now space }
    ensures outcome { (words : List ℕ) → let c = caller_by (path store.now) caller words in
        outcome_of (world store.now) (path store.now) c result ≡ rows.gives_from (world store.now) c (path store.now space) page address }
    ensures fits { IfOk result (IsVerdict store.now caller) }
{
    if caller.is_porter {
        return gives_page(store, caller, space, page, Source::Given);
    }
    if address == ZEROS {
        return gives_page(store, caller, space, page, Source::Zeros);
    }
    match own_page(store, caller, address, false) {
        Ok((from, number)) => gives_page(store, caller, space, page, Source::Page(from, number)),
        Err(verdict) => Ok(verdict),
    }
}

/// A space gets a page where it has none: for a user zeros, where the address is 2^64 - 1, or a
/// copy of the page of its memory at the address; for a porter the words that it gives.
///
/// # Errors
///
/// The status of the first refusal: its place (BADHANDLE, WRONGKIND, NULLREF, DEAD); HELD; BADADDRESS, for a page above 255 and for a user's address that
/// begins no page; BADADDRESS, where the user's own page is missing and has no keeper; OCCUPIED.
#[tactic(auto, unfolding(fk_model::specs::SpaceRows::page_give))]
pub fn page_give(
    store: &Store,
    caller: Caller,
    s: u64,
    page: u64,
    address: u64,
) -> Result<Verdict, u8>
    requires space { IsSpace store.now caller.who.space }
    ensures { Judges store.now caller result (λ w c. rows.page_give w c s page address) }
{
    let space = place(store, caller, s)?;
    if store.space_frozen_for(caller.who, space) {
        return Err(HELD);
    }
    let is_bad_source = !caller.is_porter && address != ZEROS && !is_page_address(address);
    if page >= PAGES || is_bad_source {
        return Err(BADADDRESS);
    }
    gives_from(store, caller, space, page as u8, address)
}

/// The words of a page of a space go to a page of the caller, and then the page may go.
fn copies_home(
    store: &Store,
    caller: Caller,
    space: u32,
    page: u8,
    drops: bool,
    own: (u32, u8),
) -> Result<Verdict, u8>
    requires space { IsSpace store.now own.0 }
    requires own { IsSome ((world store.now).page (path store.now own.0) own.1) }
    ensures outcome { (words : List ℕ) → let c = caller_by (path store.now) caller words in
        outcome_of (world store.now) (path store.now) c result
        ≡ rows.copies_home (world store.now) c (path store.now space) page drops (path store.now own.0) own.1 }
    ensures fits { IfOk result (IsVerdict store.now caller) }
    ensures sure { IfOk result IsSureVerdict }
{
    if store.page(space, page).is_none() {
        return Err(NONE);
    }
    let copies = Deed::Copies {
        from: (space, page),
        to: own,
    };
    let plan = if drops {
        Plan::Two(copies, Deed::Drops { space, page })
    } else {
        Plan::One(copies)
    };
    Ok(Verdict::Done(plan, Answers::Nothing))
}

/// A porter gets the words of a page of a space, and then the page may go.
fn answers_home(
    store: &Store,
    caller: Caller,
    space: u32,
    page: u8,
    drops: bool,
) -> Result<Verdict, u8>
    requires porter { caller.is_porter ≡ true }
    ensures outcome { (words : List ℕ) → let c = caller_by (path store.now) caller words in
        outcome_of (world store.now) (path store.now) c result
        ≡ rows.answers_home (world store.now) c (path store.now space) page drops }
    ensures fits { IfOk result (IsVerdict store.now caller) }
    ensures sure { IfOk result IsSureVerdict }
{
    if store.page(space, page).is_none() {
        return Err(NONE);
    }
    let plan = if drops {
        Plan::One(Deed::Drops { space, page })
    } else {
        Plan::Nothing
    };
    Ok(Verdict::Shows { plan, space, page })
}

/// The words of a page of a space go to the caller, and then the page may go.
fn copies_to(
    store: &Store,
    caller: Caller,
    space: u32,
    page: u8,
    drops: bool,
    address: u64,
) -> Result<Verdict, u8>
    ensures outcome { (words : List ℕ) → let c = caller_by (path store.now) caller words in
        outcome_of (world store.now) (path store.now) c result
        ≡ rows.copies_to (world store.now) c (path store.now space) page drops address }
    ensures fits { IfOk result (IsVerdict store.now caller) }
    ensures sure { IfOk result IsSureVerdict }
{
    if caller.is_porter {
        return answers_home(store, caller, space, page, drops);
    }
    match own_page(store, caller, address, true) {
        Ok(own) => copies_home(store, caller, space, page, drops, own),
        Err(verdict) => Ok(verdict),
    }
}

/// The words of a page of a space go to the caller, and then the page may go: a page and an address as they were asked for. Out of range they are
/// refused.
fn copies_within(
    store: &Store,
    caller: Caller,
    space: u32,
    page: u64,
    drops: bool,
    address: u64,
) -> Result<Verdict, u8>
    ensures outcome { (words : List ℕ) → let c = caller_by (path store.now) caller words in
        outcome_of (world store.now) (path store.now) c result
        ≡ targets.copies_within (world store.now) c (path store.now space) page drops address }
    ensures fits { IfOk result (IsVerdict store.now caller) }
    ensures sure { IfOk result IsSureVerdict }
{
    let is_bad_target = !caller.is_porter && !is_page_address(address);
    if page >= PAGES || is_bad_target {
        return Err(BADADDRESS);
    }
    copies_to(store, caller, space, page as u8, drops, address)
}

/// A space loses a page. A user gets its words at an address of its memory that begins a page, a
/// porter as its answer. The caller's page may be the very one that goes.
///
/// # Errors
///
/// The status of the first refusal: its place (BADHANDLE, WRONGKIND, NULLREF, DEAD); HELD; BADADDRESS, for a page above 255 and for a user's address that
/// begins no page; BADADDRESS, where the user's own page is missing and has no keeper; NONE.
#[tactic(auto, unfolding(fk_model::specs::SpaceRows::page_take))]
pub fn page_take(
    store: &Store,
    caller: Caller,
    s: u64,
    page: u64,
    address: u64,
) -> Result<Verdict, u8>
    requires space { IsSpace store.now caller.who.space }
    ensures row { Judges store.now caller result (λ w c. rows.page_take w c s page address) }
    ensures sure { IfOk result IsSureVerdict }
{
    let space = place(store, caller, s)?;
    if store.space_frozen_for(caller.who, space) {
        return Err(HELD);
    }
    copies_within(store, caller, space, page, true, address)
}

/// A space shows the words of a page, which it keeps.
///
/// # Errors
///
/// The status of the first refusal: its place (BADHANDLE, WRONGKIND, NULLREF, DEAD); BADADDRESS, for a page above 255 and for a user's address that begins no
/// page; BADADDRESS, where the user's own page is missing and has no keeper; NONE.
#[tactic(auto, unfolding(fk_model::specs::SpaceRows::page_read))]
pub fn page_read(
    store: &Store,
    caller: Caller,
    s: u64,
    page: u64,
    address: u64,
) -> Result<Verdict, u8>
    requires space { IsSpace store.now caller.who.space }
    ensures row { Judges store.now caller result (λ w c. rows.page_read w c s page address) }
    ensures sure { IfOk result IsSureVerdict }
{
    let space = place(store, caller, s)?;
    copies_within(store, caller, space, page, false, address)
}
