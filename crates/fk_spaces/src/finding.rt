//! The stage that looks for a page.
ghost use Rattle.std.specs.Prelude.{◌≡◌, ◌≤◌, nat_le, None, IfOk, option_map, if◌then◌else◌};
ghost use Rattle.fk_model.specs.SpaceRows as rows;
ghost use Rattle.fk_store.specs.Store.Paths.{path};
ghost use Rattle.fk_store.specs.Store.World.{world, IsSpace};
ghost use Rattle.fk_plans.specs.Plans.Verdicts.{Judges, IsSureVerdict};

use fk_changes::readers::{Caller, place};
use fk_changes::threads::Answers;
use fk_model::status::NONE;
use fk_plans::{Plan, Verdict};
use fk_store::Store;

/// The number of a page, where it is there and not below another number.
fn page_from(store: &Store, space: u32, from: u64, page: u8) -> Option<u64>
    ensures { result ≡ if nat_le from page then option_map (λ words. page) ((world store.now).page (path store.now space) page) else None }
{
    if from <= u64::from(page) && store.page(space, page).is_some() {
        return Some(u64::from(page));
    }
    None
}

/// The page at which a search begins: no lower one is sought.
fn first_page(from: u64) -> u16
    ensures all { result ≤ 256 }
    ensures low { result ≤ from }
{
    from.min(256) as u16
}

/// The first page of a space at or above a number.
fn next_page(store: &Store, space: u32, from: u64) -> Option<u64>
    ensures { result ≡ rows.next_page (world store.now) (path store.now space) from }
{
    for page in first_page(from)..256u16 {
        let found = page_from(store, space, from, page as u8);
        if found.is_some() {
            return found;
        }
    }
    None
}

/// It answers the first page of a space at or above a number.
///
/// # Errors
///
/// The status of the first refusal: its place (BADHANDLE, WRONGKIND, NULLREF, DEAD); NONE.
#[tactic(auto, unfolding(fk_model::specs::SpaceRows::page_next))]
pub fn page_next(store: &Store, caller: Caller, s: u64, from: u64) -> Result<Verdict, u8>
    requires space { IsSpace store.now caller.who.space }
    ensures row { Judges store.now caller result (λ w c. rows.page_next w c s from) }
    ensures sure { IfOk result IsSureVerdict }
{
    let space = place(store, caller, s)?;
    match next_page(store, space, from) {
        None => Err(NONE),
        Some(page) => Ok(Verdict::Done(Plan::Nothing, Answers::One(page))),
    }
}
