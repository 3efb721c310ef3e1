//! The caller's own memory.
ghost use Rattle.std.specs.Prelude.{◌≡◌, ◌<◌, ℕ, List, false, IfErr, IfOk};
ghost use Rattle.fk_model.specs.Outcomes.{Outcome};
ghost use Rattle.fk_model.specs.Places.{Path};
ghost use Rattle.fk_model.specs.Reach.{reach_word};
ghost use Rattle.fk_model.specs.Reach.Reach.{Home};
ghost use Rattle.fk_model.specs.Readers as readers;
ghost use Rattle.fk_store.specs.Store.Paths.{path};
ghost use Rattle.fk_store.specs.Store.World.{world};
ghost use Rattle.fk_plans.specs.Plans.Own.{IsPage};
ghost use Rattle.fk_plans.specs.Plans.Plans.{caller_by};
ghost use Rattle.fk_plans.specs.Plans.Verdicts.{outcome_by, IsSureVerdict, IsVerdict};

use crate::plans::plan::Verdict;
use fk_changes::readers::Caller;
use fk_model::status::BADADDRESS;
use fk_store::{Reach, Store};

/// The page in which an address of a user's memory is read or written. Where none is there, what the
/// stage comes to in its place: a fault, of which the page's keeper is told, or the refusal BADADDRESS
/// where nobody keeps it and where the address leads to no page.
///
/// # Errors
///
/// The verdict in its place: the fault, or the refusal.
#[tactic(auto, using(crate::proofs::InPlans::Low::home_low))]
pub fn own_page(
    store: &Store,
    caller: Caller,
    address: u64,
    write: bool,
) -> Result<(u32, u8), Verdict>
    requires user { caller.is_porter ≡ false }
    ensures home { IfOk result (λ page.
        Home (path store.now page.0) page.1 ≡ reach_word (world store.now) (path store.now caller.who.space) address write) }
    ensures missed { IfErr result (λ verdict. (words : List ℕ) (go : Path → ℕ → Outcome) → let c = caller_by (path store.now) caller words in
        outcome_by (world store.now) (path store.now) c verdict ≡ readers.own_page (world store.now) c address write go) }
    ensures page { IfOk result (IsPage store.now) }
    ensures low { IfOk result (λ page. address < 16384) }
    ensures fits { IfErr result (IsVerdict store.now caller) }
    ensures sure { IfErr result IsSureVerdict }
{
    match store.reach_word(caller.who.space, address, write) {
        Reach::Home { space, page } => Ok((space, page)),
        Reach::Missing {
            page,
            keeper: Some(port),
            ..
        } => Err(Verdict::Faults { page, write, port }),
        Reach::Missing { keeper: None, .. } | Reach::Bad => Err(Verdict::Refused(BADADDRESS)),
    }
}
