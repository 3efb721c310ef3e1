//! What a verdict tells native servers, before it is carried out.
ghost use Rattle.std.specs.Prelude.{◌≡◌, ℕ, List, option_map};
ghost use Rattle.fk_model.specs.Moves.{closed, stepped};
ghost use Rattle.fk_store.specs.Store.Moves.{said_by};
ghost use Rattle.fk_store.specs.Store.Paths.{path};
ghost use Rattle.fk_store.specs.Store.World.{world};
ghost use Rattle.fk_plans.specs.Plans.Hearers.{to_servers, told_port};
ghost use Rattle.fk_plans.specs.Plans.Plans.{caller_by};
ghost use Rattle.fk_plans.specs.Plans.Verdicts.{hearer_of, news_in, outcome_by, IsVerdict};

use crate::plans::plan::{News, Verdict};
use crate::plans::telling::said_of;
use fk_changes::readers::Caller;
use fk_model::Said;
use fk_store::Store;

/// What a verdict tells a native server.
fn news_in(verdict: &Verdict) -> Option<&News>
    ensures { option_map (λ news. news.now) result ≡ news_in verdict.now }
{
    match verdict {
        Verdict::Tells { news, .. } => Some(news),
        _ => None,
    }
}

/// What it would tell native servers. Nothing is made, and what it would tell a porter isn't looked at.
pub fn foretell(store: &Store, caller: Caller, verdict: &Verdict) -> Said
    requires fits { IsVerdict store.now caller verdict.now }
    ensures said { (words : List ℕ) → let c = caller_by (path store.now) caller words in
        to_servers (stepped (world store.now) (closed c (outcome_by (world store.now) (path store.now) c verdict.now))).said
        ≡ to_servers (said_by (path store.now) result) }
    ensures port { told_port result ≡ hearer_of verdict.now }
{
    match news_in(verdict) {
        Some(news) => said_of(store, news),
        None => Said::Nothing,
    }
}
