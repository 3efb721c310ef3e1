//! A thread and some pages get other words at once, as by several instructions.
ghost use Rattle.std.specs.Prelude.{◌≡◌, true, All, None};
ghost use Rattle.fk_model.specs.declared.moves.Ask.TheVariants as asks;
ghost use Rattle.fk_model.specs.Moves.{IsReady};
ghost use Rattle.fk_model.specs.Searches.{thread_at};
ghost use Rattle.fk_model.specs.Who.{named, space_born};
ghost use Rattle.fk_model.specs.World.{apply};
ghost use Rattle.fk_model.specs.World.Change.{PutPage};
ghost use Rattle.fk_store.specs.Store.Paths.{path};
ghost use Rattle.fk_store.specs.Store.World.{world};
ghost use Rattle.fk_plans.specs.Plans.Effects.{is_running};
ghost use Rattle.fk_kernel.specs.Kernels.{path_of, world_of};
ghost use Rattle.fk_kernel.specs.Replaced.{IsPageThere, replaced, rewritten};

use crate::Kernel;
use fk_model::{Mode, Who};
use fk_plans::wakes::Touched;
use fk_store::Store;
use fk_turns::steps::after_still;

/// A page of the space with this birth number, and words for it.
#[derive(Clone, Copy)]
pub struct BurstPage {
    pub space: u32,
    pub page: u8,
    pub words: [u64; 64],
}

/// A page that is there gets other words, which takes no memory.
fn rewrite_one(store: &mut Store, page: &BurstPage)
    requires { IsPageThere (path store.old) (world store.old) page.now }
    ensures world { world store.new ≡ apply (PutPage (path store.old page.now.space) page.now.page page.now.words) (world store.old) }
    ensures paths { path store.new ≡ path store.old }
{
    let done = store.put_page(page.space, page.page, &page.words);
}

/// Pages that are there get other words, one after the other.
fn rewrite(store: &mut Store, pages: &[BurstPage])
    requires { All (IsPageThere (path store.old) (world store.old)) pages.now }
    ensures world { world store.new ≡ rewritten (path store.old) pages.now (world store.old) }
    ensures paths { path store.new ≡ path store.old }
{
    for page in pages {
        rewrite_one(store, page);
    }
}

impl Kernel {
    /// A thread that is ready in running mode goes on with these registers at this counter, and pages that are there get these words. All else
    /// stays, and each user's thread still stands once, and none that is queued can move.
    pub fn replace(&mut self, thread: Who, regs: &[u64; 16], pc: u64, pages: &[BurstPage])
        requires running { is_running (thread_at (world_of self.old) (named (world_of self.old) thread)) ≡ true }
        requires ready { IsReady (world_of self.old) (named (world_of self.old) thread) None asks.Run }
        requires pages { All (IsPageThere (space_born (world_of self.old)) (world_of self.old)) pages.now }
        ensures world { world_of self.new ≡ replaced (world_of self.old) thread regs.now pc pages.now }
        ensures paths { path_of self.new ≡ path_of self.old }
    {
        self.names();
        rewrite(&mut self.store, pages);
        self.store.proceed(thread, regs, pc, Mode::Running);
        // And so they do in the world that is left.
        self.store.names();
        let alone = Touched::Few {
            first: None,
            second: None,
            third: None,
        };
        after_still(&mut self.turns, &self.store, thread, &alone, true);
    }
}
