//! Words that go from a page to a page: a block of them, or all.
ghost use Rattle.std.specs.Prelude.{◌≡◌, ◌+◌, ◌≤◌, IsSome};
ghost use Rattle.fk_model.specs.Reach.{words_at};
ghost use Rattle.fk_model.specs.World.{apply};
ghost use Rattle.fk_model.specs.World.Change.{PutPage};
ghost use Rattle.fk_model.specs.Valid.{kind_there};
ghost use Rattle.fk_store.specs.Store.Paths.{path};
ghost use Rattle.fk_store.specs.Store.World.{world, IsSpace};
ghost use Rattle.fk_plans.specs.Plans.Blocks.{block_page};

use fk_store::Store;

/// So many words of a page, from a place on, that go to a place of another page, or of the same.
#[derive(Clone, Copy)]
pub struct Block {
    pub from: (u32, u8),
    pub at: u8,
    pub to: (u32, u8),
    pub into: u8,
    pub count: u8,
}

/// Words of a page go to a page that is there, which may be the same one.
pub fn send_block(store: &mut Store, block: Block)
    requires at { block.at + block.count ≤ 64 }
    requires into { block.into + block.count ≤ 64 }
    requires from { IsSome ((world store.old).page (path store.old block.from.0) block.from.1) }
    requires space { IsSpace store.old block.to.0 }
    requires to { IsSome ((world store.old).page (path store.old block.to.0) block.to.1) }
    ensures world { let words = block_page (path store.old) (world store.old) block in
        world store.new ≡ apply (PutPage (path store.old block.to.0) block.to.1 words) (world store.old) }
    ensures kinds { kind_there (world store.new) ≡ kind_there (world store.old) }
    ensures paths { path store.new ≡ path store.old }
{
    store.copy_words(block.from, block.at, block.to, block.into, block.count);
}

/// The words of a page become those of another that is there.
pub fn copy_page(store: &mut Store, from: (u32, u8), to: (u32, u8))
    requires from { IsSome ((world store.old).page (path store.old from.0) from.1) }
    requires space { IsSpace store.old to.0 }
    requires to { IsSome ((world store.old).page (path store.old to.0) to.1) }
    ensures world { let words = words_at (world store.old) (path store.old from.0) from.1 in
        world store.new ≡ apply (PutPage (path store.old to.0) to.1 words) (world store.old) }
    ensures kinds { kind_there (world store.new) ≡ kind_there (world store.old) }
    ensures paths { path store.new ≡ path store.old }
{
    let Some(&words) = store.page(from.0, from.1) else {
        unreachable!()
    };
    match store.put_page(to.0, to.1, &words) {
        Ok(()) => {}
        Err(_) => unreachable!(),
    }
}
