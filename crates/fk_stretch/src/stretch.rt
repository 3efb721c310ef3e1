//! Instructions over a store.
ghost use Rattle.std.specs.Prelude.{◌≡◌, ◌≤◌, ◌<◌, ◌/◌, Some, IfSome};
ghost use Rattle.std.specs.Bool.{OnTrue, OnFalse};
ghost use Rattle.fk_model.specs.Valid.{kind_there};
ghost use Rattle.fk_store.specs.Store.Paths.{path, place};
ghost use Rattle.fk_store.specs.Store.World.{world, IsSpace};
ghost use Rattle.laws_bursts.specs.Bursts as bursts;
ghost use Rattle.fk_stretch.specs.Stretches.{burst_in, HasWord, IsBegun, IsStretch, IsWritten, Rewrites, RunsSo, StoresNext};

use crate::running::{Rest, Running};
use fk_model::limits::{PAGE_WORDS, SPACE_WORDS};
use fk_model::{Mode, Thread, Who};
use fk_store::Store;

/// What an instruction stores.
#[derive(Clone, Copy)]
struct Storing {
    address: u64,
    value: u64,
}

/// So many instructions were made in a page, and what the next one stores, where it was come to and stores.
#[derive(Clone, Copy)]
struct Come {
    made: u64,
    stores: Option<Storing>,
}

/// The number of the page in which an address is, where a space has such a page.
#[inline(always)]
fn page_number(address: u64) -> Option<u8>
    ensures { IfSome result (λ page. page ≡ address / PAGE_WORDS) }
{
    if address < SPACE_WORDS {
        Some((address / PAGE_WORDS) as u8)
    } else {
        None
    }
}

/// The page of a space in which an address is, where it is there.
#[inline(always)]
fn page_of(store: &Store, space: u32, address: u64) -> Option<&[u64; 64]>
    ensures { IfSome result (λ words. Some words.now ≡ (world store.now).page (path store.now space) (address / PAGE_WORDS)) }
{
    match page_number(address) {
        Some(page) => store.page(space, page),
        None => None,
    }
}

/// The word at an address of a space, where its page is there.
#[inline(always)]
fn word_at(store: &Store, space: u32, address: u64) -> Option<u64>
    ensures { IfSome result (λ word. HasWord (world store.now) (path store.now space) address word) }
{
    match page_of(store, space, address) {
        Some(words) => Some(words[(address % PAGE_WORDS) as usize]),
        None => None,
    }
}

/// The word at an address of a space gets a value, where its page is there; and whether it is.
fn put_word(store: &mut Store, space: u32, storing: Storing) -> bool
    requires space { IsSpace store.old space }
    ensures written { OnTrue result (IsWritten (world store.old) (path store.old space) storing.address storing.value (world store.new)) }
    ensures same { OnFalse result (store.new ≡ store.old) }
    ensures kinds { kind_there (world store.new) ≡ kind_there (world store.old) }
    ensures paths { path store.new ≡ path store.old }
{
    let Some(page) = page_number(storing.address) else {
        return false;
    };
    if store.page(space, page).is_none() {
        return false;
    }
    store.put_word(
        space,
        page,
        (storing.address % PAGE_WORDS) as u8,
        storing.value,
    );
    true
}

/// Makes the instruction at the counter, whose page has these words, and answers what is left to be done: nothing where it was made. Else the
/// thread stays as it is.
#[inline(always)]
fn instruct(store: &Store, space: u32, words: &[u64; 64], running: &mut Running) -> Rest
    requires there { Some words.now ≡ (world store.now).page (path store.now space) (running.old.counter / PAGE_WORDS) }
    ensures { IsBegun (burst_in (world store.now) (path store.now space) running.old) (burst_in (world store.now) (path store.now space) running.new) result }
{
    let rest = running.begin(words[(running.counter % PAGE_WORDS) as usize]);
    let Rest::Loads { register, address } = rest else {
        return rest;
    };
    let Some(value) = word_at(store, space, address) else {
        return rest;
    };
    running.put(register, value);
    Rest::Nothing
}

/// Makes instructions whose words stand in the page of the counter, which has these words: at most so many, up to one that stores, halts,
/// is a call or needs a page that isn't there.
#[inline(always)]
fn run_in(store: &Store, space: u32, words: &[u64; 64], running: &mut Running, most: u64) -> Come
    requires there { Some words.now ≡ (world store.now).page (path store.now space) (running.old.counter / PAGE_WORDS) }
    ensures made { bursts.made result.made (burst_in (world store.now) (path store.now space) running.old)
        ≡ Some (burst_in (world store.now) (path store.now space) running.new) }
    ensures few { result.made ≤ most }
    ensures stores { IfSome result.stores (λ s. (result.made < most)
        × StoresNext (burst_in (world store.now) (path store.now space) running.new) s.address s.value) }
{
    let page = running.counter / PAGE_WORDS;
    for event in 0..most {
        if running.counter / PAGE_WORDS != page {
            return Come {
                made: event,
                stores: None,
            };
        }
        match instruct(store, space, words, running) {
            Rest::Nothing => {}
            Rest::Stores { address, value } => {
                return Come {
                    made: event,
                    stores: Some(Storing { address, value }),
                };
            }
            _ => {
                return Come {
                    made: event,
                    stores: None,
                };
            }
        }
    }
    Come {
        made: most,
        stores: None,
    }
}

/// Makes instructions whose words stand in the page of the counter, and then one that is in another page, or stores. That one is made too, where its
/// page is there.
#[inline(always)]
fn run_page(store: &mut Store, space: u32, running: &mut Running, most: u64) -> u64
    requires space { IsSpace store.old space }
    ensures made { bursts.made result (burst_in (world store.old) (path store.old space) running.old)
        ≡ Some (burst_in (world store.new) (path store.old space) running.new) }
    ensures few { result ≤ most }
    ensures none { result ≡ 0 → store.new ≡ store.old }
    ensures rewrites { Rewrites (path store.old space) (world store.old) (world store.new) }
    ensures kinds { kind_there (world store.new) ≡ kind_there (world store.old) }
    ensures paths { path store.new ≡ path store.old }
{
    let Some(words) = page_of(store, space, running.counter) else {
        return 0;
    };
    let come = run_in(store, space, words, running, most);
    let Some(storing) = come.stores else {
        return come.made;
    };
    if !put_word(store, space, storing) {
        return come.made;
    }
    running.pass();
    come.made + 1
}

/// Makes instructions over the pages of a space, at most so many, and says how many they were.
fn run_beside(store: &mut Store, space: u32, running: &mut Running, most: u64) -> u64
    requires space { IsSpace store.old space }
    ensures made { bursts.made result (burst_in (world store.old) (path store.old space) running.old)
        ≡ Some (burst_in (world store.new) (path store.old space) running.new) }
    ensures few { result ≤ most }
    ensures none { result ≡ 0 → store.new ≡ store.old }
    ensures rewrites { Rewrites (path store.old space) (world store.old) (world store.new) }
    ensures kinds { kind_there (world store.new) ≡ kind_there (world store.old) }
    ensures paths { path store.new ≡ path store.old }
{
    let mut made = 0;
    for _ in 0..most {
        let more = run_page(store, space, running, most - made);
        if more == 0 {
            return made;
        }
        made += more;
    }
    made
}

/// The words of a thread that runs; none where it doesn't.
fn running_of(thread: &Thread) -> Option<Running>
    ensures { IfSome result (λ r. RunsSo thread.now r) }
{
    match thread.mode {
        Mode::Running => Some(Running {
            registers: thread.regs,
            counter: thread.pc,
        }),
        Mode::Calling | Mode::Halted(_) | Mode::Native => None,
    }
}

/// Makes instructions of the thread in a slot on the pages of its space, at most so many, and says how many they were. It makes none where the
/// thread doesn't run or isn't free to; then, and where it makes none otherwise, all stays as it is.
pub fn run(store: &mut Store, who: Who, most: u64) -> u64
    ensures stretch { 0 < result → IsStretch (world store.old) (place (path store.old) who) result (world store.new) }
    ensures none { result ≡ 0 → store.new ≡ store.old }
    ensures few { result ≤ most }
    ensures kinds { kind_there (world store.new) ≡ kind_there (world store.old) }
    ensures paths { path store.new ≡ path store.old }
{
    let Some(thread) = store.thread(who) else {
        return 0;
    };
    let Some(mut running) = running_of(thread) else {
        return 0;
    };
    if !store.is_free(who) {
        return 0;
    }
    let made = run_beside(store, who.space, &mut running, most);
    if made == 0 {
        return 0;
    }
    store.proceed(who, &running.registers, running.counter, Mode::Running);
    made
}
