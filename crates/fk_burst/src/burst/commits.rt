//! A burst is committed: in one turn of the kernel, as so many moves of its thread.
ghost use Rattle.std.specs.Prelude.{◌≡◌, ◌+◌, ◌/◌, ◌<◌, ◌≤◌, ◌↔◌, ℕ, All, IsSome, IsTrue, Some, None, false, length, replicate, slice_index_or};
ghost use Rattle.std.specs.Prelude.{take, true};
ghost use Rattle.std.specs.Bool.{OnTrue, OnFalse};
ghost use Rattle.fk_kernel.specs.Kernels.{world_of};
ghost use Rattle.fk_kernel.specs.Replaced.{IsPageThere};
ghost use Rattle.fk_model.specs.declared.moves.Ask.TheVariants as asks;
ghost use Rattle.fk_model.specs.Moves.{IsReady};
ghost use Rattle.fk_model.specs.Searches.{thread_at};
ghost use Rattle.fk_model.specs.Valid.{birth_at, IsPaged};
ghost use Rattle.fk_plans.specs.Plans.Effects.{is_running};
ghost use Rattle.fk_model.specs.Who.{named, space_born};
ghost use Rattle.fk_store.specs.Store.Paths.{path};
ghost use Rattle.fk_store.specs.Store.World.{world};
ghost use Rattle.laws_bursts.specs.Laws.{move_of, committed, LeadQuietly};
ghost use Rattle.laws_turns.specs.Quiet.{LeadRunning};
ghost use Rattle.fk_burst.specs.Copies.Copies.{burst_of};
ghost use Rattle.fk_burst.specs.Burst.Commits.{used_pages, IsCurrent, MayCommit};
ghost use Rattle.fk_burst.specs.Burst.Leases.{IsReadyToRun};

use crate::burst::leases::{Leased, is_ready_to_run};
use crate::copies::Copied;
use fk_kernel::{BurstPage, Kernel};
use fk_model::Who;
use fk_store::Store;

/// A page of which nothing is said.
const NO_PAGE: BurstPage = BurstPage {
    space: 0,
    page: 0,
    words: [0; 64],
};

/// Lays the page at a place of a copy, if it has been used, behind those of the places before, and says how many they are then.
#[tactic(auto, using(crate::proofs::InBurst::Laying::laid_page, crate::proofs::InBurst::Laying::laid_same))]
#[inline(always)]
fn lay(copied: &Copied, space: u32, room: &mut [BurstPage], laid: usize, k: usize) -> usize
    requires place { k < 4 }
    requires long { k < length room.old }
    requires low { slice_index_or copied.now.used k false ≡ true → copied.now.first + k < 256 }
    requires few { laid ≤ k }
    requires pages { take laid room.old ≡ used_pages k copied.now space }
    ensures few { result ≤ k + 1 }
    ensures long { length room.new ≡ length room.old }
    ensures pages { take result room.new ≡ used_pages (k + 1) copied.now space }
{
    match copied.used_at(k) {
        Some((page, words)) => {
            room[laid] = BurstPage {
                space,
                page,
                words: *words,
            };
            laid + 1
        }
        None => laid,
    }
}

/// Lays the pages of the first two places that a copy has used into the room, and says how many they are.
#[tactic(auto, using(crate::proofs::InBurst::Laying::none_laid))]
#[inline(always)]
fn lay_two(copied: &Copied, space: u32, room: &mut [BurstPage]) -> usize
    requires long { 2 ≤ length room.old }
    requires low { (k : ℕ) → slice_index_or copied.now.used k false ≡ true → copied.now.first + k < 256 }
    ensures few { result ≤ 2 }
    ensures long { length room.new ≡ length room.old }
    ensures pages { take result room.new ≡ used_pages 2 copied.now space }
{
    let first = lay(copied, space, room, 0, 0);
    lay(copied, space, room, first, 1)
}

/// Lays all pages that a copy has used into the room, and says how many they are.
fn lay_all(copied: &Copied, space: u32, room: &mut [BurstPage]) -> usize
    requires long { 4 ≤ length room.old }
    requires low { (k : ℕ) → slice_index_or copied.now.used k false ≡ true → copied.now.first + k < 256 }
    ensures few { result ≤ 4 }
    ensures long { length room.new ≡ length room.old }
    ensures pages { take result room.new ≡ used_pages 4 copied.now space }
{
    let second = lay_two(copied, space, room);
    let third = lay(copied, space, room, second, 2);
    lay(copied, space, room, third, 3)
}

/// Whether the thread in a slot, which is ready in running mode, has the words of a copy as it was taken, and its space the pages that the
/// copy has used since.
fn is_as_taken(store: &Store, thread: Who, taken: &Copied, now: &Copied) -> bool
    requires paged { IsPaged (world store.now) }
    requires born { path store.now ≡ space_born (world store.now) }
    requires ready { IsReadyToRun (world store.now) thread }
    requires first { now.now.first ≡ taken.now.first }
    requires begins { taken.now.first ≡ taken.now.counter / 64 }
    ensures current { OnTrue result (IsCurrent (world store.now) thread taken.now now.now) }
    ensures space { OnTrue result (birth_at (world store.now) (space_born (world store.now) thread.space) ≡ Some thread.space) }
    ensures other { OnFalse result (IsCurrent (world store.now) thread taken.now now.now → ⊥) }
{
    match store.thread(thread) {
        Some(there) => {
            if taken.has_words(there) {
                now.has_pages(taken, store, thread)
            } else {
                false
            }
        }
        None => false,
    }
}

/// Whether the thread in a slot is ready in running mode where a copy was taken, and the pages that the copy has used since are as they
/// were.
fn is_current(k: &Kernel, thread: Who, taken: &Copied, now: &Copied) -> bool
    requires first { now.now.first ≡ taken.now.first }
    requires begins { taken.now.first ≡ taken.now.counter / 64 }
    ensures current { OnTrue result (IsCurrent (world_of k.now) thread taken.now now.now) }
    ensures space { OnTrue result (birth_at (world_of k.now) (space_born (world_of k.now) thread.space) ≡ Some thread.space) }
    ensures other { OnFalse result (IsCurrent (world_of k.now) thread taken.now now.now → ⊥) }
{
    k.names();
    if is_ready_to_run(k, thread) {
        is_as_taken(k.store(), thread, taken, now)
    } else {
        false
    }
}

/// So many pages of those in a room.
fn front(room: &[BurstPage], laid: usize) -> &[BurstPage]
    requires { laid ≤ length room.now }
    ensures { result.now ≡ take laid room.now }
{
    &room[..laid]
}

/// The thread in a slot becomes as a copy has it, and so do these pages, which are those that the copy has used.
fn hand_back(k: &mut Kernel, thread: Who, now: &Copied, pages: &[BurstPage])
    requires running { is_running (thread_at (world_of k.old) (named (world_of k.old) thread)) ≡ true }
    requires ready { IsReady (world_of k.old) (named (world_of k.old) thread) None asks.Run }
    requires pages { pages.now ≡ used_pages 4 now.now thread.space }
    requires there { All (IsPageThere (space_born (world_of k.old)) (world_of k.old)) (used_pages 4 now.now thread.space) }
    requires has { (page : ℕ) → (burst_of now.now).used page ≡ true → IsSome ((burst_of now.now).page page) }
    requires long { length now.now.used ≡ 4 }
    ensures { world_of k.new ≡ committed (world_of k.old) (named (world_of k.old) thread) (burst_of now.now) }
{
    k.replace(thread, &now.registers, now.counter, pages);
}

/// The thread in a slot becomes as a copy has it, and so do the pages that the copy has used, which are laid out. It stands apart, since four pages
/// are large and most copies use two at most.
#[inline(never)]
fn put_back_far(k: &mut Kernel, thread: Who, now: &Copied)
    requires running { is_running (thread_at (world_of k.old) (named (world_of k.old) thread)) ≡ true }
    requires ready { IsReady (world_of k.old) (named (world_of k.old) thread) None asks.Run }
    requires low { (place : ℕ) → slice_index_or now.now.used place false ≡ true → now.now.first + place < 256 }
    requires there { All (IsPageThere (space_born (world_of k.old)) (world_of k.old)) (used_pages 4 now.now thread.space) }
    requires has { (page : ℕ) → (burst_of now.now).used page ≡ true → IsSome ((burst_of now.now).page page) }
    requires long { length now.now.used ≡ 4 }
    ensures { world_of k.new ≡ committed (world_of k.old) (named (world_of k.old) thread) (burst_of now.now) }
{
    let mut pages = [NO_PAGE; 4];
    let used = lay_all(now, thread.space, &mut pages);
    hand_back(k, thread, now, front(&pages, used));
}

/// The thread in a slot becomes as a copy has it, and so do the pages that the copy has used, which are of the first two places.
fn put_back_near(k: &mut Kernel, thread: Who, now: &Copied)
    requires running { is_running (thread_at (world_of k.old) (named (world_of k.old) thread)) ≡ true }
    requires ready { IsReady (world_of k.old) (named (world_of k.old) thread) None asks.Run }
    requires near { (slice_index_or now.now.used 2 false ≡ false) × (slice_index_or now.now.used 3 false ≡ false) }
    requires low { (place : ℕ) → slice_index_or now.now.used place false ≡ true → now.now.first + place < 256 }
    requires there { All (IsPageThere (space_born (world_of k.old)) (world_of k.old)) (used_pages 4 now.now thread.space) }
    requires has { (page : ℕ) → (burst_of now.now).used page ≡ true → IsSome ((burst_of now.now).page page) }
    requires long { length now.now.used ≡ 4 }
    ensures { world_of k.new ≡ committed (world_of k.old) (named (world_of k.old) thread) (burst_of now.now) }
{
    let mut pages = [NO_PAGE; 2];
    let used = lay_two(now, thread.space, &mut pages);
    hand_back(k, thread, now, front(&pages, used));
}

/// The thread in a slot, and the pages of its space that a copy has used, become as the copy has them.
fn put_back(k: &mut Kernel, thread: Who, now: &Copied)
    requires running { is_running (thread_at (world_of k.old) (named (world_of k.old) thread)) ≡ true }
    requires ready { IsReady (world_of k.old) (named (world_of k.old) thread) None asks.Run }
    requires low { (place : ℕ) → slice_index_or now.now.used place false ≡ true → now.now.first + place < 256 }
    requires there { All (IsPageThere (space_born (world_of k.old)) (world_of k.old)) (used_pages 4 now.now thread.space) }
    requires has { (page : ℕ) → (burst_of now.now).used page ≡ true → IsSome ((burst_of now.now).page page) }
    requires long { length now.now.used ≡ 4 }
    ensures { world_of k.new ≡ committed (world_of k.old) (named (world_of k.old) thread) (burst_of now.now) }
{
    if now.goes_far() {
        put_back_far(k, thread, now);
    } else {
        put_back_near(k, thread, now);
    }
}

/// Whether so many moves are left.
fn is_within(count: u64, left: u64) -> bool
    ensures { IsTrue result ↔ (count ≤ left) }
{
    count <= left
}

/// Whether a burst may be committed.
fn may_commit(k: &Kernel, l: &Leased, left: u64) -> bool
    ensures may { OnTrue result (MayCommit (world_of k.now) l.now left) }
    ensures space { OnTrue result (birth_at (world_of k.now) (space_born (world_of k.now) l.now.thread.space) ≡ Some l.now.thread.space) }
    ensures may_not { OnFalse result (MayCommit (world_of k.now) l.now left → ⊥) }
{
    if is_within(l.count, left) {
        is_current(k, l.thread, &l.taken, &l.copy)
    } else {
        false
    }
}

/// Commits a burst, where so many moves are left: its thread and the pages that it has used become what its instructions have made of
/// them. That is what as many moves of the thread do, each ready at its place, whatever has become of the world since the lease.
/// It answers false, and leaves all as it is, exactly where the thread isn't ready in running mode, its registers, its counter or a page
/// that it has used differ from the copy, one that is gone too, or more instructions were made than are left.
pub fn commit(k: &mut Kernel, l: Leased, left: u64) -> bool
    ensures moves { OnTrue result (LeadQuietly (world_of k.old) (replicate l.count (move_of (named (world_of k.old) l.thread))) (world_of k.new)) }
    ensures running { OnTrue result (LeadRunning (record { who = l.thread; pick = None }) l.count (world_of k.old) (world_of k.new)) }
    ensures may { OnTrue result (MayCommit (world_of k.old) l left) }
    ensures may_not { OnFalse result (MayCommit (world_of k.old) l left → ⊥) }
    ensures same { OnFalse result (k.new ≡ k.old) }
{
    commit_held(k, &l, left)
}

/// Commits the burst of a lease that stays where it is, where so many moves are left.
pub fn commit_held(k: &mut Kernel, l: &Leased, left: u64) -> bool
    ensures moves { OnTrue result (LeadQuietly (world_of k.old) (replicate l.now.count (move_of (named (world_of k.old) l.now.thread))) (world_of k.new)) }
    ensures running { OnTrue result (LeadRunning (record { who = l.now.thread; pick = None }) l.now.count (world_of k.old) (world_of k.new)) }
    ensures may { OnTrue result (MayCommit (world_of k.old) l.now left) }
    ensures may_not { OnFalse result (MayCommit (world_of k.old) l.now left → ⊥) }
    ensures same { OnFalse result (k.new ≡ k.old) }
{
    k.names();
    l.keeps();
    if may_commit(k, l, left) {
        l.copy.places();
        put_back(k, l.thread, &l.copy);
        true
    } else {
        false
    }
}
