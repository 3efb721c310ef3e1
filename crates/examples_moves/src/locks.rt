//! Programs, mutexes and conditions.
#![tactic(auto, unfolding(crate::specs::Locks::lock_worlds))]

ghost use Rattle.std.specs.Prelude.{◌≡◌, [], ◌∷◌, ◌++◌, Some, true, false, map};
ghost use Rattle.fk_model.specs.Objects.Body.{Mutex};
ghost use Rattle.fk_model.specs.Runs.{run, IsLegal};
ghost use Rattle.examples_moves.specs.Worked.{becomes, scene, after_each, IsReadyTo, goes, picks, times, running, calling, halted, stopped, registers_at};
ghost use Rattle.examples_moves.specs.Worked.{registers_from};
ghost use Rattle.examples_moves.specs.Locks.{alone_with, division, countdown, two_lock, lock_twice, one_sleeps, sleeps, reads, lets_go, signal_parts};
ghost use Rattle.examples_moves.specs.Locks.{until_stopped, until_signalling, until_signalled, page_with_record, sleeper, caller_and_sleepers};
ghost use Rattle.examples_moves.specs.Locks.{locks_and_sleepers, calls_of, sleeper_and_signaller, none_sleeps, thread_0, thread_1, mutex};

/// A program subtracts past zero, shifts all bits out, and divides by the zero that is left: it
/// halts with code 1. A loop counts a register down to zero, and then its program halts. The
/// instruction `call` answers BADCALL where the first register names no call.
pub fn programs_run_to_their_halt()
    ensures ready { IsLegal (alone_with division) (times 6 (goes thread_0)) }
    ensures halts { (run (alone_with division) (times 6 (goes thread_0))).body thread_0 ≡
        Some (halted 5 (0 ∷ 3 ∷ 5 ∷ 18446744073709551614 ∷ 64 ∷ []) 1) }
    ensures loops { IsLegal (alone_with countdown) (times 6 (goes thread_0)) }
    ensures jumps { (run (alone_with countdown) (times 3 (goes thread_0))).body thread_0 ≡
        Some (running 1 (0 ∷ 1 ∷ [])) }
    ensures ends { (run (alone_with countdown) (times 6 (goes thread_0))).body thread_0 ≡ Some (halted 3 [] 0) }
    ensures enters_none { IsReadyTo (alone_with (0x1400_0000_0000_0000 ∷ [])) (goes thread_0) }
    ensures no_call { becomes (alone_with (0x1400_0000_0000_0000 ∷ [])) thread_0 ≡ Some (running 1 (1 ∷ [])) }
{}

/// Two threads lock one mutex. The first has it and goes on; the second stays in its call and isn't
/// ready.
pub fn one_thread_has_the_mutex_and_the_other_waits()
    ensures ready { IsLegal two_lock lock_twice }
    ensures first { (run two_lock lock_twice).body thread_0 ≡ Some (running 3 (0 ∷ 5 ∷ [])) }
    ensures locked { (run two_lock lock_twice).body mutex ≡ Some (Mutex true) }
    ensures second { (run two_lock lock_twice).body thread_1 ≡ Some (calling 2 (21 ∷ 5 ∷ [])) }
    ensures shown { registers_at (run two_lock lock_twice) thread_1 ≡ registers_from (21 ∷ 5 ∷ []) }
    ensures waits { ¬ IsReadyTo (run two_lock lock_twice) (goes thread_1) }
    ensures goes_on { IsReadyTo (run two_lock lock_twice) (goes thread_0) }
    ensures halts { (run two_lock (lock_twice ++ goes thread_0 ∷ [])).body thread_0 ≡
        Some (halted 3 (0 ∷ 5 ∷ []) 0) }
{}

/// A thread that waits for a condition lets its mutex go and sleeps, also while it is stopped. A
/// signal turns its call into one that locks the mutex, and that is made once the thread may go on.
/// Its record shows that it is stopped.
pub fn a_signal_wakes_a_stopped_sleeper()
    ensures ready { IsLegal one_sleeps (until_signalled ++ (lets_go ++ goes thread_0 ∷ [])) }
    ensures seen { map (scene sleeper_and_signaller) (after_each one_sleeps signal_parts) ≡
        (Some (calling 40 (25 ∷ 6 ∷ 5 ∷ [])) ∷ Some (running 0 []) ∷ Some (Mutex false) ∷ [])
        ∷ (Some (stopped 1 (calling 40 (25 ∷ 6 ∷ 5 ∷ []))) ∷ Some (running 3 [])
        ∷ Some (Mutex false) ∷ [])
        ∷ (Some (stopped 1 (calling 40 (21 ∷ 5 ∷ 5 ∷ [])))
        ∷ Some (running 11 (0 ∷ 6 ∷ 0 ∷ 128 ∷ [])) ∷ Some (Mutex false) ∷ [])
        ∷ (Some (calling 40 (21 ∷ 5 ∷ 5 ∷ [])) ∷ Some (running 14 (0 ∷ 0 ∷ 0 ∷ 128 ∷ []))
        ∷ Some (Mutex false) ∷ [])
        ∷ (Some (running 41 (0 ∷ 5 ∷ 5 ∷ [])) ∷ Some (running 14 (0 ∷ 0 ∷ 0 ∷ 128 ∷ []))
        ∷ Some (Mutex true) ∷ []) ∷ [] }
    ensures shown { registers_at (run one_sleeps until_signalled) thread_0 ≡ registers_from (21 ∷ 5 ∷ 5 ∷ []) }
    ensures sleeps_on { ¬ IsReadyTo (run one_sleeps sleeps) (goes thread_0) }
    ensures no_pick { ¬ IsReadyTo (run one_sleeps until_signalling) (goes thread_1) }
    ensures waits { ¬ IsReadyTo (run one_sleeps until_signalled) (goes thread_0) }
    ensures record { (run one_sleeps (until_stopped ++ reads)).page (1 ∷ []) 2 ≡ Some page_with_record }
{}

/// A signal that nobody sleeps on is done at once. It has no thread to pick.
pub fn a_signal_without_a_sleeper_is_done_at_once()
    ensures ready { IsReadyTo none_sleeps (goes thread_1) }
    ensures done { becomes none_sleeps thread_1 ≡ Some (running 1 (0 ∷ 6 ∷ [])) }
    ensures no_pick { ¬ IsReadyTo none_sleeps (picks thread_1 thread_0) }
{}

/// A mutex is tried and unlocked; each is refused where the mutex isn't so. Waiting for a condition
/// asks for a locked one.
pub fn a_mutex_is_tried_and_unlocked()
    ensures tried { calls_of (22 ∷ 5 ∷ []) ≡ Some (running 1 (0 ∷ 5 ∷ [])) }
    ensures locks { (run (locks_and_sleepers (22 ∷ 5 ∷ [])) (goes thread_0 ∷ [])).body (5 ∷ 1 ∷ []) ≡
        Some (Mutex true) }
    ensures not_free { calls_of (22 ∷ 6 ∷ []) ≡ Some (running 1 (16 ∷ 6 ∷ [])) }
    ensures unlocked { calls_of (23 ∷ 6 ∷ []) ≡ Some (running 1 (0 ∷ 6 ∷ [])) }
    ensures unlocks { (run (locks_and_sleepers (23 ∷ 6 ∷ [])) (goes thread_0 ∷ [])).body (6 ∷ 1 ∷ []) ≡
        Some (Mutex false) }
    ensures not_locked { calls_of (23 ∷ 5 ∷ []) ≡ Some (running 1 (7 ∷ 5 ∷ [])) }
    ensures not_held { calls_of (24 ∷ 7 ∷ 5 ∷ []) ≡ Some (running 1 (7 ∷ 7 ∷ 5 ∷ [])) }
    ensures asleep { calls_of (25 ∷ 9 ∷ 5 ∷ []) ≡ Some (running 1 (2 ∷ 9 ∷ 5 ∷ [])) }
    ensures asleep_for { calls_of (25 ∷ 7 ∷ 9 ∷ []) ≡ Some (running 1 (2 ∷ 7 ∷ 9 ∷ [])) }
    ensures no_cond { calls_of (24 ∷ 5 ∷ 6 ∷ []) ≡ Some (running 1 (3 ∷ 5 ∷ 6 ∷ [])) }
{}

/// A signal picks a sleeper of its own condition in its own space.
pub fn a_signal_picks_a_sleeper_of_its_condition()
    ensures own { IsReadyTo (locks_and_sleepers (26 ∷ 7 ∷ [])) (picks thread_0 (sleeper 10)) }
    ensures other_cond { ¬ IsReadyTo (locks_and_sleepers (26 ∷ 7 ∷ [])) (picks thread_0 (sleeper 12)) }
    ensures other_space { ¬ IsReadyTo (locks_and_sleepers (26 ∷ 7 ∷ [])) (picks thread_0 (0 ∷ 2 ∷ [])) }
    ensures refused { ¬ IsReadyTo (locks_and_sleepers (26 ∷ 5 ∷ [])) (picks thread_0 (sleeper 10)) }
    ensures wrong_kind { calls_of (26 ∷ 5 ∷ []) ≡ Some (running 1 (3 ∷ 5 ∷ [])) }
{}

/// A broadcast wakes each sleeper of its condition, for the mutex that it will lock, and no other.
pub fn a_broadcast_wakes_every_sleeper()
    ensures ready { IsReadyTo (locks_and_sleepers (27 ∷ 7 ∷ [])) (goes thread_0) }
    ensures wakes { scene caller_and_sleepers (run (locks_and_sleepers (27 ∷ 7 ∷ [])) (goes thread_0 ∷ [])) ≡
        Some (running 1 (0 ∷ 7 ∷ [])) ∷ Some (calling 40 (21 ∷ 5 ∷ 5 ∷ []))
        ∷ Some (stopped 65535 (calling 40 (21 ∷ 6 ∷ 6 ∷ [])))
        ∷ Some (calling 40 (25 ∷ 8 ∷ 5 ∷ [])) ∷ [] }
{}

/// A thread is stopped at most 65535 times, and isn't let go more often than it was stopped.
pub fn stop_counts_have_two_ends()
    ensures full { calls_of (15 ∷ 11 ∷ []) ≡ Some (running 1 (15 ∷ 11 ∷ [])) }
    ensures once_more { (run (locks_and_sleepers (15 ∷ 13 ∷ [])) (goes thread_0 ∷ [])).body (sleeper 13) ≡
        Some (stopped 3 (running 3 [])) }
    ensures not_stopped { calls_of (16 ∷ 10 ∷ []) ≡ Some (running 1 (8 ∷ 10 ∷ [])) }
    ensures let_go { (run (locks_and_sleepers (16 ∷ 11 ∷ [])) (goes thread_0 ∷ [])).body (sleeper 11) ≡
        Some (stopped 65534 (calling 40 (25 ∷ 7 ∷ 6 ∷ []))) }
{}

/// Waiting for a condition looks at the condition first: a bad one is told whatever the mutex, and
/// then a bad mutex before one that isn't locked.
pub fn a_bad_condition_is_told_before_a_bad_mutex()
    ensures ready { IsReadyTo (locks_and_sleepers (24 ∷ 9 ∷ 7 ∷ [])) (goes thread_0) }
    ensures empty_cond { calls_of (24 ∷ 9 ∷ 7 ∷ []) ≡ Some (running 1 (2 ∷ 9 ∷ 7 ∷ [])) }
    ensures empty_cond_unlocked { calls_of (24 ∷ 9 ∷ 5 ∷ []) ≡ Some (running 1 (2 ∷ 9 ∷ 5 ∷ [])) }
    ensures other_cond { calls_of (24 ∷ 6 ∷ 9 ∷ []) ≡ Some (running 1 (3 ∷ 6 ∷ 9 ∷ [])) }
    ensures other_cond_unlocked { calls_of (24 ∷ 6 ∷ 5 ∷ []) ≡ Some (running 1 (3 ∷ 6 ∷ 5 ∷ [])) }
    ensures empty_mutex { calls_of (24 ∷ 7 ∷ 9 ∷ []) ≡ Some (running 1 (2 ∷ 7 ∷ 9 ∷ [])) }
    ensures other_mutex { calls_of (24 ∷ 7 ∷ 8 ∷ []) ≡ Some (running 1 (3 ∷ 7 ∷ 8 ∷ [])) }
    ensures unlocked { calls_of (24 ∷ 7 ∷ 5 ∷ []) ≡ Some (running 1 (7 ∷ 7 ∷ 5 ∷ [])) }
{}
