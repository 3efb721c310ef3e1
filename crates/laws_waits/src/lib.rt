//! What keeps a thread from moving, and which changes may end that: the laws on which wait queues rest, each the contract of a
//! function that does nothing.
//!
//! A thread that isn't ready has a reason, which is a value: it is stopped, the mutex is locked, nobody is at the other end of
//! its talk. A reason says what it reads of the world, and what a change has to leave of that; so a change that touches no
//! reason of a thread needn't wake it. The laws hold over all changes in any world, valid or not, and so between the changes of
//! one row. Beside them stand laws of lists of linked nodes, which is what queues are made of.
//!
//! It stands on `fk_model`, whose definitions the laws are about, and on `laws_moves::machine`. It names no store and no queue.
#![tactic(auto)]

ghost use Rattle.laws_waits.specs.Calm.{CalmTouchesNobody, MildChangesTouchNobody};
ghost use Rattle.laws_waits.specs.Chains.{JoinsLast, Leaves, OthersStay};
ghost use Rattle.laws_waits.specs.Complete.{UnheldThreadsHaveReasons};
ghost use Rattle.laws_waits.specs.Few.{ClientsAreFound, ThreadEditsTouchFew};
ghost use Rattle.laws_waits.specs.Found.{IdleWaitsAreStuck, UnheldWaitsAreStuck};
ghost use Rattle.laws_waits.specs.Laws.{MovesLeaveStuck, StuckIsUnready, StuckStays};
ghost use Rattle.laws_waits.specs.Rows.{FreeRunnersAreReady, InstructionsNeverWait, OtherStagesNeverWait};
ghost use Rattle.laws_waits.specs.Wakes.{ChangesTouchFew};

/// A change that leaves what keeps a thread from moving keeps it so, in any world.
#[tactic(auto, using(crate::proofs::Stays::stuck_stays_lem))]
pub fn stuck_stays()
    ensures { StuckStays }
{}

/// A move does, whoever makes it, that leaves it change by change.
#[tactic(auto, using(crate::proofs::Stays::moves_leave_stuck_lem))]
pub fn moves_leave_stuck()
    ensures { MovesLeaveStuck }
{}

/// No move of a thread that something keeps is ready, whomever it picks.
#[tactic(auto, using(crate::proofs::Unready::stuck_is_unready_lem))]
pub fn stuck_is_unready()
    ensures { StuckIsUnready }
{}

/// A thread's own instructions, a step of its call to its end or to a stage at which nobody reaches it, and words in a page that
/// is there touch nobody else's reason.
#[tactic(auto, using(crate::proofs::Calm::calm_touches_nobody_lem))]
pub fn calm_touches_nobody()
    ensures { CalmTouchesNobody }
{}

/// Changes by several threads, each such a change of its own thread, and mutexes that are set, touch nobody else's reason, but of those who lock
/// these.
#[tactic(auto, using(crate::proofs::Mild::mild_changes_touch_nobody_lem))]
pub fn mild_changes_touch_nobody()
    ensures { MildChangesTouchNobody }
{}

/// An edit of a thread touches the thread, its peer, its taker, its client, and the waits to which it
/// comes by it.
#[tactic(auto, using(crate::proofs::Few::thread_edits_touch_few_lem))]
pub fn thread_edits_touch_few()
    ensures { ThreadEditsTouchFew }
{}

/// Whose talk a thread serves is the one client that a look-up finds.
#[tactic(auto, using(crate::proofs::Few::clients_are_found_lem))]
pub fn clients_are_found()
    ensures { ClientsAreFound }
{}

/// A wait that isn't ready is stuck: nobody comes to it but some that are held.
pub fn idle_waits_are_stuck()
    ensures held { IdleWaitsAreStuck }
    ensures unheld { UnheldWaitsAreStuck }
{}

/// Whoever is found neither by name, nor through a thread that a change stirs, nor at an object, a
/// held space or memory that it changes isn't touched by it.
#[tactic(auto, using(crate::proofs::Wakes::changes_touch_few_lem))]
pub fn changes_touch_few()
    ensures { ChangesTouchFew }
{}

/// Only thirteen stages can wait; no other does, and no instruction.
pub fn few_rows_wait()
    ensures stages { OtherStagesNeverWait }
    ensures instructions { InstructionsNeverWait }
{}

/// While no space is held, a free thread that runs is ready.
pub fn free_runners_are_ready()
    ensures { FreeRunnersAreReady }
{}

/// While no space is held, every thread that isn't ready has a reason, and it isn't the last.
#[tactic(auto, using(crate::proofs::Complete::has_reason))]
pub fn unheld_threads_have_reasons()
    ensures { UnheldThreadsHaveReasons }
{}

/// A node that joins a list of linked nodes behind the last one stands last.
pub fn a_node_joins_last()
    ensures { JoinsLast }
{}

/// A node that leaves such a list leaves the others in their order.
pub fn a_node_leaves()
    ensures { Leaves }
{}

/// A list of other nodes stays.
#[tactic(auto, using(crate::proofs::Chains::others_stay_lem))]
pub fn other_lists_stay()
    ensures { OthersStay }
{}
