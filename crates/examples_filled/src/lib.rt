//! Worked examples of a pager: a run with it beside the same run in which every page is home, what the filled world leaves out and what it doesn't, which calls
//! peek, and what a pager does by each answer.
//!
//! It stands on `laws_filled` for these definitions, on `examples_moves` for its worlds, and on `fk_model`; nothing stands on it. Each example is a function
//! that does nothing and ensures what is so.
#![tactic(auto, unfolding(crate::specs::Paged::paged_worlds))]

ghost use Rattle.std.specs.Prelude.{◌≡◌, [], ◌∷◌, Some, None, true, false, replicate, is_none};
ghost use Rattle.fk_model.specs.declared.moves.Ask.TheVariants as asks;
ghost use Rattle.fk_model.specs.declared.stage.Stage.TheVariants.{Create, Destroy, Rename, Search, Point, Locate, GetState, SetPtr, ThreadStop};
ghost use Rattle.fk_model.specs.declared.stage.Stage.TheVariants.{PageGive, PageNext, MutexLock, ClientSend, ClientOverRef, Wait, FaultDone};
ghost use Rattle.fk_model.specs.declared.statuses.status.TheConstants as status;
ghost use Rattle.fk_model.specs.Runs.{run};
ghost use Rattle.laws_filled.specs.Filled.{kept_fault, raises, peeks, is_peek};
ghost use Rattle.laws_filled.specs.Pager.{paging, first, next};
ghost use Rattle.laws_filled.specs.Pager as pagers;
ghost use Rattle.examples_moves.specs.Worked.{filled_to, goes, stores_at_r2};
ghost use Rattle.examples_filled.specs.Paged.{desk, space, thread, whole, opened, missed, heard, served, stored, filled_at, fault_at_port, in_phase, two_in};

/// The opening takes the page; the thread's fault for it is unseen; the pager gives it and ends the fault.
pub fn a_page_is_taken_missed_and_given()
    ensures taken { opened.0.page space 0 ≡ None }
    ensures listed { opened.1.backing 0 ≡ Some (filled_to 64 stores_at_r2) }
    ensures no_other { opened.1.backing 1 ≡ None }
    ensures waits { opened.1.phase ≡ pagers.Waiting }
    ensures raises { raises (paging desk opened.1) opened.0 thread None asks.Run ≡ true }
    ensures unseen { (filled_at missed).body thread ≡ whole.body thread }
    ensures filled { (filled_at missed).page space 0 ≡ whole.page space 0 }
    ensures gives { heard.1.phase ≡ pagers.Giving 0 }
    ensures home { served.0.page space 0 ≡ Some (filled_to 64 stores_at_r2) }
    ensures ended { served.0.body thread ≡ whole.body thread }
    ensures inside { served.1.inside ≡ 0 ∷ [] }
    ensures counted { served.1.faults ≡ 1 }
{}

/// The thread's one move, without the fault and the pager's calls, comes to the same in the world that has every page.
pub fn the_struck_run_comes_to_the_same()
    ensures raises_none { raises (paging desk served.1) served.0 thread None asks.Run ≡ false }
    ensures page { (run whole (goes thread ∷ [])).page space 0 ≡ (filled_at stored).page space 0 }
    ensures thread { (run whole (goes thread ∷ [])).body thread ≡ (filled_at stored).body thread }
    ensures moved { is_none (stored.0.page space 0) ≡ false }
{}

/// Faults at the pager's port on pages of its list are left out, and no others: not one at another port, nor one on a page that isn't listed.
pub fn other_faults_are_seen()
    ensures its { kept_fault (paging desk opened.1) (fault_at_port (10 ∷ []) 0) ≡ None }
    ensures of_another_port { kept_fault (paging desk opened.1) (fault_at_port (11 ∷ []) 0) ≡ Some (fault_at_port (11 ∷ []) 0) }
    ensures unlisted { kept_fault (paging desk opened.1) (fault_at_port (10 ∷ []) 1) ≡ Some (fault_at_port (10 ∷ []) 1) }
    ensures elsewhere { (filled_at opened).page (2 ∷ []) 0 ≡ None }
{}

/// Calls that make, destroy, rename, read or write objects and pages peek; calls that search, point, locate or stop don't, nor do talks, with a pointer or
/// without. A wait peeks beside the pager's port alone.
pub fn peeks_are_few()
    ensures create { is_peek (paging desk first) thread (Create 256 5 1) ≡ true }
    ensures destroy { is_peek (paging desk first) thread (Destroy 256 5) ≡ true }
    ensures rename { is_peek (paging desk first) thread (Rename 256 5 6) ≡ true }
    ensures state { is_peek (paging desk first) thread (GetState 256 5 0) ≡ true }
    ensures pointer { is_peek (paging desk first) thread (SetPtr 256 5 0 6) ≡ true }
    ensures gives { is_peek (paging desk first) thread (PageGive 256 5 0) ≡ true }
    ensures asks { is_peek (paging desk first) thread (PageNext 256 5) ≡ true }
    ensures search { is_peek (paging desk first) thread (Search 256 0) ≡ false }
    ensures point { is_peek (paging desk first) thread (Point 256 5 256 6) ≡ false }
    ensures locate { is_peek (paging desk first) thread (Locate 5 256) ≡ false }
    ensures stop { is_peek (paging desk first) thread (ThreadStop 5) ≡ false }
    ensures lock { is_peek (paging desk first) thread (MutexLock 5) ≡ false }
    ensures send { is_peek (paging desk first) thread (ClientSend 0 4) ≡ false }
    ensures over { is_peek (paging desk first) thread (ClientOverRef 5) ≡ false }
    ensures ends { is_peek (paging desk first) thread FaultDone ≡ false }
    ensures waits { is_peek (paging desk first) thread (Wait 8) ≡ false }
    ensures waits_beside { is_peek (paging desk first) (7 ∷ []) (Wait 8) ≡ true }
{}

/// A call that is refused HELD is made again. A page that came in by another's call counts as in, one that another took as out, with its old words.
pub fn a_pager_goes_by_its_answers()
    ensures seeks { (next desk (in_phase (pagers.Seeking 2)) (pagers.Seeking 2) status.OK (7 ∷ [])).phase ≡ pagers.Taking 7 }
    ensures is_done { (next desk (in_phase (pagers.Seeking 2)) (pagers.Seeking 2) status.NONE []).phase ≡ pagers.Waiting }
    ensures takes_again { next desk (in_phase (pagers.Taking 2)) (pagers.Taking 2) status.HELD [] ≡ in_phase (pagers.Taking 2) }
    ensures takes { (next desk (in_phase (pagers.Taking 2)) (pagers.Taking 2) status.OK (8 ∷ [])).backing 2 ≡ Some (8 ∷ []) }
    ensures passes { (next desk (in_phase (pagers.Taking 2)) (pagers.Taking 2) status.OK (8 ∷ [])).phase ≡ pagers.Seeking 3 }
    ensures is_home { (next desk (in_phase (pagers.Looking 4)) (pagers.Looking 4) status.OK (4 ∷ [])).phase ≡ pagers.Ending 4 }
    ensures is_full { (next desk (in_phase (pagers.Looking 4)) (pagers.Looking 4) status.OK (5 ∷ [])).phase ≡ pagers.Evicting 3 4 }
    ensures has_room { (next two_in (in_phase (pagers.Looking 4)) (pagers.Looking 4) status.NONE []).phase ≡ pagers.Giving 4 }
    ensures evicts_again { next desk (in_phase (pagers.Evicting 3 4)) (pagers.Evicting 3 4) status.HELD [] ≡ in_phase (pagers.Evicting 3 4) }
    ensures keeps { (next desk (in_phase (pagers.Evicting 3 4)) (pagers.Evicting 3 4) status.OK (1 ∷ [])).backing 3 ≡ Some (1 ∷ []) }
    ensures is_out { (next desk (in_phase (pagers.Evicting 3 4)) (pagers.Evicting 3 4) status.OK (1 ∷ [])).inside ≡ [] }
    ensures was_taken { (next desk (in_phase (pagers.Evicting 3 4)) (pagers.Evicting 3 4) status.NONE []).backing 3 ≡ Some (5 ∷ []) }
    ensures gives { (next two_in (in_phase (pagers.Giving 4)) (pagers.Giving 4) status.OK []).inside ≡ 3 ∷ 4 ∷ [] }
    ensures gives_again { next two_in (in_phase (pagers.Giving 4)) (pagers.Giving 4) status.HELD [] ≡ in_phase (pagers.Giving 4) }
    ensures was_given { (next two_in (in_phase (pagers.Giving 4)) (pagers.Giving 4) status.OCCUPIED []).phase ≡ pagers.Ending 4 }
    ensures ends { (next desk (in_phase (pagers.Ending 4)) (pagers.Ending 4) status.OK []).faults ≡ 10 }
    ensures ends_none { (next desk (in_phase (pagers.Ending 4)) (pagers.Ending 4) status.NOTLINKED []).faults ≡ 9 }
{}
