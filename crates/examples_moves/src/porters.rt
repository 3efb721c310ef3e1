//! Porters and their calls.
#![tactic(auto, unfolding(crate::specs::Porters::porter_worlds))]

ghost use Rattle.std.specs.Prelude.{◌≡◌, [], ◌∷◌, Some, None, true, false, replicate};
ghost use Rattle.fk_model.specs.declared.stage.Stage.TheVariants.{Destroy, CountIn, GetPtr, GetState, SetState, PageGive, PageTake, PageRead, LinkSet};
ghost use Rattle.fk_model.specs.declared.stage.Stage.TheVariants.{LinkPark, FaultSet, FaultPark, HoldSet, SpaceMakeHeld, MutexLock};
ghost use Rattle.fk_model.specs.declared.thread.Turn.TheVariants as turns;
ghost use Rattle.fk_model.specs.Places.Ptr.{At, Null};
ghost use Rattle.fk_model.specs.Objects.Peer.{Server, Parked};
ghost use Rattle.fk_model.specs.Objects.Body.{Mutex, Reference, Space};
ghost use Rattle.fk_model.specs.Outcomes.Said.{Answered};
ghost use Rattle.fk_model.specs.Runs.{run, IsLegal};
ghost use Rattle.examples_moves.specs.Worked.{IsReadyTo, told_by_move, makes, running, numbers_from, root_port};
ghost use Rattle.examples_moves.specs.Porters.{porter, subject, restored_server, restoring, parked, talk_with, subject_with, subject_missing_5, runs_at_5};

/// A porter is answered directly: with the record of an object and the words of a page, or with a
/// refusal. It stays as it is. It gives records and pages themselves.
pub fn a_porter_gives_and_gets_words_directly()
    ensures ready { IsReadyTo restoring (makes porter (GetState 1 4 0) []) }
    ensures record { told_by_move restoring (makes porter (GetState 1 4 0) []) ≡ Answered 0 (1 ∷ 1 ∷ replicate 30 0) }
    ensures page { told_by_move restoring (makes porter (PageRead 1 4 0) []) ≡ Answered 0 (numbers_from 1256 64) }
    ensures taken { (run restoring (makes porter (PageTake 1 4 0) [] ∷ [])).page (1 ∷ []) 4 ≡ None }
    ensures denied { told_by_move restoring (makes porter (MutexLock 4) []) ≡ Answered 13 [] }
    ensures stays { (run restoring (makes porter (GetState 1 4 0) [] ∷ [])).body porter ≡ restoring.body porter }
    ensures set { (run restoring (makes porter (SetState 1 4 0) (1 ∷ 0 ∷ []) ∷ [])).body (4 ∷ 1 ∷ []) ≡
        Some (Mutex false) }
    ensures running { (run restoring (makes porter (SetState 1 0 0) runs_at_5 ∷ [])).body subject ≡
        Some (running 5 (7 ∷ 6 ∷ [])) }
    ensures given { (run restoring (makes porter (PageGive 1 6 0) (numbers_from 5 64) ∷ [])).page (1 ∷ []) 6 ≡
        Some (numbers_from 5 64) }
    ensures occupied { told_by_move restoring (makes porter (PageGive 1 4 0) (numbers_from 5 64)) ≡ Answered 4 [] }
{}

/// A porter makes a talk again, with a server thread or parked at a port of its own space, and a
/// fault, raised, taken by a thread, or parked; not at a port that another holds.
pub fn a_porter_restores_talks_and_faults()
    ensures ready { IsReadyTo restoring (makes porter (LinkSet 1 0 240 241) (1 ∷ 64 ∷ [])) }
    ensures served { (run restoring (makes porter (LinkSet 1 0 240 241) (1 ∷ 64 ∷ []) ∷ [])).body subject ≡
        Some (subject_with (talk_with (Server (At restored_server)) turns.Client 64)) }
    ensures parked { parked.body subject ≡ Some (subject_with (talk_with Parked turns.Server 5)) }
    ensures held_port { ¬ IsReadyTo restoring (makes porter (LinkSet 1 0 243 241) (1 ∷ 64 ∷ [])) }
    ensures no_port { told_by_move restoring (makes porter (LinkPark 1 0 5) (2 ∷ 5 ∷ [])) ≡ Answered 3 [] }
    ensures empty { told_by_move restoring (makes porter (LinkPark 1 0 10) (2 ∷ 5 ∷ [])) ≡ Answered 2 [] }
    ensures fault_raised { (run restoring (makes porter (FaultSet 1 0 240 256) (5 ∷ 1 ∷ []) ∷ [])).body subject ≡
        Some (subject_missing_5 true None) }
    ensures fault_held { ¬ IsReadyTo restoring (makes porter (FaultSet 1 0 243 256) (5 ∷ 1 ∷ [])) }
    ensures fault_taken { (run restoring (makes porter (FaultSet 1 0 240 241) (5 ∷ 0 ∷ []) ∷ [])).body subject ≡
        Some (subject_missing_5 false (Some (Server (At restored_server)))) }
    ensures fault_parked { (run restoring (makes porter (FaultPark 1 0 9 1) (5 ∷ 1 ∷ []) ∷ [])).body subject ≡
        Some (subject_missing_5 true (Some Parked)) }
    ensures fault_raised_there { (run restoring (makes porter (FaultPark 1 0 9 0) (5 ∷ 1 ∷ []) ∷ [])).body subject ≡
        Some (subject_missing_5 true None) }
{}

/// A porter makes a space that it holds, and gives a space a holder.
pub fn a_porter_makes_held_spaces()
    ensures ready { IsLegal restoring (
        makes porter (SpaceMakeHeld 7) [] ∷ makes porter (HoldSet 1 3 241) [] ∷ []) }
    ensures made { (run restoring (makes porter (SpaceMakeHeld 7) [] ∷ [])).body (7 ∷ []) ≡
        Some (Space 100 (Some (At porter))) }
    ensures taken { told_by_move restoring (makes porter (SpaceMakeHeld 9) []) ≡ Answered 4 [] }
    ensures held { (run restoring (makes porter (HoldSet 1 3 241) [] ∷ [])).body (3 ∷ 1 ∷ []) ≡
        Some (Space 2 (Some (At restored_server))) }
{}

/// Two pointers lead to the thread from outside its subtree: one in the root and one in /2. The one
/// beside it lies inside, and the porter's scratch doesn't count.
pub fn pointers_from_outside_are_counted()
    ensures ready { IsReadyTo restoring (makes porter (CountIn 1 1 0) []) }
    ensures counted { told_by_move restoring (makes porter (CountIn 1 1 0) []) ≡ Answered 0 (2 ∷ []) }
    ensures none { told_by_move restoring (makes porter (CountIn 1 1 256) []) ≡ Answered 0 (0 ∷ []) }
{}

/// A porter is answered after each stage of a destroy, and stays; it gets the fields of threads.
pub fn a_porter_destroys_and_gets_fields()
    ensures answer { told_by_move restoring (makes porter (Destroy 256 1) []) ≡ Answered 0 [] }
    ensures gone { (run restoring (makes porter (Destroy 256 1) [] ∷ [])).body subject ≡ None }
    ensures space { (run restoring (makes porter (Destroy 256 1) [] ∷ [])).body (1 ∷ []) ≡
        Some (Space 1 (Some (At porter))) }
    ensures stays { (run restoring (makes porter (Destroy 256 1) [] ∷ [])).body porter ≡ restoring.body porter }
    ensures peer { told_by_move parked (makes porter (GetPtr 1 0 1 241) []) ≡ Answered 0 (3 ∷ []) }
    ensures no_thread { (run parked (makes porter (GetPtr 1 0 1 241) [] ∷ [])).body (241 ∷ []) ≡
        Some (Reference Null) }
    ensures holder { told_by_move restoring (makes porter (GetPtr 256 1 0 241) []) ≡ Answered 0 (2 ∷ []) }
{}
