//! State records, and pointer fields.
#![tactic(auto, unfolding(crate::specs::States::state_worlds))]

ghost use Rattle.std.specs.Prelude.{◌≡◌, [], ◌∷◌, Some, None, true, false};
ghost use Rattle.fk_model.specs.declared.stage.Stage.TheVariants.{SetState};
ghost use Rattle.fk_model.specs.Places.Ptr.{At, Null, Dead};
ghost use Rattle.fk_model.specs.Objects.Peer.{Server, Parked};
ghost use Rattle.fk_model.specs.Objects.Body.{Mutex, Region, Port, Reference};
ghost use Rattle.fk_model.specs.Outcomes.Said.{Answered};
ghost use Rattle.fk_model.specs.Runs.{run};
ghost use Rattle.examples_moves.specs.Worked.{becomes, IsReadyTo, told_by_move, goes, makes, running, calling, halted, stopped, caller};
ghost use Rattle.examples_moves.specs.States.{setting, setting_by, setting_to, records, in_call_21, in_mode, set_mapping, inner_porter, with_porter, faulting};
ghost use Rattle.examples_moves.specs.States.{faulting_record, stopping, pointing};

/// The state of a running thread that isn't stopped isn't set.
pub fn a_running_thread_takes_no_state()
    ensures ready { IsReadyTo (setting 1 64) (goes caller) }
    ensures refused { becomes (setting 1 64) caller ≡ Some (running 1 (8 ∷ 256 ∷ 1 ∷ 64 ∷ [])) }
    ensures stays { (run (setting 1 64) (goes caller ∷ [])).body (1 ∷ 1 ∷ []) ≡ Some (running 3 (5 ∷ 6 ∷ [])) }
{}

/// A stopped thread becomes what a record says: in a call, or halted. A call that isn't there is
/// refused.
pub fn a_stopped_thread_takes_a_state()
    ensures ready { IsReadyTo (setting 2 64) (goes caller) }
    ensures done { becomes (setting 2 64) caller ≡ Some (running 1 (0 ∷ 256 ∷ 2 ∷ 64 ∷ [])) }
    ensures in_call { (run (setting 2 64) (goes caller ∷ [])).body (2 ∷ 1 ∷ []) ≡ Some (calling 9 (21 ∷ 3 ∷ [])) }
    ensures in_no_call { becomes (setting 2 96) caller ≡ Some (running 1 (19 ∷ 256 ∷ 2 ∷ 96 ∷ [])) }
    ensures halted { (run (setting 2 128) (goes caller ∷ [])).body (2 ∷ 1 ∷ []) ≡
        Some (stopped 2 (halted 9 (21 ∷ 3 ∷ []) 7)) }
    ensures other_kind { becomes (setting 2 192) caller ≡ Some (running 1 (19 ∷ 256 ∷ 2 ∷ 192 ∷ [])) }
    ensures bad_address { becomes (setting 2 80) caller ≡ Some (running 1 (12 ∷ 256 ∷ 2 ∷ 80 ∷ [])) }
{}

/// A mutex is locked or not, and nothing else.
pub fn a_mutex_takes_one_or_zero()
    ensures ready { IsReadyTo (setting 3 160) (goes caller) }
    ensures refused { becomes (setting 3 160) caller ≡ Some (running 1 (19 ∷ 256 ∷ 3 ∷ 160 ∷ [])) }
    ensures stays { (run (setting 3 160) (goes caller ∷ [])).body (3 ∷ 1 ∷ []) ≡ Some (Mutex false) }
    ensures locked { (run (setting 3 192) (goes caller ∷ [])).body (3 ∷ 1 ∷ []) ≡ Some (Mutex true) }
{}

/// The numbers of a mapping and of a region are set where they fit 256 pages, and their pointers
/// stay; the set of a port is set where there is such a port set.
pub fn numbers_are_set_where_they_fit()
    ensures mapping { (run (setting 4 224) (goes caller ∷ [])).body (4 ∷ 1 ∷ []) ≡ Some set_mapping }
    ensures past_256 { becomes (setting 4 256) caller ≡ Some (running 1 (19 ∷ 256 ∷ 4 ∷ 256 ∷ [])) }
    ensures region { (run (setting 7 352) (goes caller ∷ [])).body (7 ∷ 1 ∷ []) ≡
        Some (Region (record { first = 8; count = 9; write = true; keeper = Null })) }
    ensures in_set { (run (setting 5 288) (goes caller ∷ [])).body (5 ∷ 1 ∷ []) ≡ Some (Port (Some 6) false) }
    ensures no_set { becomes (setting 5 320) caller ≡ Some (running 1 (19 ∷ 256 ∷ 5 ∷ 320 ∷ [])) }
{}

/// A reference gets the pointer of a mapping; a region gets a keeper from a reference, where that
/// leads to a port. Fields of threads aren't for users.
pub fn pointer_fields_are_got_and_set()
    ensures ready { IsReadyTo (pointing (11 ∷ 256 ∷ 4 ∷ 0 ∷ 8 ∷ [])) (goes caller) }
    ensures got { (run (pointing (11 ∷ 256 ∷ 4 ∷ 0 ∷ 8 ∷ [])) (goes caller ∷ [])).body (8 ∷ 1 ∷ []) ≡
        Some (Reference (At (7 ∷ 1 ∷ []))) }
    ensures leads { becomes (pointing (11 ∷ 256 ∷ 4 ∷ 0 ∷ 8 ∷ [])) caller ≡
        Some (running 1 (0 ∷ 2 ∷ 4 ∷ 0 ∷ 8 ∷ [])) }
    ensures null { (run (pointing (11 ∷ 256 ∷ 7 ∷ 0 ∷ 9 ∷ [])) (goes caller ∷ [])).body (9 ∷ 1 ∷ []) ≡
        Some (Reference Null) }
    ensures no_field { becomes (pointing (11 ∷ 256 ∷ 4 ∷ 1 ∷ 8 ∷ [])) caller ≡
        Some (running 1 (19 ∷ 256 ∷ 4 ∷ 1 ∷ 8 ∷ [])) }
    ensures thread { becomes (pointing (11 ∷ 256 ∷ 1 ∷ 0 ∷ 8 ∷ [])) caller ≡
        Some (running 1 (13 ∷ 256 ∷ 1 ∷ 0 ∷ 8 ∷ [])) }
    ensures set { (run (pointing (12 ∷ 256 ∷ 7 ∷ 0 ∷ 10 ∷ [])) (goes caller ∷ [])).body (7 ∷ 1 ∷ []) ≡
        Some (Region (record { first = 0; count = 1; write = false; keeper = At (5 ∷ 1 ∷ []) })) }
    ensures wrong_kind { becomes (pointing (12 ∷ 256 ∷ 7 ∷ 0 ∷ 9 ∷ [])) caller ≡
        Some (running 1 (3 ∷ 256 ∷ 7 ∷ 0 ∷ 9 ∷ [])) }
{}

/// A record goes to a multiple of 32, in a page that is there.
pub fn a_record_goes_to_a_page()
    ensures ready { IsReadyTo (setting_by (9 ∷ 256 ∷ 3 ∷ 96 ∷ [])) (goes caller) }
    ensures shown { (run (setting_by (9 ∷ 256 ∷ 4 ∷ 96 ∷ [])) (goes caller ∷ [])).page (1 ∷ []) 1 ≡
        Some (records in_call_21 (3 ∷ 0 ∷ 1 ∷ [])) }
    ensures between { becomes (setting_by (9 ∷ 256 ∷ 3 ∷ 80 ∷ [])) caller ≡
        Some (running 1 (12 ∷ 256 ∷ 3 ∷ 80 ∷ [])) }
    ensures missing { becomes (setting_by (9 ∷ 256 ∷ 3 ∷ 640 ∷ [])) caller ≡
        Some (running 1 (12 ∷ 256 ∷ 3 ∷ 640 ∷ [])) }
    ensures past_the_end { becomes (setting_by (9 ∷ 256 ∷ 3 ∷ 16384 ∷ [])) caller ≡
        Some (running 1 (12 ∷ 256 ∷ 3 ∷ 16384 ∷ [])) }
{}

/// The record of a thread shows its fault: whether it is raised or taken, the page, and whether a
/// write missed it.
pub fn a_record_shows_a_fault()
    ensures ready { IsReadyTo (faulting true None) (goes caller) }
    ensures raised { (run (faulting true None) (goes caller ∷ [])).page (1 ∷ []) 1 ≡
        Some (records (faulting_record 1 12 1) []) }
    ensures taken { (run (faulting false (Some (Server (At (2 ∷ 1 ∷ []))))) (goes caller ∷ [])).page (1 ∷ []) 1 ≡
        Some (records (faulting_record 2 12 0) []) }
    ensures parked { (run (faulting true (Some Parked)) (goes caller ∷ [])).page (1 ∷ []) 1 ≡
        Some (records (faulting_record 2 12 1) []) }
{}

/// A reference to what was destroyed gives its pointer too, and the answer tells it from null.
pub fn a_dead_pointer_is_got()
    ensures ready { IsReadyTo (pointing (11 ∷ 256 ∷ 11 ∷ 0 ∷ 9 ∷ [])) (goes caller) }
    ensures answer { becomes (pointing (11 ∷ 256 ∷ 11 ∷ 0 ∷ 9 ∷ [])) caller ≡
        Some (running 1 (0 ∷ 1 ∷ 11 ∷ 0 ∷ 9 ∷ [])) }
    ensures got { (run (pointing (11 ∷ 256 ∷ 11 ∷ 0 ∷ 9 ∷ [])) (goes caller ∷ [])).body (9 ∷ 1 ∷ []) ≡
        Some (Reference Dead) }
    ensures null { becomes (pointing (11 ∷ 256 ∷ 8 ∷ 0 ∷ 9 ∷ [])) caller ≡
        Some (running 1 (0 ∷ 0 ∷ 8 ∷ 0 ∷ 9 ∷ [])) }
{}

/// A user is told that a thread or a space lacks a field, and denied the fields that they have.
pub fn a_missing_field_is_told_before_a_denial()
    ensures ready { IsReadyTo (pointing (11 ∷ 256 ∷ 1 ∷ 4 ∷ 8 ∷ [])) (goes caller) }
    ensures get_thread { becomes (pointing (11 ∷ 256 ∷ 1 ∷ 4 ∷ 8 ∷ [])) caller ≡
        Some (running 1 (19 ∷ 256 ∷ 1 ∷ 4 ∷ 8 ∷ [])) }
    ensures get_taker { becomes (pointing (11 ∷ 256 ∷ 1 ∷ 3 ∷ 8 ∷ [])) caller ≡
        Some (running 1 (13 ∷ 256 ∷ 1 ∷ 3 ∷ 8 ∷ [])) }
    ensures get_space { becomes (pointing (11 ∷ 256 ∷ 12 ∷ 1 ∷ 8 ∷ [])) caller ≡
        Some (running 1 (19 ∷ 256 ∷ 12 ∷ 1 ∷ 8 ∷ [])) }
    ensures get_holder { becomes (pointing (11 ∷ 256 ∷ 12 ∷ 0 ∷ 8 ∷ [])) caller ≡
        Some (running 1 (13 ∷ 256 ∷ 12 ∷ 0 ∷ 8 ∷ [])) }
    ensures set_thread { becomes (pointing (12 ∷ 256 ∷ 1 ∷ 4 ∷ 8 ∷ [])) caller ≡
        Some (running 1 (19 ∷ 256 ∷ 1 ∷ 4 ∷ 8 ∷ [])) }
    ensures set_taker { becomes (pointing (12 ∷ 256 ∷ 1 ∷ 3 ∷ 8 ∷ [])) caller ≡
        Some (running 1 (13 ∷ 256 ∷ 1 ∷ 3 ∷ 8 ∷ [])) }
    ensures set_space { becomes (pointing (12 ∷ 256 ∷ 12 ∷ 1 ∷ 8 ∷ [])) caller ≡
        Some (running 1 (19 ∷ 256 ∷ 12 ∷ 1 ∷ 8 ∷ [])) }
    ensures set_holder { becomes (pointing (12 ∷ 256 ∷ 12 ∷ 0 ∷ 8 ∷ [])) caller ≡
        Some (running 1 (13 ∷ 256 ∷ 12 ∷ 0 ∷ 8 ∷ [])) }
{}

/// That a thread isn't stopped is told before a bad record, and a bad address before both.
pub fn a_missing_stop_is_told_before_a_bad_record()
    ensures ready { IsReadyTo (setting 1 96) (goes caller) }
    ensures in_no_call { becomes (setting 1 96) caller ≡ Some (running 1 (8 ∷ 256 ∷ 1 ∷ 96 ∷ [])) }
    ensures other_kind { becomes (setting 1 192) caller ≡ Some (running 1 (8 ∷ 256 ∷ 1 ∷ 192 ∷ [])) }
    ensures bad_address { becomes (setting 1 80) caller ≡ Some (running 1 (12 ∷ 256 ∷ 1 ∷ 80 ∷ [])) }
{}

/// The state of a porter isn't set, whatever the record; it is denied though nobody stopped it.
pub fn a_porter_takes_no_state()
    ensures ready { IsReadyTo with_porter (makes inner_porter (SetState 256 255 0) (in_mode 0 0 0)) }
    ensures denied { told_by_move with_porter (makes inner_porter (SetState 256 255 0) (in_mode 0 0 0)) ≡
        Answered 13 [] }
    ensures bad_record { told_by_move with_porter (makes inner_porter (SetState 256 255 0) (in_mode 3 0 0)) ≡
        Answered 13 [] }
{}

/// A thread that is stopped 65534 times may be stopped once more, and then no more.
pub fn a_thread_is_stopped_a_65535th_time()
    ensures ready { IsReadyTo (stopping 65534) (goes caller) }
    ensures last { becomes (stopping 65534) caller ≡ Some (running 1 (0 ∷ 11 ∷ [])) }
    ensures stops { (run (stopping 65534) (goes caller ∷ [])).body (11 ∷ 1 ∷ []) ≡
        Some (stopped 65535 (running 7 [])) }
    ensures full { becomes (stopping 65535) caller ≡ Some (running 1 (15 ∷ 11 ∷ [])) }
{}

/// A thread takes the modes of users, a halt code up to 255 with the mode of the halted, and a stop
/// count up to 65535.
pub fn a_mode_its_code_and_the_stop_count_fit()
    ensures ready { IsReadyTo (setting_to (in_mode 2 255 65535)) (goes caller) }
    ensures highest { becomes (setting_to (in_mode 2 255 65535)) caller ≡ Some (running 1 (0 ∷ 256 ∷ 2 ∷ 64 ∷ [])) }
    ensures set { (run (setting_to (in_mode 2 255 65535)) (goes caller ∷ [])).body (2 ∷ 1 ∷ []) ≡
        Some (stopped 65535 (halted 9 (21 ∷ 3 ∷ []) 255)) }
    ensures porters_mode { becomes (setting_to (in_mode 3 0 0)) caller ≡ Some (running 1 (19 ∷ 256 ∷ 2 ∷ 64 ∷ [])) }
    ensures high_code { becomes (setting_to (in_mode 2 256 0)) caller ≡ Some (running 1 (19 ∷ 256 ∷ 2 ∷ 64 ∷ [])) }
    ensures running_code { becomes (setting_to (in_mode 0 7 0)) caller ≡ Some (running 1 (19 ∷ 256 ∷ 2 ∷ 64 ∷ [])) }
    ensures calling_code { becomes (setting_to (in_mode 1 7 0)) caller ≡ Some (running 1 (19 ∷ 256 ∷ 2 ∷ 64 ∷ [])) }
    ensures high_stops { becomes (setting_to (in_mode 0 0 65536)) caller ≡ Some (running 1 (19 ∷ 256 ∷ 2 ∷ 64 ∷ [])) }
{}
