//! Each premise of the laws is met: by a subtree with a talk, a fault, a talk that waits, a hold within
//! and pages, while a porter holds it and while nobody does.
#![tactic(auto, unfolding(crate::specs::Premises::premises))]

ghost use Rattle.std.specs.Prelude.{Some, None, [], ◌∷◌, true, false, replicate};
ghost use Rattle.fk_model.specs.Places.Ptr.{At, Out, Far};
ghost use Rattle.fk_model.specs.Objects.Mode.{Native};
ghost use Rattle.fk_model.specs.Objects.Body.{Port, Reference, Mutex};
ghost use Rattle.fk_model.specs.Valid.{IsPaged};
ghost use Rattle.fk_model.specs.Whole.{IsWhole, IsSavable};
ghost use Rattle.fk_model.specs.Cut.{IsPlain};
ghost use Rattle.fk_model.specs.Closed.{IsClosed};
ghost use Rattle.fk_model.specs.Sound.{IsUncut};
ghost use Rattle.laws_moves.specs.Frozen.Holding.{IsHolding, IsUsersMove};
ghost use Rattle.laws_subtrees.specs.Further.ClosedLaws.{IsUsersAlone};
ghost use Rattle.laws_subtrees.specs.Further.Strangers.{HasNoWindow, IsStrangersPort};
ghost use Rattle.laws_moves.specs.Whole.Runnable.{IsProper};
ghost use Rattle.examples_moves.specs.Worked.{IsReadyTo, accepts, goes, thread_in_mode};
ghost use Rattle.examples_premises.specs.Premises.{nesters_porter, within, full_of_all, held_with, with_object, with_one_page, served_within, fault_within};
ghost use Rattle.examples_premises.specs.Premises.{nesters_window, with_user, users_goes, asks_with, parks_talk, parks_fault, with_stranger, strangers_port};
ghost use Rattle.examples_premises.specs.Premises.{strangers_client};

/// It is valid, has few birth numbers and full pages.
pub fn a_whole_world()
    ensures held { IsWhole (full_of_all (Some (At nesters_porter))) }
    ensures free { IsWhole (full_of_all None) }
{}

/// The subtree is plain and closed.
pub fn a_plain_and_closed_subtree()
    ensures plain { IsPlain (full_of_all None) [] 1 }
    ensures plain_held { IsPlain (full_of_all (Some (At nesters_porter))) [] 1 }
    ensures closed { IsClosed (full_of_all None) [] 1 }
    ensures closed_held { IsClosed (full_of_all (Some (At nesters_porter))) [] 1 }
{}

/// It can be saved.
pub fn a_savable_world()
    ensures held { IsSavable (full_of_all (Some (At nesters_porter))) }
    ensures free { IsSavable (full_of_all None) }
{}

/// A page lies in a space that is there, and its number is below 256.
pub fn a_page_has_its_place()
    ensures last { IsPaged (with_one_page (1 ∷ []) 254) }
    ensures past { IsPaged (with_one_page (1 ∷ []) 256) → ⊥ }
    ensures in_nothing { IsPaged (with_one_page (within 9) 0) → ⊥ }
    ensures in_a_mutex { IsPaged (with_one_page (within 12) 0) → ⊥ }
{}

/// What isn't plain: something far within, a porter within, a served port within, somebody within who
/// serves the outside, or no subtree there at all.
pub fn what_isnt_plain()
    ensures far { IsPlain (with_object (within 13) (Reference (At nesters_porter))) [] 1 → ⊥ }
    ensures nester { IsPlain (with_object (within 13) (Reference (At []))) [] 1 → ⊥ }
    ensures porter { IsPlain (with_object (within 255) (thread_in_mode (Native (replicate 16 0)) 0)) [] 1 → ⊥ }
    ensures served { IsPlain (with_object (within 13) (Port None true)) [] 1 → ⊥ }
    ensures talk { IsPlain (with_object (0 ∷ []) served_within) [] 1 → ⊥ }
    ensures fault { IsPlain (with_object (0 ∷ []) fault_within) [] 1 → ⊥ }
    ensures no_space { IsPlain (full_of_all None) [] 9 → ⊥ }
    ensures nothing { IsPlain (full_of_all None) [] 2 → ⊥ }
{}

/// It is nobody's cut, the subtree has users alone, and nothing outside maps a region within; but not
/// with a pointer of a cut in it, nor with a window of the nester's.
pub fn a_world_that_stands_alone()
    ensures uncut { IsUncut (full_of_all None) }
    ensures uncut_held { IsUncut (full_of_all (Some (At nesters_porter))) }
    ensures users { IsUsersAlone (full_of_all None) [] 1 }
    ensures no_window { HasNoWindow (full_of_all None) [] 1 }
    ensures no_window_held { HasNoWindow (full_of_all (Some (At nesters_porter))) [] 1 }
    ensures far { IsUncut (with_object (within 13) (Reference Far)) → ⊥ }
    ensures out { IsUncut (with_object (within 13) (Reference (Out 9))) → ⊥ }
    ensures window { HasNoWindow (with_object (0 ∷ []) nesters_window) [] 1 → ⊥ }
{}

/// A porter holds the subtree with a reference into it in its scratch, or one to what the subtree leads to;
/// not with another object there, nor where another or nobody holds it, nor beneath another's hold.
pub fn a_porter_that_holds()
    ensures inside { IsHolding [] 1 (held_with (Reference (At (within 5)))) }
    ensures led_to { IsHolding [] 1 (held_with (Reference (At (9 ∷ [])))) }
    ensures none { IsHolding [] 1 (full_of_all (Some (At nesters_porter))) }
    ensures mutex { IsHolding [] 1 (held_with (Mutex false)) → ⊥ }
    ensures nobody { IsHolding [] 1 (full_of_all None) → ⊥ }
    ensures another { IsHolding [] 1 (full_of_all (Some (At (0 ∷ [])))) → ⊥ }
    ensures deeper { IsHolding (1 ∷ []) 6 (held_with (Reference (At (within 5)))) → ⊥ }
{}

/// A user's move is proper, and so are an act of a native server and a call for which a porter gives 64
/// words, in their ranges; not one with fewer or more words, nor with a turn, a count of words or a
/// taker that there isn't.
pub fn a_proper_move()
    ensures user { IsProper with_user users_goes }
    ensures server { IsProper with_user (accepts (9 ∷ []) (within 0)) }
    ensures porter { IsProper with_user (asks_with 64) }
    ensures parks { IsProper with_user (parks_talk 2 65535) }
    ensures parks_fault { IsProper with_user (parks_fault 1) }
    ensures few { IsProper with_user (asks_with 63) → ⊥ }
    ensures many { IsProper with_user (asks_with 65) → ⊥ }
    ensures no_turn { IsProper with_user (parks_talk 3 0) → ⊥ }
    ensures long { IsProper with_user (parks_talk 1 65536) → ⊥ }
    ensures no_taker { IsProper with_user (parks_fault 2) → ⊥ }
{}

/// A user moves beside a subtree that a porter holds; that is no move of the porter, nor of a thread
/// that is held, nor of nobody.
pub fn a_users_move_beside_a_hold()
    ensures holding { IsHolding [] 1 with_user }
    ensures user { IsUsersMove [] with_user users_goes }
    ensures porter { IsUsersMove [] with_user (asks_with 64) → ⊥ }
    ensures held { IsUsersMove [] with_user (goes (within 5)) → ⊥ }
    ensures nobody { IsUsersMove [] with_user (goes (3 ∷ [])) → ⊥ }
{}

/// A native server elsewhere accepts a client; its port is a stranger's, unlike the nester's ports and
/// those within.
pub fn a_strangers_port()
    ensures ready { IsReadyTo with_stranger (accepts strangers_port strangers_client) }
    ensures stranger { IsStrangersPort with_stranger [] 1 strangers_port }
    ensures nesters { IsStrangersPort with_stranger [] 1 (9 ∷ []) → ⊥ }
    ensures inner { IsStrangersPort with_stranger [] 1 (within 4) → ⊥ }
    ensures plain { IsPlain with_stranger [] 1 }
    ensures no_window { HasNoWindow with_stranger [] 1 }
{}
