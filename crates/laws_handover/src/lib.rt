//! The handover of a subtree from one kernel to another, over packets that may be lost, repeated and reordered. Each law is the contract
//! of a function that does nothing.
//!
//! It stands on no other crate, and names neither kernels nor jobs: what a porter's call comes to is any function of its world and its
//! state. It promises that over every list of events the copy is let go only where nothing is left of the near one. It doesn't promise
//! that one of the two is let go: where the last packet is lost, the near one is gone and the copy stays held.
//!
//! Its definitions are the two sides (`NearSide`, `FarSide`), the packets and what each side has sent (`Packets`, `Sent`), the events
//! (`Handover`), and the pieces of an image (`Pieces`).
#![tactic(auto)]

ghost use Rattle.laws_handover.specs.Laws.{NeverBoth, SentStays, GoesOn, KeptForEver, CancelSaysWhy, SameImage};
ghost use Rattle.laws_handover.specs.Pieces.{PiecesAreExact};
ghost use Rattle.laws_handover.specs.Worked.{ListsEndSo};

/// The copy is let go only where nothing is left of the near one.
pub fn never_both<W, E, S, V, F, T, I, P, Y>()
    ensures { NeverBoth W E S V F T I P Y }
{}

/// The image that the far side has read is the one that the near side has gathered.
pub fn what_is_read_was_gathered<W, E, S, V, F, T, I, P, Y>()
    ensures { SameImage W E S V F T I P Y }
{}

/// A packet keeps its number.
pub fn packets_keep_their_numbers<W, E, S, V, F, T, I, P, Y>()
    ensures { SentStays W E S V F T I P Y }
{}

/// Where every packet that was sent has come, and the handover isn't over, a porter has a call to make.
pub fn a_handover_goes_on<W, E, S, V, F, T, I, P, Y>()
    ensures { GoesOn W E S V F T I P Y }
{}

/// What is read from its spelling is read exactly from its pieces, in whatever order and however often they came.
pub fn pieces_are_exact<I>()
    ensures { PiecesAreExact I }
{}

/// Once the near side has decided to keep its own, no copy is ever let go.
pub fn what_is_kept_stays<W, E, S, V, F, T, I, P, Y>()
    ensures { KeptForEver W E S V F T I P Y }
{}

/// Where the near one is kept after its image was gathered, it was given up, or the far restore has ended without a copy for that reason.
pub fn what_is_cancelled_says_why<W, E, S, V, F, T, I, P, Y>()
    ensures { CancelSaysWhy W E S V F T I P Y }
{}

/// Twelve lists of events over small kernels, and how they end.
pub fn lists_of_events_end_so()
    ensures { ListsEndSo }
{}
