//! Worked examples of isolation: a subtree that a stranger leaves alone, and what it tells beside one; and statements that are nearly
//! integrity and nearly noninterference, each of which a world refutes.
//!
//! It stands on `laws_isolation` and on the worlds of `examples_premises` and `examples_subtrees`; nothing stands on it. Each example is a
//! function that does nothing and ensures what is so.
#![tactic(auto, unfolding(crate::specs::Isolation::isolated_worlds))]

ghost use Rattle.std.specs.Prelude.{◌≡◌, [], ◌∷◌, Some};
ghost use Rattle.fk_model.specs.declared.thread.Turn.TheVariants as turns;
ghost use Rattle.fk_model.specs.Places.Ptr.{At};
ghost use Rattle.fk_model.specs.Objects.Peer.{Service};
ghost use Rattle.fk_model.specs.Runs.{after};
ghost use Rattle.examples_moves.specs.Worked.{running, with_talk};
ghost use Rattle.examples_premises.specs.Premises.{strangers_port, strangers_client, with_stranger};
ghost use Rattle.laws_isolation.specs.Integrity.{IsUntouched};
ghost use Rattle.laws_isolation.specs.Noninterference.{IsTheSameInBoth};
ghost use Rattle.examples_isolation.specs.Isolation.{accepts_there, OutsidersLeaveTheCut, StrangersLeaveTheCutThroughWindows};
ghost use Rattle.examples_isolation.specs.Isolation.{sends_block, block, TellsBlock, TakersDontMatter};

/// A native server elsewhere accepts a client, and a subtree isn't touched by it. Not whoever is outside leaves a subtree as it was: its
/// nester's porter takes a page from it. Nor does each stranger: one stores a word there, through mappings of its own space and of another.
pub fn a_stranger_leaves_a_subtree_alone()
    ensures goes { (after with_stranger accepts_there).body strangers_client ≡
        Some (with_talk (record { port = At strangers_port; peer = Service; turn = turns.Client; moved = 0 }) (running 1 (0 ∷ 9 ∷ []))) }
    ensures untouched { IsUntouched with_stranger [] 1 accepts_there }
    ensures outsiders { OutsidersLeaveTheCut → ⊥ }
    ensures windows { StrangersLeaveTheCutThroughWindows → ⊥ }
{}

/// A thread inside sends a block of 64 words to a port outside. Whether the stranger has moved before it or not, it tells these words
/// there, and the same cut is left. Its cut and its own moves don't say what it tells: how many words the outside takes belongs to what
/// came in.
pub fn a_subtree_tells_the_same_beside_a_stranger()
    ensures told { TellsBlock }
    ensures same { IsTheSameInBoth with_stranger (after with_stranger accepts_there) [] [] 1 1 (sends_block ∷ []) (sends_block ∷ []) (block ∷ []) }
    ensures takers { TakersDontMatter → ⊥ }
{}
