//! The words of answers.
ghost use Rattle.std.specs.Prelude.{◌≡◌};
ghost use Rattle.fk_checkpoint.specs.Seeking.Seeking.{answered};

use fk_model::Answer;

/// The words of an answer.
#[tactic(auto, using(crate::proofs::InSeeking::Ways::take_min))]
pub fn words_of(answer: &Answer) -> &[u64]
    ensures { result.now ≡ answered answer.now }
{
    &answer.words[..usize::from(answer.len).min(64)]
}
