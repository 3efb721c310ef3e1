//! Reading a trace, line by line.
ghost use Rattle.std.specs.Prelude.{◌≡◌, ◌==◌, ◌++◌, List, position, ⊤, IfSome, IfNone};
ghost use Rattle.fk_model.specs.declared.moves.Move as moves_of;
ghost use Rattle.std.specs.Option.{option_map};
ghost use Rattle.fk_trace_text.specs.Trace.{first_line, BeginsWith, BeginsWithNone, HasNoFirstLine, IsFirstBad, Spells};
ghost use Rattle.fk_trace_text.specs.Reading as steps;

use crate::numbers::number_before;
use fk_model::{Move, Who, plain_number_up_to};

fn index_of(byte: u8, text: &[u8]) -> Option<usize>
    ensures { result ≡ position (λ b. b == byte) text.now }
{
    text.iter().position(|b| *b == byte)
}

/// What stands before and after the first such byte.
#[tactic(auto, unfolding(crate::specs::Reading::cut_at))]
pub fn cut_at(byte: u8, text: &[u8]) -> Option<(&[u8], &[u8])>
    ensures { option_map (λ parts. (parts.0.now, parts.1.now)) result ≡ steps.cut_at byte text.now }
{
    let at = index_of(byte, text)?;
    Some((&text[..at], &text[at + 1..]))
}

#[tactic(auto, unfolding(crate::specs::Reading::who_of))]
fn who_of(text: &[u8]) -> Option<Who>
    ensures { result ≡ steps.who_of text.now }
{
    let (space, slot) = cut_at(b'.', text)?;
    let space = plain_number_up_to(4_294_967_295, space)?;
    let slot = plain_number_up_to(255, slot)?;
    Some(Who {
        space: space as u32,
        slot: slot as u8,
    })
}

#[tactic(auto, unfolding(crate::specs::Reading::move_of))]
fn move_of(text: &[u8]) -> Option<Move>
    ensures { result ≡ steps.move_of text.now }
{
    match cut_at(b' ', text) {
        None => Some(Move {
            who: who_of(text)?,
            pick: None,
        }),
        Some((who, pick)) => Some(Move {
            who: who_of(who)?,
            pick: Some(who_of(pick)?),
        }),
    }
}

/// What stands after the first line of a trace, where a text begins with that.
pub fn after_first_line(text: &[u8]) -> Option<&[u8]>
    ensures found { IfSome result (λ rest. text.now ≡ first_line ++ rest.now) }
    ensures none { IfNone result (HasNoFirstLine text.now) }
{
    text.strip_prefix(b"fluke-trace 1\n")
}

/// The move whose line a text begins with, where it picks nobody, and what stands after that line.
fn first_lone(text: &[u8]) -> Option<(Move, &[u8])>
    ensures { IfSome result (λ first. BeginsWith text.now first.0 first.1.now) }
{
    let (space, rest) = number_before(b'.', 4_294_967_295, text)?;
    let (slot, after) = number_before(b'\n', 255, rest)?;
    let who = Who {
        space: space as u32,
        slot: slot as u8,
    };
    Some((Move { who, pick: None }, after))
}

/// The move whose line a text begins with, whomever it picks, and what stands after that line.
fn first_any(text: &[u8]) -> Option<(Move, &[u8])>
    ensures found { IfSome result (λ first. BeginsWith text.now first.0 first.1.now) }
    ensures none { IfNone result (BeginsWithNone (λ _. ⊤) text.now) }
{
    let (line, after) = cut_at(b'\n', text)?;
    Some((move_of(line)?, after))
}

/// The move whose line a text begins with, and what stands after that line.
pub fn first_move(text: &[u8]) -> Option<(Move, &[u8])>
    ensures found { IfSome result (λ first. BeginsWith text.now first.0 first.1.now) }
    ensures none { IfNone result (BeginsWithNone (λ _. ⊤) text.now) }
{
    // Most moves pick nobody, and their lines are read in one go.
    match first_lone(text) {
        Some(first) => Some(first),
        None => first_any(text),
    }
}

/// The index of the first move whose line is misspelled, whatever the moves are; 0 where the first line of the text is. None where the text is a
/// trace.
pub fn misspelled(trace: &[u8]) -> Option<u64>
    ensures some { IfSome result (λ index. IsFirstBad (λ _ _. ⊤) trace.now index) }
    ensures none { IfNone result ((moves : List moves_of.Move) × Spells (λ _ _. ⊤) trace.now moves) }
{
    let Some(mut rest) = after_first_line(trace) else {
        return Some(0);
    };
    let mut index = 0u64;
    while !rest.is_empty() {
        let Some((_, after)) = first_move(rest) else {
            return Some(index);
        };
        index += 1;
        rest = after;
    }
    None
}
