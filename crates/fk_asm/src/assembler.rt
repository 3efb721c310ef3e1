//! The two passes over a text.
ghost use Rattle.std.specs.Prelude.{◌≡◌, ◌≤◌, [], map, option_map, vec_len, IfOk, IfErr};
ghost use Rattle.fk_asm.specs.Reasons.{GivesOrReason};
ghost use Rattle.fk_asm.specs.Labels.{line_view};
ghost use Rattle.fk_asm.specs.Program.{line_if};
ghost use Rattle.fk_asm.specs.Passes as passes;
ghost use Rattle.fk_asm.specs.Assembler as definitions;
ghost use Rattle.fk_asm.specs.Assembler.{AnswersText, IsAsmFail};

use crate::fail::{AsmError, AsmFail};
use crate::lines::{lines_of, tokens_of};
use crate::operations::Item;
use crate::program::{Lines, right_line};
use crate::reason::Reason;
use std::alloc::Global;

fn refusal(line: u32, reason: Reason) -> AsmFail
    ensures { result ≡ definitions.refusal line reason }
{
    AsmFail::Text(AsmError {
        line,
        reason: reason.number(),
    })
}

/// The lines and one more with these tokens, if it is right; without tokens it is left out.
#[tactic(auto, unfolding(crate::specs::Assembler::check_lines, crate::specs::Passes::reached))]
fn with_tokens<'a>(lines: Lines<'a>, number: u32, tokens: &[&'a [u8]]) -> Result<Lines<'a>, AsmFail>
    ensures { AnswersText (λ x. x) result (passes.reached lines.entry (line_if number (map (λ token. token.now) tokens.now))) }
{
    match tokens {
        [] => Ok(lines),
        [_, ..] => match right_line(&lines, number, tokens) {
            Ok(line) => Ok(lines.with(line)?),
            Err(reason) => Err(refusal(number, reason)),
        },
    }
}

/// First pass: the lines of a text, each right after those before it.
#[tactic(auto, unfolding(crate::specs::Passes::lines_from))]
fn read_lines<'a>(alloc: Global, texts: &[&'a [u8]]) -> Result<Lines<'a>, AsmFail>
    ensures { AnswersText (λ x. x) result (passes.lines_from [] 1 (map (λ text. text.now) texts.now)) }
{
    let mut lines = Lines::new(alloc);
    let mut number = 1u32;
    for text in texts {
        let tokens = tokens_of(alloc, text)?;
        lines = with_tokens(lines, number, &tokens)?;
        number = match number.checked_add(1) {
            Some(number) => number,
            None => return Err(AsmFail::NoMemory),
        };
    }
    Ok(lines)
}

/// A word, with the address of its label in it.
fn addressed(lines: &Lines<'_>, item: Item<'_>) -> Result<u64, Reason>
    ensures { GivesOrReason (λ x. x) result (definitions.addressed lines.now item.entry.word (option_map (λ name. name.now) item.entry.label)) }
{
    match item.label {
        None => Ok(item.word),
        Some(name) => match lines.label_address(name) {
            Some(address) => Ok(item.word | u64::from(address)),
            None => Err(Reason::Undefined),
        },
    }
}

/// Second pass: the words of the lines.
#[tactic(auto, unfolding(crate::specs::Passes::line_words_from))]
fn words_of(alloc: Global, lines: &Lines<'_>) -> Result<Vec<u64>, AsmFail>
    ensures { AnswersText (λ words. words.items) result (passes.line_words_from lines.now [] lines.now) }
{
    let mut words = Vec::new(alloc);
    for line in lines.as_slice() {
        if let Some(item) = line.item {
            match addressed(lines, item) {
                Ok(word) => words.push(word)?,
                Err(reason) => return Err(refusal(line.number, reason)),
            }
        }
    }
    Ok(words)
}

/// The words of a text, at most 16,384.
///
/// # Errors
///
/// `Text` exactly where a line is refused: the first that is, in the order in which
/// `specs/Assembler.antt` checks them. `NoMemory` where there is no memory for the lines, their tokens
/// and labels, or the words.
#[tactic(auto, using(crate::proofs::Passes::text))]
pub fn assemble(alloc: Global, text: &[u8]) -> Result<Vec<u64>, AsmFail>
    ensures ok { IfOk result (λ words. definitions.assembled text.now ≡ Ok words.items) }
    ensures text { IfErr result (λ fail. IsAsmFail fail (definitions.assembled text.now)) }
    ensures few { IfOk result (λ words. vec_len words ≤ 16384) }
{
    let texts = lines_of(alloc, text)?;
    let lines = read_lines(alloc, &texts)?;
    words_of(alloc, &lines)
}
