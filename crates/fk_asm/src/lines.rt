//! The lines of a text, the tokens of a line, and the label that it defines.
ghost use Rattle.std.specs.Prelude.{◌≡◌, IfOk, map, option_map, position};
ghost use Rattle.std.specs.List.{slice_split, before_first};
ghost use Rattle.fk_asm.specs.Lines as definitions;

use std::alloc::{AllocError, Global};

/// The lines of a text.
///
/// # Errors
///
/// There is no memory for the list.
pub fn lines_of(alloc: Global, text: &[u8]) -> Result<Vec<&[u8]>, AllocError>
    ensures { IfOk result (λ lines. map (λ line. line.now) lines.items ≡ definitions.lines_of text.now) }
{
    text.split(|byte| *byte == b'\n').collect(alloc)
}

/// What stands between separators. Any other byte is part of a piece, also a form feed or one from 128 on.
fn pieces_of(alloc: Global, line: &[u8]) -> Result<Vec<&[u8]>, AllocError>
    ensures { IfOk result (λ pieces. map (λ piece. piece.now) pieces.items ≡ slice_split definitions.is_separator line.now) }
{
    line.split(|byte| matches!(*byte, b' ' | b'\t' | b'\r' | b','))
        .collect(alloc)
}

/// Where a comment begins, which may be inside a token.
fn comment_at(line: &[u8]) -> Option<usize>
    ensures { result ≡ position definitions.is_semicolon line.now }
{
    line.iter().position(|byte| *byte == b';')
}

/// What stands before a line's comment.
fn before_comment(line: &[u8]) -> &[u8]
    ensures { result.now ≡ before_first definitions.is_semicolon line.now }
{
    match comment_at(line) {
        Some(end) => &line[..end],
        None => line,
    }
}

/// The tokens of a line, without its comment.
///
/// # Errors
///
/// There is no memory for the list.
pub fn tokens_of(alloc: Global, line: &[u8]) -> Result<Vec<&[u8]>, AllocError>
    ensures { IfOk result (λ tokens. map (λ token. token.now) tokens.items ≡ definitions.tokens_of line.now) }
{
    let text = before_comment(line);
    let mut tokens = Vec::new(alloc);
    if text.is_empty() {
        // A line that says nothing takes no memory.
        return Ok(tokens);
    }
    let pieces = pieces_of(alloc, text)?;
    for &piece in &pieces {
        if !piece.is_empty() {
            tokens.push(piece)?;
        }
    }
    Ok(tokens)
}

/// The name before the colon that ends a token.
fn label_in(token: &[u8]) -> Option<&[u8]>
    ensures { option_map (λ name. name.now) result ≡ definitions.label_in token.now }
{
    match token {
        [name @ .., b':'] => Some(name),
        _ => None,
    }
}

/// The name of the label that a line with these tokens defines.
pub fn label_of<'a>(tokens: &[&'a [u8]]) -> Option<&'a [u8]>
    ensures { option_map (λ name. name.now) result ≡ definitions.label_of (map (λ token. token.now) tokens.now) }
{
    match tokens {
        [first, ..] => label_in(first),
        [] => None,
    }
}

/// The tokens after a line's label.
pub fn unlabelled<'s, 'a>(tokens: &'s [&'a [u8]]) -> &'s [&'a [u8]]
    ensures { map (λ token. token.now) result.now ≡ definitions.unlabelled (map (λ token. token.now) tokens.now) }
{
    match tokens {
        [first, after @ ..] => {
            if label_in(first).is_some() {
                after
            } else {
                tokens
            }
        }
        [] => tokens,
    }
}
