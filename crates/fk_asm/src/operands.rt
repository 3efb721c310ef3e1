//! Operands: registers, numbers, and labels in a number's place.
ghost use Rattle.std.specs.Prelude.{◌≡◌, ◌<◌, IfOk};
ghost use Rattle.fk_asm.specs.Reasons.{GivesOrReason};
ghost use Rattle.fk_asm.specs.Operands as definitions;

use crate::reason::Reason;
use fk_model::{is_name, number_up_to};

/// What stands in a number's place: a number, or a label that stands for its address.
#[derive(Clone, Copy)]
pub enum Value<'a> {
    Number(u32),
    Label(&'a [u8]),
}

/// A register, `r0` to `r15`.
///
/// # Errors
///
/// `Register`: it is none.
pub fn register_of(token: &[u8]) -> Result<u8, Reason>
    ensures value { GivesOrReason (λ x. x) result (definitions.register_of token.now) }
    ensures known { IfOk result (λ register. register < 16) }
{
    match token {
        [b'r', digit @ b'0'..=b'9'] => Ok(*digit - b'0'),
        [b'r', b'1', digit @ b'0'..=b'5'] => Ok(*digit - b'0' + 10),
        _ => Err(Reason::Register),
    }
}

fn number_of(token: &[u8]) -> Option<u32>
    ensures { result ≡ definitions.number_of token.now }
{
    match token {
        [b'-', digits @ ..] => {
            let number = number_up_to(2_147_483_648, digits)?;
            Some((number as u32).wrapping_neg())
        }
        _ => {
            let number = number_up_to(4_294_967_295, token)?;
            Some(number as u32)
        }
    }
}

/// Whether a token begins with a letter, as labels do and numbers don't.
pub fn begins_with_letter(token: &[u8]) -> bool
    ensures { result ≡ definitions.begins_with_letter token.now }
{
    matches!(token, [b'a'..=b'z', ..])
}

/// Whether a token is a label: a name that begins with a letter.
pub fn is_label(token: &[u8]) -> bool
    ensures { result ≡ definitions.is_label token.now }
{
    begins_with_letter(token) && is_name(token)
}

/// A number from -2147483648 to 4294967295, taken modulo 2^32, or a label.
///
/// # Errors
///
/// `Number`: it is neither.
pub fn operand_of(token: &[u8]) -> Result<Value<'_>, Reason>
    ensures { GivesOrReason definitions.value_view result (definitions.operand_of token.now) }
{
    // A label goes first: what is none is a number or an ill-formed one, whatever it begins with.
    if is_label(token) {
        return Ok(Value::Label(token));
    }
    match number_of(token) {
        Some(number) => Ok(Value::Number(number)),
        None => Err(Reason::Number),
    }
}
