//! Numbers in decimal.
ghost use Rattle.std.specs.Prelude.{◌≡◌, ◌≤◌, IfSome};
ghost use Rattle.fk_model.specs.Numbers as numbers;

/// The number of a token of digits, which may begin with zeros. None where the token is empty or has
/// anything but digits, or where its number is above `most`.
pub fn number_up_to(most: u64, token: &[u8]) -> Option<u64>
    ensures value { result ≡ numbers.number_up_to most token.now }
    ensures most { IfSome result (λ number. number ≤ most) }
{
    if token.is_empty() {
        return None;
    }
    let mut number = 0u64;
    for digit in token {
        if !digit.is_ascii_digit() {
            return None;
        }
        number = number
            .checked_mul(10)?
            .checked_add(u64::from(*digit - b'0'))?;
        if number > most {
            return None;
        }
    }
    Some(number)
}

/// The number of a token of digits, as `number_up_to` has it, where the token doesn't begin with a
/// zero that could be left out.
pub fn plain_number_up_to(most: u64, token: &[u8]) -> Option<u64>
    ensures value { result ≡ numbers.plain_number_up_to most token.now }
    ensures most { IfSome result (λ number. number ≤ most) }
{
    match token {
        [b'0', _, ..] => None,
        _ => number_up_to(most, token),
    }
}
