//! Numbers as decimal text.
//!
//! It stands on the kit's `itoa`, and promises that a number is appended as `decimal` has it.
#![tactic(auto)]

ghost use Rattle.std.specs.Prelude.{◌≡◌, ◌++◌, decimal, string_bytes, OnOk};

use itoa::Buffer;
use std::alloc::AllocError;

/// Appends a number.
///
/// # Errors
///
/// There is no memory for its digits.
pub fn push_number(text: &mut String, number: u64) -> Result<(), AllocError>
    ensures { OnOk result (string_bytes text.new ≡ string_bytes text.old ++ decimal number) }
{
    let mut buffer = Buffer::new();
    text.push_str(buffer.format(number))
}
