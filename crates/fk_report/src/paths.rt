//! Paths.
ghost use Rattle.std.specs.Prelude.{◌≡◌, ◌++◌, OnOk, string_bytes};
ghost use Rattle.fk_report.specs.Paths as definitions;

use fk_decimal::push_number;
use std::alloc::AllocError;

/// Appends a path whose first slot is one of the root's: a slash before each slot, from the root inwards.
///
/// # Errors
///
/// There is no memory for the text.
pub fn push_down(text: &mut String, path: &[u8]) -> Result<(), AllocError>
    ensures { OnOk result (string_bytes text.new ≡ string_bytes text.old ++ definitions.down_text path.now) }
{
    for slot in path {
        text.push_str("/")?;
        push_number(text, u64::from(*slot))?;
    }
    Ok(())
}

/// Appends a path whose last slot is one of the root's: a slash before each slot, from the root inwards.
///
/// # Errors
///
/// There is no memory for the text.
pub fn push_path(text: &mut String, path: &[u8]) -> Result<(), AllocError>
    ensures { OnOk result (string_bytes text.new ≡ string_bytes text.old ++ definitions.path_text path.now) }
{
    for slot in path.iter().rev() {
        text.push_str("/")?;
        push_number(text, u64::from(*slot))?;
    }
    Ok(())
}
