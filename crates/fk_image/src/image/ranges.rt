//! Numbers in their ranges.
ghost use Rattle.std.specs.Prelude.{◌≡◌, get_or};
ghost use Rattle.fk_image.specs.Image.Ranges as words;

use crate::image::call_codes::is_call_code;

/// Whether a number is 0, or 1 and a slot.
pub fn is_set_word(set: u16) -> bool
    ensures { result ≡ words.is_set_word set }
{
    set < 241
}

/// Whether a space can have so many pages from a first one on.
pub fn is_extent(first: u8, count: u16) -> bool
    ensures { result ≡ words.is_extent first count }
{
    0 < count && u32::from(first) + u32::from(count) <= 256
}

/// Whether a number is a mode that a thread with these registers can have.
pub fn is_mode_byte(regs: &[u64; 16], mode: u8) -> bool
    ensures { result ≡ words.is_mode_byte regs.now mode }
{
    match mode {
        0 | 2 => true,
        1 => is_call_code(regs[0]),
        _ => false,
    }
}

/// Whether a number is a halt code that a thread in a mode can have.
pub fn is_code(mode: u8, code: u8) -> bool
    ensures { result ≡ words.is_code mode code }
{
    mode == 2 || code == 0
}
