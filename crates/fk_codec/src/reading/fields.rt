//! Fields from left to right.
ghost use Rattle.std.specs.Prelude.{IfErr};
ghost use Rattle.std.specs.Int.{w16, w32, w64};
ghost use Rattle.fk_image.specs.Format.Fields as fields;
ghost use Rattle.fk_image.specs.Format.Reading as words;
ghost use Rattle.fk_codec.specs.Reading.Given.{Decodes, IsFault, Refuses};

use crate::reading::fail::Fail;
use byteorder::{ByteOrder, LittleEndian};
use fk_image::Link;
use fk_image::format::{Stop, reason};

/// The fault of the field at the front of these bytes.
pub fn refused(bytes: &[u8], reason: u8) -> Fail
    ensures { Refuses result bytes.now reason }
{
    Fail::At(Stop {
        left: bytes.len(),
        reason,
    })
}

/// A byte. Where none is left, the bytes end within a field.
///
/// # Errors
///
/// `At`: no byte is left.
pub fn read_byte(bytes: &[u8]) -> Result<(u8, &[u8]), Fail>
    ensures read { Decodes (λ x. (x.0, x.1.now)) result (fields.read_byte bytes.now) }
    ensures fault { IfErr result (λ fail. IsFault fail) }
{
    match bytes {
        [] => Err(Fail::At(Stop {
            left: 0,
            reason: reason::CUT,
        })),
        [byte, rest @ ..] => Ok((*byte, rest)),
    }
}

/// A number of two bytes, the lowest first. Where fewer are left, the bytes end within a field; so in the next two.
///
/// # Errors
///
/// `At`: fewer bytes are left, so these end within a field.
pub fn read_u16(bytes: &[u8]) -> Result<(u16, &[u8]), Fail>
    ensures read { Decodes (λ x. (x.0, x.1.now)) result (fields.read_number w16 bytes.now) }
    ensures fault { IfErr result (λ fail. IsFault fail) }
{
    match bytes.split_first_chunk::<2>() {
        Some((number, rest)) => Ok((LittleEndian::read_u16(number), rest)),
        None => Err(refused(bytes, reason::CUT)),
    }
}

/// A number of four bytes, the lowest first.
///
/// # Errors
///
/// `At`: fewer bytes are left, so these end within a field.
pub fn read_u32(bytes: &[u8]) -> Result<(u32, &[u8]), Fail>
    ensures read { Decodes (λ x. (x.0, x.1.now)) result (fields.read_number w32 bytes.now) }
    ensures fault { IfErr result (λ fail. IsFault fail) }
{
    match bytes.split_first_chunk::<4>() {
        Some((number, rest)) => Ok((LittleEndian::read_u32(number), rest)),
        None => Err(refused(bytes, reason::CUT)),
    }
}

/// A number of eight bytes, the lowest first.
///
/// # Errors
///
/// `At`: fewer bytes are left, so these end within a field.
pub fn read_u64(bytes: &[u8]) -> Result<(u64, &[u8]), Fail>
    ensures read { Decodes (λ x. (x.0, x.1.now)) result (fields.read_number w64 bytes.now) }
    ensures fault { IfErr result (λ fail. IsFault fail) }
{
    match bytes.split_first_chunk::<8>() {
        Some((number, rest)) => Ok((LittleEndian::read_u64(number), rest)),
        None => Err(refused(bytes, reason::CUT)),
    }
}

/// A byte below a limit; any other is out of its range.
///
/// # Errors
///
/// `At`: no byte is left, or it is another one.
#[tactic(auto, unfolding(fk_image::specs::Format::Fields::read_below))]
pub fn read_below(limit: u8, bytes: &[u8]) -> Result<(u8, &[u8]), Fail>
    ensures read { Decodes (λ x. (x.0, x.1.now)) result (fields.read_below limit bytes.now) }
    ensures fault { IfErr result (λ fail. IsFault fail) }
{
    let (byte, rest) = read_byte(bytes)?;
    if byte < limit {
        Ok((byte, rest))
    } else {
        Err(refused(bytes, reason::RANGE))
    }
}

/// So many words one after the other.
///
/// # Errors
///
/// `At`: fewer bytes are left, so these end within a field.
#[tactic(auto, using(crate::proofs::InReading::Loops::words))]
pub fn read_words<const N: usize>(bytes: &[u8]) -> Result<([u64; N], &[u8]), Fail>
    ensures read { Decodes (λ x. (x.0, x.1.now)) result (words.read_words N bytes.now) }
    ensures fault { IfErr result (λ fail. IsFault fail) }
{
    let mut numbers = [0u64; N];
    let mut rest = bytes;
    for i in 0..N {
        let (number, after) = read_u64(rest)?;
        numbers[i] = number;
        rest = after;
    }
    Ok((numbers, rest))
}

/// A pointer: its tag, and what that tag is followed by. An unknown tag is out of its range, and so is a slot above 239.
///
/// # Errors
///
/// `At`: the bytes end within it, or its tag or its slot is out of range.
#[tactic(auto, unfolding(fk_image::specs::Format::Reading::read_link))]
pub fn read_link(bytes: &[u8]) -> Result<(Link, &[u8]), Fail>
    ensures read { Decodes (λ x. (x.0, x.1.now)) result (words.read_link bytes.now) }
    ensures fault { IfErr result (λ fail. IsFault fail) }
{
    let (tag, rest) = read_byte(bytes)?;
    match tag {
        0 => Ok((Link::Null, rest)),
        1 => Ok((Link::Dead, rest)),
        2 => {
            let (space, rest) = read_u32(rest)?;
            let (slot, rest) = read_below(240, rest)?;
            Ok((Link::In { space, slot }, rest))
        }
        3 => {
            let (slot, rest) = read_below(240, rest)?;
            Ok((Link::Out(slot), rest))
        }
        4 => Ok((Link::Root, rest)),
        5 => Ok((Link::Outside, rest)),
        _ => Err(refused(bytes, reason::RANGE)),
    }
}
