//! Bytes to a packet.
ghost use Rattle.std.specs.Prelude.{◌≡◌, IfOk};
ghost use Rattle.fk_codec.specs.Reading.Given.{Decodes};
ghost use Rattle.fk_packets.specs.Packets as words;

use crate::packet::{PIECE_BYTES, Packet, Why};
use fk_codec::reading::{Fail, read_byte, read_u16, read_u64, refused};
use fk_finish::Place;
use fk_image::format::reason;
use fk_model::{List, NoMemory};
use std::alloc::Global;

/// The bytes of a piece.
fn read_block(bytes: &[u8]) -> Result<([u8; 512], &[u8]), Fail>
    ensures { Decodes (λ x. (x.0, x.1.now)) result (words.read_block bytes.now) }
{
    match bytes.split_first_chunk::<512>() {
        Some((block, rest)) => Ok((*block, rest)),
        None => Err(refused(bytes, reason::CUT)),
    }
}

#[tactic(auto, unfolding(crate::specs::Packets::read_piece))]
fn read_piece(bytes: &[u8]) -> Result<(Packet, &[u8]), Fail>
    ensures { Decodes (λ x. (x.0, x.1.now)) result (words.read_piece bytes.now) }
{
    let (number, rest) = read_u64(bytes)?;
    let (total, behind_total) = read_u64(rest)?;
    let (len, rest) = read_u16(behind_total)?;
    if len > PIECE_BYTES {
        return Err(refused(behind_total, reason::RANGE));
    }
    let (bytes, rest) = read_block(rest)?;
    let piece = Packet::Piece {
        number,
        total,
        bytes,
        len,
    };
    Ok((piece, rest))
}

/// A list of these bytes.
fn list_of(alloc: Global, bytes: &[u8]) -> Result<List<u8>, NoMemory>
    ensures { IfOk result (λ list. list ≡ bytes.now) }
{
    let mut items = Vec::new(alloc);
    items.extend_from_slice(bytes)?;
    Ok(List::of(items))
}

/// A field and a path, which goes up to the end.
#[tactic(auto, unfolding(crate::specs::Packets::read_place))]
fn read_place(alloc: Global, bytes: &[u8]) -> Result<Place, Fail>
    ensures { Decodes (λ x. x) result (words.read_place bytes.now) }
{
    let (field, rest) = read_byte(bytes)?;
    let path = list_of(alloc, rest)?;
    Ok(Place { path, field })
}

#[tactic(auto, unfolding(crate::specs::Packets::read_why))]
fn read_why(alloc: Global, bytes: &[u8]) -> Result<(Why, &[u8]), Fail>
    ensures { Decodes (λ x. (x.0, x.1.now)) result (words.read_why bytes.now) }
{
    let (tag, rest) = read_byte(bytes)?;
    match tag {
        1 => Ok((Why::Dead, rest)),
        2 => Ok((Why::Foreign(read_place(alloc, rest)?), &[])),
        3 => Ok((Why::Occupied, rest)),
        4 => {
            let (port, rest) = read_byte(rest)?;
            Ok((Why::NoPort(port), rest))
        }
        5 => Ok((Why::GaveUp, rest)),
        _ => Err(refused(bytes, reason::RANGE)),
    }
}

#[tactic(auto, unfolding(crate::specs::Packets::read_front))]
fn read_front(alloc: Global, bytes: &[u8]) -> Result<(Packet, &[u8]), Fail>
    ensures { Decodes (λ x. (x.0, x.1.now)) result (words.read_front bytes.now) }
{
    let (tag, rest) = read_byte(bytes)?;
    match tag {
        1 => read_piece(rest),
        2 => Ok((Packet::Ready, rest)),
        3 => {
            let (why, rest) = read_why(alloc, rest)?;
            Ok((Packet::Refused(why), rest))
        }
        4 => Ok((Packet::Gone, rest)),
        5 => Ok((Packet::Cancel, rest)),
        _ => Err(refused(bytes, reason::RANGE)),
    }
}

/// The packet that the bytes spell.
///
/// # Errors
///
/// `At`: the bytes spell none; their first bad field, with its reason. `NoMemory`: there is none for the packet.
#[tactic(auto, unfolding(crate::specs::Packets::read_packet))]
pub fn read(alloc: Global, bytes: &[u8]) -> Result<Packet, Fail>
    ensures { Decodes (λ x. x) result (words.read_packet bytes.now) }
{
    let (packet, rest) = read_front(alloc, bytes)?;
    if rest.is_empty() {
        Ok(packet)
    } else {
        Err(refused(rest, reason::LEFT_OVER))
    }
}
