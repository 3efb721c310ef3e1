//! A packet to its bytes.
ghost use Rattle.std.specs.Prelude.{◌≡◌, ◌++◌, IfOk, OnOk};
ghost use Rattle.fk_packets.specs.Packets as words;

use crate::packet::{Packet, Why};
use fk_codec::writing::{put_u16, put_u64};
use fk_model::NoMemory;
use std::alloc::Global;

fn put_why(out: &mut Vec<u8>, why: &Why) -> Result<(), NoMemory>
    ensures { OnOk result (out.new.items ≡ out.old.items ++ words.why_bytes why.now) }
{
    match why {
        Why::Dead => out.push(1)?,
        Why::Foreign(place) => {
            out.extend_from_slice(&[2, place.field])?;
            out.extend_from_slice(place.path.as_slice())?;
        }
        Why::Occupied => out.push(3)?,
        Why::NoPort(port) => out.extend_from_slice(&[4, *port])?,
        Why::GaveUp => out.push(5)?,
    }
    Ok(())
}

fn put_packet(out: &mut Vec<u8>, packet: &Packet) -> Result<(), NoMemory>
    ensures { OnOk result (out.new.items ≡ out.old.items ++ words.packet_bytes packet.now) }
{
    match packet {
        Packet::Piece {
            number,
            total,
            bytes,
            len,
        } => {
            out.push(1)?;
            put_u64(out, *number)?;
            put_u64(out, *total)?;
            put_u16(out, *len)?;
            out.extend_from_slice(bytes.as_slice())?;
        }
        Packet::Ready => out.push(2)?,
        Packet::Refused(why) => {
            out.push(3)?;
            put_why(out, why)?;
        }
        Packet::Gone => out.push(4)?,
        Packet::Cancel => out.push(5)?,
    }
    Ok(())
}

/// The one spelling of a packet.
///
/// # Errors
///
/// There is no memory for the bytes.
pub fn write(alloc: Global, packet: &Packet) -> Result<Vec<u8>, NoMemory>
    ensures { IfOk result (λ bytes. bytes.items ≡ words.packet_bytes packet.now) }
{
    let mut out = Vec::new(alloc);
    put_packet(&mut out, packet)?;
    Ok(out)
}
