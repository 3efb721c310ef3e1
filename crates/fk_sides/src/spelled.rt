//! An image with its bytes, cut into pieces.
ghost use Rattle.std.specs.Prelude.{◌≡◌, ◌+◌, ◌*◌, ◌<◌, ◌≤◌, ◌^◌, length, option_map, take, IfOk};
ghost use Rattle.std.specs.List.{slice_get};
ghost use Rattle.fk_image.specs.Format.Spelling.{spelling};
ghost use Rattle.fk_sides.specs.Sides.{packet_of};
ghost use Rattle.laws_handover.specs.Packets.Packet.{Piece as PieceOf};
ghost use Rattle.laws_handover.specs.Pieces.{piece, pieces};

use fk_codec::write;
use fk_finish::ValidImage;
use fk_model::NoMemory;
use fk_packets::Packet;
use std::alloc::Global;
use std::marker::Model;

/// An image with its bytes. Contracts see the image alone.
#[derive(Drop)]
pub struct Spelled {
    image: ValidImage,
    bytes: Vec<u8>,
}

impl Model for Spelled {
    ghost use Rattle.std.specs.Prelude.{◌≡◌};
    ghost use Rattle.fk_image.specs.declared.image.image.Image as images;
    ghost use Rattle.fk_image.specs.Format.Spelling.{spelling};

    ghost Value = { images.Image };

    ghost view = { λ s. s.image };

    ghost invariant = { λ s. s.bytes.items ≡ spelling s.image };
}

/// How many pieces of 512 bytes so many bytes take.
fn count_pieces(bytes: usize) -> u64
    ensures enough { bytes ≤ 512 * result }
    ensures least { 512 * result < bytes + 512 }
{
    let whole = (bytes / 512) as u64;
    if bytes % 512 == 0 { whole } else { whole + 1 }
}

/// How many pieces bytes have.
fn total_of(bytes: &[u8]) -> u64
    ensures total { result ≡ length (pieces bytes.now) }
    ensures small { result ≤ 2 ^ 55 }
{
    count_pieces(bytes.len())
}

/// The piece with a number, of so many: the first 512 of the bytes from its place on.
fn piece_of(number: u64, total: u64, rest: &[u8]) -> Packet
    ensures { packet_of result ≡ PieceOf (piece number total (take 512 rest.now)) }
{
    let len = rest.len().min(512);
    let mut bytes = [0; 512];
    bytes[..len].copy_from_slice(&rest[..len]);
    Packet::Piece {
        number,
        total,
        bytes,
        len: len as u16,
    }
}

/// The piece of bytes with a number.
fn piece_in(bytes: &[u8], number: u64) -> Option<Packet>
    ensures { option_map packet_of result ≡ option_map PieceOf (slice_get (pieces bytes.now) number) }
{
    let total = total_of(bytes);
    if number >= total {
        return None;
    }
    let start = number as usize * 512;
    let rest = &bytes[start..];
    Some(piece_of(number, total, rest))
}

impl Spelled {
    /// An image, of which the bytes are written.
    ///
    /// # Errors
    ///
    /// There is no memory for the image's bytes.
    pub fn new(alloc: Global, image: &ValidImage) -> Result<Spelled, NoMemory>
        ensures { IfOk result (λ spelled. spelled ≡ image.now) }
    {
        let bytes = write(alloc, image.get())?;
        let image = image.share()?;
        Ok(Spelled { image, bytes })
    }

    /// The image.
    pub fn image(&self) -> &ValidImage
        ensures { result.now ≡ self.now }
    {
        &self.image
    }

    /// How many pieces it has.
    pub fn total(&self) -> u64
        ensures total { result ≡ length (pieces (spelling self.now)) }
        ensures small { result ≤ 2 ^ 55 }
    {
        total_of(self.bytes.as_slice())
    }

    /// The piece with a number.
    pub fn piece(&self, number: u64) -> Option<Packet>
        ensures { option_map packet_of result ≡ option_map PieceOf (slice_get (pieces (spelling self.now)) number) }
    {
        piece_in(self.bytes.as_slice(), number)
    }
}
