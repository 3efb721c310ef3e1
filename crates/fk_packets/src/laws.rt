//! Laws of the bytes of packets, each the contract of a function that does nothing.
ghost use Rattle.std.specs.Prelude.{◌≡◌, true, Ok};
ghost use Rattle.fk_packets.specs.declared.packet.Packet.{Packet};
ghost use Rattle.fk_packets.specs.Packets.{SpellsPacket, fits_packet, packet_bytes, read_packet};

/// A packet is read from bytes exactly where they spell it, and they spell no other.
pub fn packets_are_exact(bytes: &[u8])
    ensures spelled { (p : Packet) → read_packet bytes.now ≡ Ok p → SpellsPacket bytes.now p }
    ensures read { (p : Packet) → SpellsPacket bytes.now p → read_packet bytes.now ≡ Ok p }
    ensures one { (p q : Packet) → SpellsPacket bytes.now p → SpellsPacket bytes.now q → p ≡ q }
{}

/// What a packet is spelled as is read as that packet.
pub fn packets_are_read_again()
    ensures { (p : Packet) → fits_packet p ≡ true → read_packet (packet_bytes p) ≡ Ok p }
{}
