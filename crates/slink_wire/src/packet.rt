//! Packets, 520 bytes each.
ghost use Rattle.std.specs.Prelude.{◌≡◌, ℕ, ◌^◌, ◌<◌, ◌≤◌, IsOkAnd, IfOk, IfNone, IfSome, OnErr, List, length};
ghost use Rattle.slink_wire.specs.Packet.{HasHead, IsPacket, in_capitals, packet_bytes};

use crate::hexadecimal::{header, number_of};

/// The bytes of a packet before its record: `SL`, and six hexadecimal digits (SeedLink 3, packets).
pub const HEAD: usize = 8;

/// The bytes of a packet: its head, and a record of 512 bytes.
pub const PACKET: usize = 520;

/// No packet: the bytes don't begin with `SL` and six hexadecimal digits.
#[derive(Clone, Copy, Debug, PartialEq, Eq)]
pub struct NotPacket;

/// The packets of the feed: `SL`, the number of a record in six hexadecimal digits, and the record.
pub struct Packet;

impl Packet {
    /// Returns the packet of a record: `SL`, its number, below 2^24, in six hexadecimal digits, in capitals, and its
    /// 512 bytes (SeedLink 3, packets).
    #[tactic(auto, using(crate::proofs::Packets::read_back))]
    pub fn write(number: u32, bytes: &[u8; 512]) -> [u8; PACKET]
        requires { number < 2 ^ 24 }
        ensures value { result ≡ packet_bytes number bytes.now }
        ensures reads_back { IsPacket result number bytes.now }
    {
        let mut packet = [0; PACKET];
        Packet::put(&mut packet, number, bytes);
        packet
    }

    /// Puts the packet of a record into room, as [`Packet::write`] has it.
    pub fn put(room: &mut [u8; PACKET], number: u32, bytes: &[u8; 512])
        requires { number < 2 ^ 24 }
        ensures value { room.new ≡ packet_bytes number bytes.now }
    {
        let (head, body) = room.split_at_mut(HEAD);
        head.copy_from_slice(&header(number));
        body.copy_from_slice(bytes);
    }

    /// Returns the number of a packet's record, modulo 2^24, by the packet's first eight bytes, whose digits may stand
    /// in either case; `None` where they begin no packet. There are at least these eight.
    pub fn number(bytes: &[u8]) -> Option<u32>
        requires { HEAD ≤ length bytes.now }
        ensures number { IfSome result (HasHead bytes.now) }
        ensures none { IfNone result ((n : ℕ) → ¬ (HasHead bytes.now n)) }
    {
        if !bytes.starts_with(b"SL") {
            return None;
        }
        number_of(&bytes[2..HEAD])
    }

    /// Returns the number, modulo 2^24, and the record of a packet, whose digits may stand in either case.
    ///
    /// # Errors
    ///
    /// `NotPacket` where the bytes don't begin with `SL` and six hexadecimal digits.
    #[tactic(auto, using(crate::proofs::Packets::one_packet))]
    pub fn read(bytes: &[u8; PACKET]) -> Result<(u32, &[u8; 512]), NotPacket>
        ensures packet { IfOk result (λ p. IsPacket bytes.now p.0 p.1.now) }
        // All that is a packet is answered, so it has at most one number and record.
        ensures only { (n : ℕ) (r : List ℕ) → IsPacket bytes.now n r → IsOkAnd result (λ p. (p.0 ≡ n) × (p.1.now ≡ r)) }
        ensures refused { OnErr result ((n : ℕ) (r : List ℕ) → ¬ (IsPacket bytes.now n r)) }
        // A packet is as it was written, up to the case of its digits.
        ensures written { IfOk result (λ p. in_capitals bytes.now ≡ packet_bytes p.0 p.1.now) }
    {
        let Some((head, body)) = bytes.split_last_chunk() else {
            return Err(NotPacket);
        };
        if !head.starts_with(b"SL") {
            return Err(NotPacket);
        }
        match number_of(&head[2..]) {
            Some(number) => Ok((number, body)),
            None => Err(NotPacket),
        }
    }
}
