//! Bytes that wait to be written to a link.
ghost use Rattle.std.specs.Prelude.{◌≡◌, ◌≢◌, ◌+◌, ◌-◌, ◌^◌, ◌<◌, ◌≤◌, [], ◌++◌, drop, length, take};
ghost use Rattle.std.specs.Bool.{OnFalse, OnTrue};
ghost use Rattle.slink_wire.specs.Packet.{packet_bytes};
ghost use Rattle.slink_live.specs.declared.pending.TheConstants.{MOST_PENDING};
ghost use Rattle.slink_live.specs.private.Waiting.{Waiting};

use slink_wire::{PACKET, Packet};
use std::marker::Model;

/// The most bytes that wait to be written to a link: twelve packets.
pub const MOST_PENDING: usize = 12 * PACKET;

/// Bytes that wait to be written, in order. Those that a link accepted leave room at the front, and the others move
/// there only when there is no room after them.
#[derive(Drop)]
pub(crate) struct Pending {
    // The bytes before this offset were accepted.
    begin: u16,
    // From here on there is room.
    end: u16,
    bytes: [u8; MOST_PENDING],
}

impl Model for Pending {
    ghost Value = { Waiting };

    ghost view = { λ p. record { bytes = drop p.begin (take p.end p.bytes); room = MOST_PENDING - p.end } };

    ghost invariant = { λ p. (p.begin ≤ p.end) × (p.end ≤ MOST_PENDING) };
}

/// Puts bytes at an offset.
fn put_bytes(room: &mut [u8; MOST_PENDING], at: usize, bytes: &[u8])
    requires { at + length bytes.now ≤ MOST_PENDING }
    ensures { take (at + length bytes.now) room.new ≡ take at room.old ++ bytes.now }
{
    room[at..at + bytes.len()].copy_from_slice(bytes);
}

/// Puts the packet of a record into room of its size.
fn fill_packet(room: &mut [u8], number: u32, bytes: &[u8; 512])
    requires room { length room.old ≡ PACKET }
    requires number { number < 2 ^ 24 }
    ensures value { room.new ≡ packet_bytes number bytes.now }
    ensures size { length room.new ≡ PACKET }
{
    match room.as_mut_array() {
        Some(packet) => Packet::put(packet, number, bytes),
        None => unreachable!(),
    }
}

/// Puts the packet of a record at an offset.
fn put_packet(room: &mut [u8; MOST_PENDING], at: usize, number: u32, bytes: &[u8; 512])
    requires room { at + PACKET ≤ MOST_PENDING }
    requires number { number < 2 ^ 24 }
    ensures value { take (at + PACKET) room.new ≡ take at room.old ++ packet_bytes number bytes.now }
    ensures size { length (packet_bytes number bytes.now) ≡ PACKET }
{
    fill_packet(&mut room[at..at + PACKET], number, bytes);
}

impl Pending {
    /// Room in which no bytes wait.
    pub(crate) fn new() -> Pending
        ensures { result.bytes ≡ [] }
    {
        Pending {
            begin: 0,
            end: 0,
            bytes: [0; MOST_PENDING],
        }
    }

    /// Returns all bytes that wait.
    pub(crate) fn as_slice(&self) -> &[u8]
        ensures value { result.now ≡ self.now.bytes }
        ensures most { length result.now ≤ MOST_PENDING }
    {
        &self.bytes[usize::from(self.begin)..usize::from(self.end)]
    }

    /// Returns how many bytes wait.
    pub(crate) fn len(&self) -> usize
        ensures value { result ≡ length self.now.bytes }
        ensures most { result ≤ MOST_PENDING }
    {
        usize::from(self.end - self.begin)
    }

    /// Returns whether no bytes wait.
    pub(crate) fn is_empty(&self) -> bool
        ensures yes { OnTrue result (self.now.bytes ≡ []) }
        ensures no { OnFalse result (self.now.bytes ≢ []) }
    {
        self.begin == self.end
    }

    /// Appends bytes to those that wait.
    pub(crate) fn queue(&mut self, bytes: &[u8])
        requires { length self.old.bytes + length bytes.now ≤ MOST_PENDING }
        ensures { self.new.bytes ≡ self.old.bytes ++ bytes.now }
    {
        self.make_room(bytes.len());
        put_bytes(&mut self.bytes, usize::from(self.end), bytes);
        self.end += bytes.len() as u16;
    }

    /// Appends the packet of a record, with its number modulo 2^24, to the bytes that wait.
    pub(crate) fn queue_packet(&mut self, number: u32, bytes: &[u8; 512])
        requires room { length self.old.bytes + PACKET ≤ MOST_PENDING }
        requires number { number < 2 ^ 24 }
        ensures value { self.new.bytes ≡ self.old.bytes ++ packet_bytes number bytes.now }
        ensures size { length (packet_bytes number bytes.now) ≡ PACKET }
    {
        self.make_room(PACKET);
        put_packet(&mut self.bytes, usize::from(self.end), number, bytes);
        self.end += PACKET as u16;
    }

    /// Makes room for `count` bytes: where there is too little, moves what is left to the front.
    fn make_room(&mut self, count: usize)
        requires { length self.old.bytes + count ≤ MOST_PENDING }
        ensures bytes { self.new.bytes ≡ self.old.bytes }
        ensures room { count ≤ self.new.room }
    {
        if count > MOST_PENDING - usize::from(self.end) {
            self.bytes
                .copy_within(usize::from(self.begin)..usize::from(self.end), 0);
            self.end -= self.begin;
            self.begin = 0;
        }
    }

    /// Drops the first `count` bytes that wait, which were accepted.
    pub(crate) fn taken(&mut self, count: usize)
        requires { count ≤ length self.old.bytes }
        ensures { self.new.bytes ≡ drop count self.old.bytes }
    {
        self.begin = (usize::from(self.begin) + count) as u16;
        if self.begin == self.end {
            self.begin = 0;
            self.end = 0;
        }
    }
}
