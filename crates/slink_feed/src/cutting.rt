//! How the bytes that a link brings are cut.
ghost use Rattle.std.specs.Prelude.{◌≡◌, ℕ, ◌+◌, ◌<◌, ◌≤◌, List, [], ◌∷◌, ◌++◌, length, take};
ghost use Rattle.slink_feed.specs.Cutting.{Begins, IsPacketBegun, IsReplyBegun};
ghost use Rattle.slink_feed.specs.private.Parts.{IsDue, IsPacketPart, IsReplyPart, TakesUpTo, ends_reply};

use arrayvec::ArrayVec;
use slink_wire::{HEAD, PACKET, Packet, put};

/// The most bytes of a reply, with its CR LF.
const LONGEST_REPLY: usize = 256;

/// What bytes that are kept have come to.
#[derive(Clone, Copy)]
pub(crate) enum Part {
    /// More are awaited.
    Begun,
    /// A reply, or a packet.
    Whole,
    /// The end.
    End,
    /// None of these.
    Garbage,
}

/// Takes one byte of a reply.
fn take_reply_byte(kept: &mut ArrayVec<u8, PACKET>, byte: u8) -> Part
    requires { IsReplyBegun kept.old.items }
    ensures kept { kept.new.items ≡ kept.old.items ++ byte ∷ [] }
    ensures part { IsReplyPart kept.new.items result }
{
    let ends = ends_reply(kept.as_slice(), byte);
    kept.push(byte);
    if ends {
        Part::Whole
    } else if kept.len() == LONGEST_REPLY {
        Part::Garbage
    } else {
        Part::Begun
    }
}

/// Whether this byte is an LF right after a CR.
fn ends_reply(bytes: &[u8], byte: u8) -> bool
    ensures { result ≡ ends_reply bytes.now byte }
{
    match bytes.last() {
        Some(last) => *last == b'\r' && byte == b'\n',
        None => false,
    }
}

/// Takes bytes up to the end of a reply, or to the byte that is too many in one, or all.
pub(crate) fn take_reply(kept: &mut ArrayVec<u8, PACKET>, bytes: &[u8]) -> (usize, Part)
    requires { IsReplyBegun kept.old.items }
    ensures { TakesUpTo IsReplyPart kept.old.items kept.new.items bytes.now result.0 result.1 }
{
    for (i, byte) in bytes.iter().enumerate() {
        match take_reply_byte(kept, *byte) {
            Part::Begun => {}
            part => return (i + 1, part),
        }
    }
    (bytes.len(), Part::Begun)
}

/// How many bytes of a packet there have to be before they are judged next.
fn due(kept: &[u8]) -> usize
    requires { IsPacketBegun kept.now }
    ensures more { length kept.now < result }
    ensures most { result ≤ PACKET }
    ensures due { (more : List ℕ) → length kept.now + length more ≤ result → IsDue (kept.now ++ more) }
{
    match kept.first() {
        None => 1,
        Some(b'E') => 3,
        Some(_) if kept.len() < HEAD => HEAD,
        Some(_) => PACKET,
    }
}

/// What the bytes of a packet, or of the end, have come to.
fn judge(bytes: &[u8]) -> Part
    requires { IsDue bytes.now }
    ensures { IsPacketPart bytes.now result }
{
    match bytes.first() {
        None => Part::Begun,
        Some(b'S') => judge_packet(bytes),
        Some(b'E') => judge_end(bytes),
        Some(_) => Part::Garbage,
    }
}

/// What bytes that begin with `S` have come to.
#[tactic(auto, using(crate::proofs::Heads::eight_none))]
fn judge_packet(bytes: &[u8]) -> Part
    requires begins { Begins bytes.now 83 }
    requires due { IsDue bytes.now }
    ensures { IsPacketPart bytes.now result }
{
    if bytes.len() < HEAD {
        return Part::Begun;
    }
    match Packet::number(bytes) {
        None => Part::Garbage,
        Some(_) if bytes.len() < PACKET => Part::Begun,
        Some(_) => Part::Whole,
    }
}

/// What bytes that begin with `E` have come to.
fn judge_end(bytes: &[u8]) -> Part
    requires begins { Begins bytes.now 69 }
    requires due { IsDue bytes.now }
    ensures { IsPacketPart bytes.now result }
{
    if bytes.len() < 3 {
        Part::Begun
    } else if bytes == &b"END"[..] {
        Part::End
    } else {
        Part::Garbage
    }
}

/// Takes bytes of a packet until they are judged next, or all.
fn take_part(kept: &mut ArrayVec<u8, PACKET>, bytes: &[u8]) -> (usize, Part)
    requires { IsPacketBegun kept.old.items }
    ensures kept { kept.new.items ≡ kept.old.items ++ take result.0 bytes.now }
    ensures part { IsPacketPart kept.new.items result.1 }
    ensures some { 0 < length bytes.now → 0 < result.0 }
    ensures bound { result.0 ≤ length bytes.now }
{
    let room = due(kept.as_slice()) - kept.len();
    let used = room.min(bytes.len());
    put(kept, &bytes[..used]);
    (used, judge(kept.as_slice()))
}

/// Takes bytes up to the end of a packet, or of the end, or to the byte by which they are neither, or all.
pub(crate) fn take_packet(kept: &mut ArrayVec<u8, PACKET>, bytes: &[u8]) -> (usize, Part)
    requires { IsPacketBegun kept.old.items }
    ensures { TakesUpTo IsPacketPart kept.old.items kept.new.items bytes.now result.0 result.1 }
{
    let mut used = 0;
    while used < bytes.len() {
        let (more, part) = take_part(kept, &bytes[used..]);
        used += more;
        match part {
            Part::Begun => {}
            part => return (used, part),
        }
    }
    (used, Part::Begun)
}
