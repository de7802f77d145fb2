//! A line that is built in place, and added to a text at once.
ghost use Rattle.std.specs.Prelude.{◌≡◌, ◌≤◌, ◌+◌, [], ◌++◌, OnErr, OnOk, length, map, take};
ghost use Rattle.mseed_stream.specs.Device.{IsPrefixOf};
ghost use Rattle.mseed_text.specs.Name.{code_text, printed};

use crate::name::printed;
use mseed_record::trimmed;
use std::alloc::{AllocError, Allocator};
use std::marker::Model;

/// The most bytes of a line.
pub const LONGEST_LINE: usize = 256;

/// The fewest bytes for which a text has room, if for any.
const LEAST_ROOM: usize = 8;

/// A line of up to [`LONGEST_LINE`] bytes, as far as it is built. It needs no allocation, and [`push_line`] adds it to
/// a text.
///
/// Contracts see a line as its bytes.
#[derive(Drop)]
pub struct Line {
    bytes: [u8; LONGEST_LINE],
    len: usize,
}

impl Model for Line {
    ghost use Rattle.std.specs.Prelude.{◌≤◌, ℕ, List, take};
    ghost use Rattle.mseed_text.specs.declared.line.TheConstants.{LONGEST_LINE};

    ghost Value = { List ℕ };

    ghost view = { λ l. take l.len l.bytes };

    ghost invariant = { λ l. l.len ≤ LONGEST_LINE };
}

impl Line {
    /// Returns an empty line.
    #[inline(always)]
    pub fn new() -> Line
        ensures { result ≡ [] }
    {
        Line {
            bytes: [0; LONGEST_LINE],
            len: 0,
        }
    }

    /// Returns the bytes that were put, in their order.
    #[inline(always)]
    pub fn as_slice(&self) -> &[u8]
        ensures { result.now ≡ self.now }
    {
        &self.bytes[..self.len]
    }

    /// Puts bytes at its end.
    #[inline(always)]
    pub fn put(&mut self, bytes: &[u8])
        requires room { length self.old + length bytes.now ≤ LONGEST_LINE }
        ensures text { self.new ≡ self.old ++ bytes.now }
        ensures len { length self.new ≡ length self.old + length bytes.now }
    {
        let end = self.len + bytes.len();
        self.bytes[self.len..end].copy_from_slice(bytes);
        self.len = end;
    }

    /// Puts a code at its end, as it is printed, without its trailing spaces and NULs. Those are written too, after the
    /// line's end, so that the number of writes is that of the code's bytes.
    #[inline(always)]
    pub fn put_code(&mut self, code: &[u8])
        requires { length self.old + length code.now ≤ LONGEST_LINE }
        ensures text { self.new ≡ self.old ++ code_text code.now }
        ensures most { length self.new ≤ length self.old + length code.now }
    {
        let begin = self.len;
        write_printed(&mut self.bytes, begin, code);
        self.len = begin + trimmed(code).len();
    }
}

/// Writes the bytes of a code from an index on, each as it is printed.
#[inline(always)]
fn write_printed(room: &mut [u8; LONGEST_LINE], index: usize, code: &[u8])
    requires { index + length code.now ≤ LONGEST_LINE }
    ensures { take (index + length code.now) room.new ≡ take index room.old ++ map printed code.now }
{
    for i in 0..code.len() {
        room[index + i] = printed(code[i]);
    }
}

/// Adds a line to a text. The capacity of a text begins with that of the first line's first word, and doubles until the
/// line fits: so no text requests more memory than one to which the words are added one by one.
///
/// # Errors
///
/// `AllocError` where memory is refused; the text is unchanged then.
#[inline(always)]
pub fn push_line<A: Allocator>(text: &mut Vec<u8, A>, line: &[u8]) -> Result<(), AllocError>
    ensures ok { OnOk result (text.new.items ≡ text.old.items ++ line.now) }
    ensures unchanged { OnErr result (text.new.items ≡ text.old.items) }
    ensures prefix { IsPrefixOf text.old.items text.new.items }
{
    if text.capacity() - text.len() < line.len() {
        make_room(text, line)?;
    }
    text.extend_from_slice(line)
}

/// Makes room for a line in a text, whose bytes stay, whatever the result.
///
/// # Errors
///
/// `AllocError` where memory is refused.
#[cold]
#[inline(never)]
fn make_room<A: Allocator>(text: &mut Vec<u8, A>, line: &[u8]) -> Result<(), AllocError>
    ensures { text.new.items ≡ text.old.items }
{
    let least = text.len().saturating_add(line.len());
    let mut room = text.capacity().max(first_word(line)).max(LEAST_ROOM);
    for _ in 0..usize::BITS {
        if room < least {
            room = room.saturating_mul(2);
        }
    }
    text.reserve_exact(room.saturating_sub(text.len()))
}

/// Returns how many bytes stand before the first space.
fn first_word(line: &[u8]) -> usize {
    for index in 0..line.len() {
        if line[index] == b' ' {
            return index;
        }
    }
    line.len()
}
