//! Differences that are unpacked at once, and given one by one.

ghost use Rattle.std.specs.Prelude.{◌≡◌, ◌≤◌, [], ◌∷◌, MatchOption, map, length};
ghost use Rattle.byteorder.specs.Endian.{twos_complement};
ghost use Rattle.mseed_steim.specs.private.Digits.{digits};

use crate::group::Group;
use crate::widen::widen_bytes;
use crate::word::differences_in;
use std::marker::Model;

/// The bytes of a frame's fifteen data words.
const MOST: usize = 60;

/// Differences that are unpacked and not yet given.
#[derive(Drop)]
pub(crate) struct Ready {
    unpacked: [i32; MOST],
    /// How many are unpacked, and how many of them have been given.
    count: usize,
    given: usize,
}

impl Model for Ready {
    ghost use Rattle.std.specs.Prelude.{◌≤◌, List, ℤ, drop, take};

    ghost Value = { List ℤ };

    ghost view = { λ r. drop r.given (take r.count r.unpacked) };

    ghost invariant = { λ r. (r.given ≤ r.count) × (r.count ≤ 60) };
}

impl Ready {
    /// Returns a room in which nothing is unpacked.
    pub(crate) fn new() -> Self
        ensures { result ≡ [] }
    {
        Ready {
            unpacked: [0; MOST],
            count: 0,
            given: 0,
        }
    }

    /// Returns the differences that aren't given yet.
    pub(crate) fn as_slice(&self) -> &[i32]
        ensures { result.now ≡ self.now }
    {
        &self.unpacked[self.given..self.count]
    }

    /// Returns the next difference, which is given then; `None` where all are given.
    pub(crate) fn next(&mut self) -> Option<i32>
        ensures { MatchOption result ((self.old ≡ [])
            × (self.new ≡ [])) (λ difference. self.old ≡ difference ∷ self.new) }
    {
        if self.given == self.count {
            return None;
        }
        let difference = self.unpacked[self.given];
        self.given += 1;
        Some(difference)
    }

    /// Unpacks bytes, in place of what was there.
    pub(crate) fn set_bytes(&mut self, bytes: &[u8])
        requires { length bytes.now ≤ 60 }
        ensures { self.new ≡ map (λ byte. twos_complement 1 byte) bytes.now }
    {
        widen_bytes(bytes, &mut self.unpacked[..bytes.len()]);
        self.count = bytes.len();
        self.given = 0;
    }

    /// Unpacks a group, in place of what was there.
    pub(crate) fn set_group(&mut self, word: u32, group: Group)
        ensures { self.new ≡ digits group.width word group.count }
    {
        let differences = differences_in(word, group);
        let count = differences.len();
        self.unpacked[..count].copy_from_slice(differences.as_slice());
        self.count = count;
        self.given = 0;
    }
}
