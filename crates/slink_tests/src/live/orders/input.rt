//! An input without an end, and what the ring of each station keeps of it.
ghost use Rattle.std.specs.Prelude.{◌≤◌, length};

use super::super::{copy, record};
use crate::noise::Noise;
use std::alloc::Global;

/// The stations, of which the first has most records.
const STATIONS: [[u8; 3]; 4] = [*b"AAA", *b"BBB", *b"CCC", *b"DDD"];

/// The number of each station's first record: soon after it the numbers begin again.
pub(crate) const FIRST: u32 = 0xff_fffd;

/// The digits of a number.
const DIGITS: &[u8; 16] = b"0123456789ABCDEF";

/// Records of four stations, in an order chosen at random.
#[derive(Drop)]
pub(crate) struct Input {
    // So many records each ring keeps.
    capacity: usize,
    // Of each station the marks of its whole records. A mark is in no other record.
    marks: [Vec<u32>; 4],
    // The record that is given, its station and its mark, and how many of its bytes were given.
    record: [u8; 512],
    station: usize,
    mark: u32,
    given: usize,
    has_ended: bool,
}

impl Input {
    /// An input before its first byte, for rings of so many records.
    pub(crate) fn new(alloc: Global, capacity: usize) -> Input {
        Input {
            capacity,
            marks: [
                Vec::new(alloc),
                Vec::new(alloc),
                Vec::new(alloc),
                Vec::new(alloc),
            ],
            record: record(b"AAA", 0),
            station: 0,
            mark: 0,
            given: 0,
            has_ended: false,
        }
    }

    /// Gives some of a record's bytes, or all that are left of it.
    pub(crate) fn give(&mut self, noise: &mut Noise, buf: &mut [u8]) -> usize
        ensures { result ≤ length buf.new }
    {
        let most = 1 + noise.below(700);
        let given = self.given.min(512);
        let count = copy(&self.record[given..], most, buf);
        self.given = given + count;
        if self.given >= 512 {
            self.keep();
            self.begin(noise);
        }
        count
    }

    /// The record is whole: the ring of its station keeps it.
    fn keep(&mut self) {
        if let Some(marks) = self.marks.get_mut(self.station) {
            // Without memory no link is sent what it has to hold.
            let _ = marks.push(self.mark);
        }
    }

    /// Begins the next record.
    fn begin(&mut self, noise: &mut Noise) {
        self.mark = self.mark.wrapping_add(1);
        self.station = noise.below(8).min(self.mark as usize % 4);
        self.record = record(&STATIONS[self.station], self.mark);
        self.given = 0;
    }

    /// The input ends. The answer is how many whole records it had, and how many bytes of another one.
    pub(crate) fn end(&mut self) -> (u32, usize) {
        self.has_ended = true;
        (self.mark, self.given)
    }

    /// Whether nothing more comes.
    pub(crate) fn has_ended(&self) -> bool {
        self.has_ended
    }

    /// How many records of a station there were so far: the place of the next one among them.
    pub(crate) fn next(&self, station: usize) -> usize {
        match self.marks.get(station) {
            Some(marks) => marks.len(),
            None => 0,
        }
    }

    /// The place of the oldest record of a station that its ring keeps, or of the next one where it keeps none.
    pub(crate) fn oldest(&self, station: usize) -> usize {
        self.next(station).saturating_sub(self.capacity)
    }

    /// Whether the ring of a station has the record at a place, or that comes next.
    pub(crate) fn has(&self, station: usize, place: usize) -> bool {
        self.oldest(station) <= place && place <= self.next(station)
    }

    /// Whether each ring keeps all records that one read brings, at most two.
    pub(crate) fn keeps_two(&self) -> bool {
        self.capacity > 1
    }

    /// The mark of a station's record at a place, where it is whole.
    pub(crate) fn mark(&self, station: usize, place: usize) -> Option<u32> {
        self.marks.get(station)?.get(place).copied()
    }

    /// Whether these bytes are the packet of a station's record at a place: `SL`, its number in six digits, and the
    /// record (SeedLink 3).
    pub(crate) fn is_packet(&self, bytes: &[u8], station: usize, place: usize) -> bool {
        let (head, rest) = bytes.split_at(bytes.len().min(8));
        if head != header(place).as_slice() {
            return false;
        }
        match (STATIONS.get(station), self.mark(station, place)) {
            (Some(code), Some(mark)) => rest == record(code, mark).as_slice(),
            _ => false,
        }
    }
}

/// The first bytes of the packet of a record at a place.
fn header(place: usize) -> [u8; 8] {
    let number = (FIRST as usize).wrapping_add(place);
    [
        b'S',
        b'L',
        DIGITS[(number >> 20) % 16],
        DIGITS[(number >> 16) % 16],
        DIGITS[(number >> 12) % 16],
        DIGITS[(number >> 8) % 16],
        DIGITS[(number >> 4) % 16],
        DIGITS[number % 16],
    ]
}
