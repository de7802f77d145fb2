//! A digest of what comes of a job, by which two builds are compared.

use mseed_audit::Summary;

/// The digest of the numbers and bytes that were taken in so far. Other numbers, or the same in another order, have
/// another digest, but by chance.
#[derive(Drop)]
pub(crate) struct Digest {
    lanes: [u64; 4],
}

/// The lane, with a word mixed into it.
fn mixed(lane: u64, word: u64) -> u64 {
    (lane ^ word)
        .wrapping_mul(0x9e37_79b9_7f4a_7c15)
        .rotate_left(29)
}

impl Digest {
    /// The digest of nothing.
    pub(crate) fn new() -> Digest {
        Digest {
            lanes: [1, 2, 3, 4],
        }
    }

    /// Takes a number in.
    pub(crate) fn number(&mut self, number: u64) {
        self.lanes[0] = mixed(self.lanes[0], number);
    }

    /// Takes bytes in, and how many there are.
    pub(crate) fn bytes(&mut self, bytes: &[u8]) {
        let [mut a, mut b, mut c, mut d] = self.lanes;
        let (words, rest) = bytes.as_chunks::<8>();
        let (blocks, last) = words.as_chunks::<4>();
        for [one, two, three, four] in blocks {
            a = mixed(a, u64::from_le_bytes(*one));
            b = mixed(b, u64::from_le_bytes(*two));
            c = mixed(c, u64::from_le_bytes(*three));
            d = mixed(d, u64::from_le_bytes(*four));
        }
        for word in last {
            a = mixed(a, u64::from_le_bytes(*word));
        }
        for byte in rest {
            a = mixed(a, u64::from(*byte));
        }
        self.lanes = [mixed(a, bytes.len() as u64), b, c, d];
    }

    /// Takes samples in, and how many there are.
    pub(crate) fn samples(&mut self, samples: &[i32]) {
        let (mut sum, mut weighted, mut place) = (0u32, 0u32, 1u32);
        for sample in samples {
            sum = sum.wrapping_add(sample.cast_unsigned());
            weighted = weighted.wrapping_add(sample.cast_unsigned().wrapping_mul(place));
            place = place.wrapping_add(1);
        }
        self.number(u64::from(sum) << 32 | u64::from(weighted));
        self.number(samples.len() as u64);
    }

    /// Takes in the counts of an audit, and whether it ended at a fault.
    pub(crate) fn summary(&mut self, summary: &Summary) {
        self.number(summary.records);
        self.number(summary.channels);
        self.number(summary.broken);
        self.number(u64::from(summary.fault));
    }

    /// The digest, as one number.
    pub(crate) fn value(&self) -> u64 {
        let mut value = 0;
        for lane in self.lanes {
            value = mixed(value, lane);
        }
        value
    }
}
