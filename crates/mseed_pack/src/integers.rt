//! Samples as integers.
ghost use Rattle.std.specs.Prelude.{◌≡◌, ◌+◌, ◌-◌, ◌*◌, ◌<◌, ◌≤◌, ◌++◌, length, All, pos, slice_index_or};
ghost use Rattle.std.specs.Prelude.{slice_range, drop};
ghost use Rattle.mseed_steim.specs.Spelling.{IsWithin};
ghost use Rattle.mseed_pack.specs.private.Filling.{AreFrames, AreRemaining, AreTaken, bytes_in, integer_bytes};
ghost use Rattle.mseed_pack.specs.Packing.{HoldsIntegers};
ghost use Rattle.mseed_pack.specs.Stretches.{differences};

use crate::payload::{Filled, Remaining};
use byteorder::{BigEndian, ByteOrder};

/// How wide an integer is, in bytes.
#[derive(Clone, Copy)]
pub(crate) enum Width {
    Two,
    Four,
}

/// How many bytes that are.
fn bytes_in(width: Width) -> usize
    ensures { result ≡ bytes_in width }
{
    match width {
        Width::Two => 2,
        Width::Four => 4,
    }
}

/// Writes the samples from one on, as many as there is room for, as big-endian integers, and zeros after them.
#[tactic(auto, using(crate::proofs::Numbers::taken))]
pub(crate) fn fill_integers(
    width: Width,
    samples: &[i32],
    left: Remaining,
    payload: &mut [u8],
) -> Filled
    requires left { AreRemaining samples.now left }
    requires frames { AreFrames payload.old }
    requires fits { All (IsWithin (8 * bytes_in width)) samples.now }
    ensures holds { HoldsIntegers (bytes_in width) (length (slice_range (differences samples.now) left.first left.end))
        (slice_range samples.now left.first (left.first + result.samples)) result.frames payload.new }
    ensures taken { AreTaken left result.samples }
{
    let bytes = bytes_in(width);
    let count = (left.end - left.first).min(payload.len() / bytes);
    for index in 0..count {
        put_sample(
            width,
            samples,
            left.first + index,
            &mut payload[bytes * index..],
        );
    }
    payload[bytes * count..].fill(0);
    Filled {
        samples: count,
        frames: 0,
    }
}

/// Writes the sample at an index.
#[tactic(auto, using(crate::proofs::Rules::put_sample))]
fn put_sample(width: Width, samples: &[i32], index: usize, out: &mut [u8])
    requires inside { index < length samples.now }
    requires room { bytes_in width ≤ length out.old }
    requires fits { IsWithin (8 * bytes_in width) (slice_index_or samples.now index (pos 0)) }
    ensures { out.new ≡ integer_bytes (bytes_in width) (slice_index_or samples.now index (pos 0))
        ++ drop (bytes_in width) out.old }
{
    match width {
        Width::Two => BigEndian::write_i16(out, samples[index] as i16),
        Width::Four => BigEndian::write_i32(out, samples[index]),
    }
}
