//! Numbers that look random, and the traces of a data logger.
ghost use Rattle.std.specs.Prelude.{◌<◌};

use crate::failure::Failure;
use std::alloc::Global;

/// So many samples in a row are as noisy as each other.
const PASSAGE: usize = 4_096;

/// Numbers that look random: splitmix64 of Steele, Lea and Flood.
#[derive(Drop)]
pub(crate) struct Noise {
    state: u64,
}

impl Noise {
    /// The numbers of a seed.
    pub(crate) fn new(seed: u64) -> Noise {
        Noise {
            state: seed.wrapping_mul(0xd134_2543_de82_ef95),
        }
    }

    /// The next number, of 64 bits.
    fn next(&mut self) -> u64 {
        self.state = self.state.wrapping_add(0x9e37_79b9_7f4a_7c15);
        let mixed = (self.state ^ (self.state >> 30)).wrapping_mul(0xbf58_476d_1ce4_e5b9);
        let mixed = (mixed ^ (mixed >> 27)).wrapping_mul(0x94d0_49bb_1331_11eb);
        mixed ^ (mixed >> 31)
    }

    /// The next number, modulo `most`.
    pub(crate) fn below(&mut self, most: usize) -> usize
        requires { 0 < most }
        ensures { result < most }
    {
        self.next() as usize % most
    }

    /// A difference of at most so many bits, in two's complement.
    fn step(&mut self, bits: u32) -> i32 {
        let number = (self.next() >> 33) as u32;
        number.cast_signed().wrapping_sub(1 << 30) >> (31 - bits.min(31))
    }
}

/// `count` samples as of a data logger, which drift back to 0: each passage of 4,096 samples has noise of 3 bits a
/// difference, and of up to `most` bits more. `Memory` where there is no room for them.
pub(crate) fn trace(
    alloc: Global,
    noise: &mut Noise,
    count: usize,
    most: u32,
) -> Result<Vec<i32>, Failure>
    requires some { 0 < most }
    requires few { most < 29 }
{
    let mut samples = Vec::with_capacity(alloc, count)?;
    let mut value: i32 = 0;
    let mut bits = 3;
    for at in 0..count {
        if at % PASSAGE == 0 {
            bits = 3 + noise.below(most as usize) as u32;
        }
        value = value
            .wrapping_sub(value >> 6)
            .wrapping_add(noise.step(bits));
        samples.push(value)?;
    }
    Ok(samples)
}
