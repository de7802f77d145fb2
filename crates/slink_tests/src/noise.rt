//! Numbers chosen at random: the same ones for the same seed.
ghost use Rattle.std.specs.Prelude.{◌<◌};

/// A linear congruential generator, with the multiplier and the increment of Knuth's MMIX.
#[derive(Drop)]
pub(crate) struct Noise {
    seed: u64,
}

impl Noise {
    /// The numbers of this seed.
    pub(crate) fn new(seed: u64) -> Noise {
        Noise { seed }
    }

    /// The next number, which is below `most`.
    pub(crate) fn below(&mut self, most: usize) -> usize
        requires { 0 < most }
        ensures { result < most }
    {
        self.seed = self
            .seed
            .wrapping_mul(6364136223846793005)
            .wrapping_add(1442695040888963407);
        (self.seed >> 33) as usize % most
    }
}
