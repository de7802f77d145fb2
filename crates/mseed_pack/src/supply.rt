//! Where the samples of a series come from.

/// Where the samples of a series come from, as differences: each sample minus the one before it, and 0 for the first.
pub trait Supply {
    ghost use Rattle.std.specs.Prelude.{◌≡◌, ◌+◌, ◌-◌, ◌<◌, ◌≤◌, ℕ, ℤ, List, length, pos, slice_index_or, IfSome};
    ghost use Rattle.mseed_pack.specs.Supplies.{IsNextGiven};

    /// It supplies the differences of these samples, and has given this number of them.
    ghost supplies: { Self → List ℤ → ℕ → Type 0 };

    /// What a call leaves as it was, whatever a supply says of itself by it.
    ghost beside: { Self → ℕ } = { λ _. 0 };

    /// Puts the next differences into `out`, from its beginning on, and returns how many there are. While any is left
    /// it puts some into an `out` that isn't empty, as many as it likes. What lies after them is then open.
    fn fill(&mut self, out: &mut [i32]) -> usize
        requires { (samples : List ℤ) × ((given : ℕ) × supplies self.old samples given) }
        ensures bound { result ≤ length out.new }
        ensures next { (samples : List ℤ) (given : ℕ) → supplies self.old samples given
            → IsNextGiven samples given out.new result × supplies self.new samples (given + result) }
        ensures beside { beside self.new ≡ beside self.old };

    /// The sample of the last difference that was given, where it is at hand. Before any was given nothing is said. A
    /// packer that knows it has fewer differences to add up for the last sample of a record.
    fn last(&self) -> Option<i32>
        ensures { IfSome result (λ last. (samples : List ℤ) (given : ℕ) → supplies self.now samples given → 0 < given
            → last ≡ slice_index_or samples (given - 1) (pos 0)) }
    {
        None
    }
}
