//! Laws of packing.

ghost use Rattle.std.specs.Prelude.{◌≡◌, ◌++◌, List, ℤ, length, ℕ, drop, take};
ghost use Rattle.mseed_steim.specs.declared.scheme.Scheme.{Scheme};
ghost use Rattle.mseed_steim.specs.declared.scheme.Scheme.TheVariants.{Two};
ghost use Rattle.mseed_steim.specs.Frames.{DataWord};
ghost use Rattle.mseed_steim.specs.Runs.{SpellsRun};
ghost use Rattle.mseed_steim_pack.specs.declared.ahead.Lookahead.{Lookahead};
ghost use Rattle.mseed_steim_pack.specs.Lookahead.{IsLookahead};
ghost use Rattle.mseed_steim_pack.specs.Packing.{IsFewest, IsFullest, PacksRun, contents};

/// One word takes the largest number of some differences; and as many words that do so in turn are the
/// same words, wherever they stand, and leave the same differences.
pub fn one_packing()
    ensures word { (s : Scheme) (ds : List ℤ) (c w u d v t : ℕ) → IsFullest s ds c w u → IsFullest s ds d v t
        → (c ≡ d) × (w ≡ v) × (u ≡ t) }
    ensures run { (s : Scheme) (ws vs : List DataWord) (ds rest more : List ℤ) → PacksRun s ws ds rest
        → PacksRun s vs ds more → length ws ≡ length vs → (contents ws ≡ contents vs) × (rest ≡ more) }
{}

/// What is known ahead of differences is known of all that begin with them.
pub fn lookahead_stays()
    ensures { (s : Scheme) (known : Lookahead) (ds more : List ℤ) → IsLookahead s known ds
        → IsLookahead s known (ds ++ more) }
{}

/// One number of words is the fewest of some differences.
pub fn one_fewest()
    ensures { (ds : List ℤ) (m n : ℕ) → IsFewest ds m → IsFewest ds n → m ≡ n }
{}

/// Words that take the largest number in turn spell what they take; and in Steim-2 no fewer words do.
pub fn packed_spells()
    ensures spelled { (s : Scheme) (ws : List DataWord) (ds : List ℤ) (used : ℕ) → PacksRun s ws ds (drop used ds)
        → SpellsRun s ws (take used ds) }
    ensures fewest { (ws : List DataWord) (ds : List ℤ) (used : ℕ) → PacksRun Two ws ds (drop used ds)
        → IsFewest (take used ds) (length ws) }
{}
