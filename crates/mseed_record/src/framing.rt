//! Framing of a prefix that is there at once.
ghost use Rattle.std.specs.Prelude.{◌≡◌, ◌↔◌, ◌≤◌, ◌<◌, ◌^◌, ℕ, length, take};
ghost use Rattle.mseed_record.specs.declared.fault.FrameFault.{FrameFault};
ghost use Rattle.mseed_record.specs.declared.framer.Scan.{Scan};
ghost use Rattle.mseed_record.specs.declared.framer.Scan.TheVariants.{Need, Record, Not};
ghost use Rattle.mseed_record.specs.Record.{IsRecord};
ghost use Rattle.mseed_record.specs.Scan.{Decides, HasNoRecord, HasNoShorter, Needs};

use crate::framer::{Framer, LONGEST_RECORD, Scan};

/// Returns whether a record begins the bytes, and how many bytes it has, by the first framing step that applies (SEED
/// manual, chapter 8, "Data record blockettes": the length is blockette 1000's).
///
/// `Need` says how many bytes there have to be in all before more is known, `Not` by which step they begin no record,
/// whatever follows them. Each blockette up to the first 1000 is looked at once; a [`Framer`] goes on along them while
/// more bytes come.
pub fn scan(prefix: &[u8]) -> Scan
    ensures decides { Decides prefix.now result }
    ensures one_answer { (other : Scan) → Decides prefix.now other → other ≡ result }
    ensures record { (k : ℕ) → (result ≡ Record k) ↔ ((k ≤ length prefix.now) × IsRecord (take k prefix.now)) }
    ensures only { (k : ℕ) → result ≡ Record k → (j : ℕ) → j ≤ length prefix.now → IsRecord (take j prefix.now)
        → j ≡ k }
    ensures refused { (f : FrameFault) → result ≡ Not f → HasNoRecord prefix.now }
    ensures needed { (k : ℕ) → result ≡ Need k → Needs prefix.now k }

    // What is requested is more than there is, no more than the longest record has, and no more than any record
    // that may come has.
    ensures bound { (k : ℕ) → result ≡ Need k → (length prefix.now < k) × (k ≤ LONGEST_RECORD) }
    ensures least { (k : ℕ) → result ≡ Need k → HasNoShorter prefix.now k }
{
    Framer::new().look(prefix)
}
