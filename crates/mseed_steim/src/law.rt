//! Laws of readings.

ghost use Rattle.std.specs.Prelude.{◌≡◌, ◌<◌, List, ℤ, length};
ghost use Rattle.mseed_record.specs.View.{View};
ghost use Rattle.mseed_steim.specs.declared.fault.ReadFault.{ReadFault};
ghost use Rattle.mseed_steim.specs.Reading.{count_of, Denies, HasOneReading, IsFault, IsReading, IsWhole};

/// A record has at most one reading: no two lists of samples are what its bytes say.
pub fn one_reading()
    ensures { (v : View) → HasOneReading v }
{}

/// A reading has as many samples as its record says.
pub fn reading_has_count()
    ensures { (v : View) (s : List ℤ) → IsReading v s → length s ≡ count_of v }
{}

/// A record has at most one fault; and where it has one, nothing is a reading that ends on its constants.
pub fn one_fault()
    ensures one { (v : View) (f g : ReadFault) → IsFault v f → IsFault v g → f ≡ g }
    ensures denies { (v : View) (f : ReadFault) → 0 < count_of v → IsFault v f → Denies v f }
    ensures excludes { (v : View) (f : ReadFault) (s : List ℤ) → IsFault v f → ¬ (IsWhole v s) }
{}
