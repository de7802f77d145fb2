//! Laws of instants.
ghost use Rattle.std.specs.Prelude.{◌≡◌, ◌↔◌, ◌≤◌, ℕ, ℤ, Some};
ghost use Rattle.mseed_time.specs.Btime.{Parts};
ghost use Rattle.mseed_time.specs.Calendar.{IsDatedSo, day_in_year};
ghost use Rattle.mseed_time.specs.Naming.{Names};

/// No two pairs of a BTIME whose second is below 60, and of -50 to 49 microseconds, give the same instant.
pub fn one_name()
    ensures { (instant : ℤ) (t s : Parts) (u v : ℤ) → Names instant t u → Names instant s v → (t ≡ s) × (u ≡ v) }
{}

/// A day of a month is the day of the year that the text of a date has so: in the years of instants, for all numbers.
pub fn one_date()
    ensures { (year month day n : ℕ) → 1800 ≤ year → year ≤ 2199
        → ((day_in_year year month day ≡ Some n) ↔ IsDatedSo year month day n) }
{}
