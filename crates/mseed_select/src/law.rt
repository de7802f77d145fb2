//! Laws of what is asked for.
ghost use Rattle.std.specs.Prelude.{◌≡◌, ◌↔◌, IsTrue, List, ℕ, ℤ, ◌≤ℤ◌, ◌<ℤ◌, Some};
ghost use Rattle.std.specs.List.{AllByRecursion};
ghost use Rattle.mseed_time.specs.Rate.{Ratio};
ghost use Rattle.mseed_record.specs.Header.{key_at};
ghost use Rattle.mseed_record.specs.View.{IsView, View};
ghost use Rattle.mseed_time.specs.Naming.{year_begins};
ghost use Rattle.mseed_time.specs.Text.{time_text};
ghost use Rattle.mseed_select.specs.TimeTexts.{IsWordFor};
ghost use Rattle.mseed_select.specs.Word.{time_of};
ghost use Rattle.mseed_select.specs.Halves.{AreMerged, asked_of, others_of, placed_from};
ghost use Rattle.mseed_record.specs.Letters.{AreFourFields, IsFourFields};
ghost use Rattle.mseed_record.specs.Pattern.{Fits, IsOfChannels, are_patterns, fits, is_pattern};
ghost use Rattle.mseed_record.specs.Selection.{HasSampleIn, IsAskedFor, LacksTime, Selection, asks_for, lacks_time};

/// A text is a pattern exactly where it is four fields of letters and digits, `-`, `*` and `?`, with `_` between them,
/// and patterns exactly where it is one or more of them, with `,` between them.
pub fn patterns_exactly()
    ensures one { (text : List ℕ) → (IsTrue (is_pattern text) ↔ IsFourFields text) }
    ensures all { (text : List ℕ) → (IsTrue (are_patterns text) ↔ AreFourFields text) }
{}

/// The test of a pattern's field is exact.
#[tactic(auto, using(crate::proofs::Fitting::fits_yes, crate::proofs::Fitting::fits_back))]
pub fn fits_exactly()
    ensures { (field code : List ℕ) → IsTrue (fits field code) ↔ Fits field code }
{}

/// The test of a record is exact.
#[tactic(auto, using(crate::proofs::Asking::asks_for_yes, crate::proofs::Asking::asks_for_back))]
pub fn asked_for_exactly()
    ensures { (s : Selection) (v : View) → IsTrue (asks_for s v) ↔ IsAskedFor s v }
{}

/// The test of whether a record of a channel that is asked for lacks a time is exact: for what any choice asks for.
#[tactic(auto, using(crate::proofs::Asking::lacks_time_yes, crate::proofs::Asking::lacks_time_back))]
pub fn lacks_time_exactly()
    ensures { (s : Selection) (v : View) → (IsTrue (lacks_time s v) ↔ LacksTime s v) }
{}

/// The records that are asked for and the others, merged by offset, are all the records.
#[tactic(auto, using(crate::proofs::Halving::halves))]
pub fn two_halves()
    ensures { (s : Selection) (offset : ℕ) (views : List View) → AllByRecursion IsView views
        → AreMerged (placed_from offset views) (asked_of s (placed_from offset views))
        (others_of s (placed_from offset views)) }
{}

/// Each sample in the window, of a record of a channel that is asked for whose start and rate are known, lies in a
/// record that is asked for.
#[tactic(auto, using(crate::proofs::Sampled::sampled))]
pub fn samples_in_window()
    ensures { (s : Selection) (v : View) (rate : Ratio) (i : ℕ) → IsOfChannels s.channels (key_at v.bytes)
        → HasSampleIn s.from s.until v rate i → IsAskedFor s v }
{}

/// A word is read as an instant exactly where it is a text of it: a date of the years 1900 to 2100 as the text of the
/// instant has it, by the month or by the day of the year, and of the time of day behind it as much as isn't zeros that
/// may be left out, with a `Z` or without. Second 60 stands for the next minute's first.
pub fn times_exactly()
    ensures words { (word : List ℕ) (instant : ℤ) → ((time_of word ≡ Some instant) ↔ IsWordFor word instant) }

    // So the text that is written of each instant of these years is read as that instant.
    ensures shown { (instant : ℤ) → year_begins 1900 ≤ℤ instant → instant <ℤ year_begins 2101
        → time_of (time_text instant) ≡ Some instant }
{}
