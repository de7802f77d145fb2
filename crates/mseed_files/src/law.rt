//! Laws of places.
ghost use Rattle.std.specs.Prelude.{◌≡◌, ℕ, List, Some, length};
ghost use Rattle.mseed_files.specs.ReaderState.{IsPlace, ReaderState, before};
ghost use Rattle.mseed_files.specs.declared.place.Place.{Place};

/// Where the bytes of the files that were opened are known, an offset has one place in them.
pub fn one_place()
    ensures { (s : ReaderState) (offset : ℕ) (all : List ℕ) (one other : Place)
        → before s.contents (length s.begins) ≡ Some all → IsPlace s offset one → IsPlace s offset other
        → one ≡ other }
{}
