//! Laws of stretches.
ghost use Rattle.std.specs.Prelude.{◌≡◌, ◌∷◌, List, Some};
ghost use Rattle.std.specs.List.{AllByRecursion};
ghost use Rattle.mseed_time.specs.Rate.{Ratio};
ghost use Rattle.mseed_record.specs.View.{View};
ghost use Rattle.mseed_audit.specs.Follows.{IsContinuous, IsSound};
ghost use Rattle.mseed_audit.specs.Judging.{known_rate};
ghost use Rattle.mseed_repack.specs.Stretches.{AllStayNear, AreStretches, IsFirstStretch, IsStretch};

/// Records are cut into stretches in one way: whether a record goes on is decided by those before it.
pub fn one_list_of_stretches()
    ensures first { (vs s t rest others : List View) → IsFirstStretch vs s rest → IsFirstStretch vs t others
        → (s ≡ t) × (rest ≡ others) }
    ensures all { (vs : List View) (ss ts : List (List View)) → AreStretches vs ss → AreStretches vs ts → ss ≡ ts }
{}

/// A stretch of sound records is continuous: two neighbours are each within a quarter of a period of its clock, and so
/// within half of one another.
pub fn stretches_are_continuous()
    ensures { (s : List View) → AllByRecursion IsSound s → IsStretch s → IsContinuous s }
{}

/// No sample of a stretch stands, by its clock, further than a quarter of its period from where its record has it.
pub fn instants_stay_near()
    ensures { (first : View) (rest : List View) (rate : Ratio) → IsStretch (first ∷ rest)
        → known_rate first ≡ Some rate → AllStayNear first rate (first ∷ rest) }
{}
