//! Laws of packing.
ghost use Rattle.std.specs.Prelude.{◌≡◌, ◌≢◌, ◌⊎◌, ◌++◌, ◌^◌, ℕ, ℤ, List, [], length, IsTrue, Result, Ok, Err};
ghost use Rattle.std.specs.List.{AllByRecursion};
ghost use Rattle.mseed_record.specs.Header.{key_at};
ghost use Rattle.mseed_record.specs.View.{View};
ghost use Rattle.mseed_stream.specs.Device.{BytesWritten};
ghost use Rattle.mseed_audit.specs.declared.assembly.NotContinuous.{NotContinuous};
ghost use Rattle.mseed_audit.specs.declared.verdict.Verdict.{Verdict};
ghost use Rattle.mseed_audit.specs.Channels.{Placed, added_from, records_of, views_in};
ghost use Rattle.mseed_audit.specs.Follows.{IsContinuous};
ghost use Rattle.mseed_audit.specs.Series.{Trace, AreSteps, IsSeries, IsSeriesOf};
ghost use Rattle.mseed_audit.specs.Verdict.{IsVerdict, says_continuous};
ghost use Rattle.mseed_pack.specs.declared.fault.PackFault.{PackFault};
ghost use Rattle.mseed_pack.specs.declared.options.Options.{Options};
ghost use Rattle.mseed_steim.specs.declared.encoding.Encoding.TheVariants.{Steim2};
ghost use Rattle.mseed_pack.specs.FewestWords.{HasFewestWords};
ghost use Rattle.mseed_pack.specs.Fitting.{Fits, IsMisfit};
ghost use Rattle.mseed_pack.specs.Prefixes.{ArePrefixes, HaveTakenPrefixes};
ghost use Rattle.mseed_pack.specs.Outcome.{IsTrace, EmittedPrefix};
ghost use Rattle.mseed_pack.specs.Packing.{PacksUpTo, IsPacking};
ghost use Rattle.mseed_pack.specs.ReadBack.{AreApart, AreViewsOf, HaveSamples, IsAssembled, IsPartOf, IsTimedFrom};
ghost use Rattle.mseed_pack.specs.ReadBack.{Packed, ReadsAs, StandsIn, records_of_all};
ghost use Rattle.mseed_pack.specs.Traces.{trace_of};

use crate::lent::pack_into;
use crate::options::Options;
use crate::series_view::SeriesView;
use mseed_audit::{continuous_exactly, one_series};
use mseed_record::header_reads_back;
use mseed_steim::one_reading;
use mseed_steim_pack::{one_packing as one_run, packed_spells};
use mseed_stream::one_input;
use mseed_time::one_name;

/// A series is packed into one list of records, byte for byte; records that it is packed into up to some samples that
/// are left are a prefix of them; and of two such lists one is a prefix of the other.
pub fn one_packing()
    ensures whole { (s : Trace) (o : Options) (records others : List (List ℕ)) → IsPacking s o records
        → IsPacking s o others → records ≡ others }
    ensures prefix { (s : Trace) (o : Options) (prefix records : List (List ℕ)) (left : List ℤ)
        → PacksUpTo s o prefix left → IsPacking s o records
        → (rest : List (List ℕ)) × (records ≡ prefix ++ rest) }
    ensures prefixes { (s : Trace) (o : Options) (records others : List (List ℕ)) (left rest : List ℤ)
        → PacksUpTo s o records left → PacksUpTo s o others rest → ArePrefixes records others }
{
    one_run();
    one_name();
}

/// A series that fits its options has a packing: it is packed here, into no room.
pub fn a_packing_exists(series: &SeriesView, options: &Options)
    requires fits { Fits (trace_of series.now) options.now }
    requires steps { AreSteps (length series.now.samples.now) series.now.steps.now }
    ensures { (records : List (List ℕ)) × IsPacking (trace_of series.now) options.now records }
{
    pack_into(series, options, &mut []);
}

/// Where the packing of a series failed twice, each sink accepted a prefix of what the other one accepted, or the other
/// way round.
pub fn one_prefix()
    ensures { (s : Trace) (o : Options) (n m : ℕ) (old new before after : BytesWritten) → EmittedPrefix s o n old new
        → EmittedPrefix s o m before after → HaveTakenPrefixes old new before after }
{
    one_packing();
}

/// A series has one reason at most why it isn't packed, and none where it fits.
#[tactic(auto, using(crate::proofs::OneMisfit::one_misfit, crate::proofs::OneMisfit::no_misfit))]
pub fn one_misfit()
    ensures one { (s : Trace) (o : Options) (f g : PackFault) → IsMisfit s o f → IsMisfit s o g → f ≡ g }
    ensures none { (s : Trace) (o : Options) (f : PackFault) → Fits s o → ¬ (IsMisfit s o f) }
{}

/// The records that a series is packed into are all of the length that the options say.
pub fn one_length()
    ensures { (s : Trace) (o : Options) (records : List (List ℕ)) → IsPacking s o records
        → AllByRecursion (λ (r : List ℕ). length r ≡ 2 ^ o.exponent) records }
{}

/// The records that a series is packed into read back as the series: they are a continuous channel, and its
/// series is this one, leap seconds and rate pair included.
pub fn reads_back()
    ensures { (s : Trace) (o : Options) (records : List (List ℕ)) → IsTrace s → Fits s o → IsPacking s o records
        → ReadsAs s records }
{
    header_reads_back();
    packed_spells();
    one_reading();
    one_input();
}

/// Where an audit judges the records that a series is packed into, wherever they stand in an archive, it calls
/// their channel continuous; and what is assembled of them is the series, or there was no memory for it.
#[tactic(auto, using(crate::proofs::Called::called))]
pub fn called_continuous()
    ensures verdict { (s : Trace) (records : List (List ℕ)) (ps : List Placed) (verdict : Verdict)
        → ReadsAs s records → AreViewsOf records (views_in ps) → IsVerdict verdict ps
        → IsTrue (says_continuous verdict) }
    ensures series { (s : Trace) (records : List (List ℕ)) (ps : List Placed) (answer : Result Trace NotContinuous)
        → ReadsAs s records → AreViewsOf records (views_in ps) → IsSeries answer ps
        → (answer ≡ Ok s) ⊎ (answer ≡ Err NotContinuous.Memory) }
{
    continuous_exactly();
    one_series();
}

/// Where the records of several series stand one after another, no two of one channel, the records of each
/// channel are those that its series is packed into.
#[tactic(auto, using(crate::proofs::Archived::archived))]
pub fn archive_reads_back()
    ensures { (packed : List Packed) (views : List View)
        → AllByRecursion (λ (p : Packed). ReadsAs p.series p.records) packed → AreApart packed
        → AreViewsOf (records_of_all packed) views → AllByRecursion (StandsIn views) packed }
{}

/// Some records that stand one after another, of those that a series is packed into, are a continuous channel as well,
/// and their series is the part of it that they were packed from.
pub fn a_stretch_reads_back()
    ensures views { (s : Trace) (before held after : List (List ℕ)) → ReadsAs s (before ++ (held ++ after))
        → (views : List View) × AreViewsOf held views }
    ensures channel { (s : Trace) (before held after : List (List ℕ)) (views : List View)
        → ReadsAs s (before ++ (held ++ after)) → AreViewsOf held views
        → AllByRecursion (λ (v : View). key_at v.bytes ≡ s.codes) views }
    ensures continuous { (s : Trace) (before held after : List (List ℕ)) (views : List View)
        → ReadsAs s (before ++ (held ++ after)) → AreViewsOf held views → held ≢ [] → IsContinuous views }
    ensures part { (s part : Trace) (before held after : List (List ℕ)) (views : List View)
        → ReadsAs s (before ++ (held ++ after)) → AreViewsOf held views → IsSeriesOf part views
        → IsPartOf s before after part }
    ensures assembled { (s : Trace) (before held after : List (List ℕ)) (views : List View)
        (answer : Result Trace NotContinuous) → ReadsAs s (before ++ (held ++ after)) → AreViewsOf held views
        → held ≢ [] → IsSeries answer (records_of s.codes (added_from 0 views)) → IsAssembled answer views }
{
    one_series();
}

/// The series of records that stand one after another, of those that a series is packed into, begins at the instant of
/// the sample that it begins with, and has the series' rate and leap seconds.
pub fn a_stretch_keeps_time()
    ensures { (s part : Trace) (o : Options) (before held after : List (List ℕ)) (views : List View) (older : List ℤ)
        → IsTrace s → Fits s o → IsPacking s o (before ++ (held ++ after)) → AreViewsOf held views
        → IsSeriesOf part views → HaveSamples before older → IsTimedFrom s (length older) part }
{
    header_reads_back();
    packed_spells();
    one_reading();
    one_input();
    one_series();
}

/// Each record of a Steim-2 packing has as few data words in use as hold the differences of its samples
/// (SEED manual, appendix B).
pub fn fewest_words()
    ensures { (s : Trace) (o : Options) (records : List (List ℕ)) (packing : IsPacking s o records)
        → o.encoding ≡ Steim2 → AllByRecursion (HasFewestWords s) packing.pieces }
{
    packed_spells();
}
