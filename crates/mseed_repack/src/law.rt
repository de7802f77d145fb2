//! Laws of packing an archive anew.
ghost use Rattle.std.specs.Prelude.{⊤, ◌≡◌, ◌≢◌, ◌↔◌, ◌∷◌, ◌++◌, ℕ, ℤ, Bool, List, [], Result, Ok, None, Some};
ghost use Rattle.std.specs.List.{AllByRecursion};
ghost use Rattle.mseed_record.specs.Selection.{everything};
ghost use Rattle.mseed_record.specs.View.{View, IsView, start_of};
ghost use Rattle.mseed_audit.specs.Follows.{AllNeighbours, IsContinuous};
ghost use Rattle.mseed_audit.specs.declared.finding.Why.TheVariants.{Gap, Overlap};
ghost use Rattle.mseed_repack.specs.Stretches.{samples_of};
ghost use Rattle.mseed_steim.specs.Spelling.{IsWithin};
ghost use Rattle.mseed_steim.specs.declared.encoding.Encoding.{Encoding};
ghost use Rattle.mseed_pack.specs.Fitting.{IsDifferenceOf, IsSampleOf};
ghost use Rattle.mseed_pack.specs.declared.options.Options.{Options};
ghost use Rattle.mseed_stream.specs.Device.{BytesRead, BytesWritten};
ghost use Rattle.mseed_repack.specs.OneRepacking.{ComeToOne};
ghost use Rattle.mseed_repack.specs.ReadBack.{IsReadBack};
ghost use Rattle.mseed_repack.specs.Borders.{AreReadAs, IsClose, IsFoundAfter, IsStretchedArchive, LeavesGap};
ghost use Rattle.mseed_repack.specs.Borders.{Overlaps};
ghost use Rattle.mseed_repack.specs.ByStretches.{AreStretched, EachRestretching, IsRestretching};
ghost use Rattle.mseed_repack.specs.Misfits.{difference_bits, sample_bits};
ghost use Rattle.mseed_repack.specs.Repack.{Channel, IsRepacking};
ghost use Rattle.mseed_repack.specs.Restretch.{ChannelFits, IsChannelPacked};
ghost use Rattle.mseed_repack.specs.Selected.{IsSelectedRepacking, IsSelectedRestretching};
ghost use Rattle.mseed_repack.specs.StretchesReadBack.{IsChannelReadBack, IsStretchedBack};
ghost use Rattle.mseed_repack.specs.declared.fault.RepackFault.{RepackFault};
ghost use Rattle.mseed_repack.specs.declared.refusing.LeftOut.{LeftOut};

use crate::stretch_law::{instants_stay_near, one_list_of_stretches, stretches_are_continuous};
use mseed_audit::{continuous_exactly, one_finding, one_list_of_verdicts, one_series};
use mseed_pack::{archive_reads_back, one_misfit, one_packing, reads_back};
use mseed_record::header_reads_back;
use mseed_steim::one_reading;
use mseed_steim_pack::packed_spells;
use mseed_stream::one_input;

/// What was read of an input, packed anew by some options, comes to one text or to one fault, but where memory was
/// refused; an output that fails takes a prefix of that text; and of what two outputs accepted that failed, one is a
/// prefix of the other.
pub fn one_repacking()
    ensures { (options : Options) (read : BytesRead) (result other : Result ⊤ RepackFault)
        (old new before after : BytesWritten)
        → IsRepacking options result read old new → IsRepacking options other read before after
        → ComeToOne result other old new before after }
{
    one_input();
    one_list_of_verdicts();
    one_finding();
    one_series();
    one_packing();
    one_misfit();
}

/// Where all records are asked for, packing those that are asked for is packing the archive: it comes to the same, and
/// of records that lack a time nothing is reported.
pub fn all_are_packed()
    ensures whole { (options : Options) (result : Result ⊤ RepackFault) (read : BytesRead)
        (old new reported_old reported_new : BytesWritten)
        → IsSelectedRepacking everything options result read old new reported_old reported_new
        → IsRepacking options result read old new × (reported_new ≡ reported_old) }
    ensures stretches { (options : Options) (leave : Bool) (result : Result LeftOut RepackFault) (read : BytesRead)
        (old new reported_old reported_new : BytesWritten)
        → IsSelectedRestretching everything options leave result read old new reported_old reported_new
        → IsRestretching options leave result read old new reported_old reported_new }
{}

/// What was written when an archive was packed anew reads back: it is an archive, whose audit calls each channel
/// continuous, and whose series are those of the input; and packing it anew by the same options comes to the same text.
pub fn repacked_reads_back()
    ensures { (options : Options) (read : BytesRead) (old new : BytesWritten)
        → IsRepacking {U = ⊤} options (Ok tt) read old new → IsReadBack options read old new }
{
    reads_back();
    archive_reads_back();
    continuous_exactly();
    one_series();
    one_repacking();
}

/// A channel is packed by its stretches into one list of records, and the channels of an archive into one text.
pub fn one_channel_packing()
    ensures channel { (o : Options) (vs : List View) (records others : List (List ℕ))
        → IsChannelPacked o vs records → IsChannelPacked o vs others → records ≡ others }
    ensures archive { (o : Options) (views : List View) (channels : List Channel) (text other : List ℕ)
        → AreStretched o views channels text → AreStretched o views channels other → text ≡ other }
{
    one_list_of_stretches();
    one_series();
    one_packing();
}

/// What a channel is packed into by its stretches reads back: the records of each stretch as its series, which begins
/// at its first record's start, so that no sample is further than a quarter of its period from where its own record has
/// it; and the samples of all stretches, one after another, are those of the channel's records, each once, in order.
pub fn stretches_read_back()
    ensures channel { (o : Options) (vs : List View) (records : List (List ℕ)) → AllByRecursion IsView vs
        → ChannelFits o vs → IsChannelPacked o vs records → IsChannelReadBack vs records }
    // And what is written of an archive: of each channel that fits, in its place.
    ensures archive { EachRestretching IsStretchedBack }
{
    reads_back();
    one_series();
    one_list_of_stretches();
    stretches_are_continuous();
    instants_stay_near();
}

/// What is written of a channel by its stretches is continuous where the channel nearly is, and shows each wide gap and
/// overlap. Of two neighbours in one stretch each is within a quarter of a period of the stretch's clock; of two in two
/// stretches the border moves by a quarter at most, and by less than a microsecond where a start is rounded down.
pub fn borders_are_kept()
    // Where each record has the same rate and begins within a quarter of a sample period, less a microsecond, of the
    // last one's end, its leap second put in, what is written is continuous.
    ensures continuous { (o : Options) (vs : List View) (records : List (List ℕ)) → AllByRecursion IsView vs
        → ChannelFits o vs → IsChannelPacked o vs records → vs ≢ [] → AllNeighbours IsClose vs
        → AreReadAs IsContinuous records }
    // Where one begins three quarters of a period and a microsecond after it, or later, a gap is found in what is
    // written, after as many samples.
    ensures gap { (o : Options) (vs : List View) (records : List (List ℕ)) (leading : List View) (b v : View)
        (back : List View) → AllByRecursion IsView vs → ChannelFits o vs → IsChannelPacked o vs records
        → vs ≡ leading ++ b ∷ (v ∷ back) → LeavesGap b v
        → AreReadAs (IsFoundAfter (λ us. Gap us) (samples_of (leading ++ b ∷ [])) (start_of v)) records }
    // And an overlap, where one begins so early.
    ensures overlap { (o : Options) (vs : List View) (records : List (List ℕ)) (leading : List View) (b v : View)
        (back : List View) → AllByRecursion IsView vs → ChannelFits o vs → IsChannelPacked o vs records
        → vs ≡ leading ++ b ∷ (v ∷ back) → Overlaps b v
        → AreReadAs (IsFoundAfter (λ us. Overlap us) (samples_of (leading ++ b ∷ [])) (start_of v)) records }
    // What is written of an archive is an archive of the channels that fit, and so is each of them in it.
    ensures archive { EachRestretching IsStretchedArchive }
{
    header_reads_back();
    packed_spells();
    one_reading();
    one_input();
    one_series();
    one_list_of_stretches();
}

/// What is said of a sample or a difference that an encoding doesn't hold names the numbers that it does hold: those of
/// the bits that are named and no others. Where no bits are named, it holds any difference.
pub fn named_numbers_are_held()
    ensures samples { (e : Encoding) (z : ℤ) → IsSampleOf e z ↔ IsWithin (sample_bits e) z }
    ensures differences { (e : Encoding) (bits : ℕ) (z : ℤ) → difference_bits e ≡ Some bits
        → (IsDifferenceOf e z ↔ IsWithin bits z) }
    ensures any { (e : Encoding) (z : ℤ) → difference_bits e ≡ None → IsDifferenceOf e z }
{}
