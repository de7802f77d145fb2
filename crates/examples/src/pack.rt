//! Calls of `mseed_pack`.
ghost use Rattle.std.specs.Prelude.{◌<◌, ℕ, List, length, IsOk};
ghost use Rattle.mseed_audit.specs.Series.{AreSteps};
ghost use Rattle.mseed_pack.specs.Fitting.{Fits};
ghost use Rattle.mseed_pack.specs.Options.{IsSteim};
ghost use Rattle.mseed_pack.specs.Packing.{IsPacking};
ghost use Rattle.mseed_pack.specs.Traces.{trace_of};

use mseed_audit::Series;
use mseed_pack::{
    BadOption, Encoding, Listed, Options, PackFault, Packer, SeriesHead, SeriesView, Supply,
    a_packing_exists, fit, fit_head, fit_view, overwrite, pack, pack_into, pack_view,
};
use mseed_record::Codes;
use mseed_stream::{Counted, Sink};
use mseed_time::{Micros, Rate};
use std::alloc::Global;

/// Records of 512 bytes in Steim-2, numbered from 1.
pub fn usual_options() -> Result<Options, BadOption>
    ensures { IsOk result }
{
    Options::new(9, 11, 1)
}

/// Records of 512 bytes in an encoding that is chosen, numbered from 1.
pub fn options_in(encoding: Encoding) -> Result<Options, BadOption> {
    Options::new(9, encoding.code(), 1)
}

/// Whether an encoding is one that is written.
pub fn is_written(code: u8) -> bool {
    Encoding::of(code).is_some()
}

/// The options of a second series, whose records are numbered on after those of a first one.
pub fn options_after(options: &Options, records: u64) -> Options {
    options.after(records)
}

/// The records of a series, one after another.
pub fn packed(alloc: Global, series: &Series, options: &Options) -> Result<Vec<u8>, PackFault> {
    let mut sink = Counted::new(Vec::new(alloc));
    pack(series, options, &mut sink)?;
    Ok(sink.into_inner())
}

/// Whether a series can be packed.
pub fn can_be_packed(series: &Series, options: &Options) -> bool {
    fit(series, options).is_ok()
}

/// Packs samples where they lie, and says how many records there are.
pub fn pack_samples<W: Sink>(
    samples: &[i32],
    codes: Codes,
    start: Micros,
    rate: Rate,
    options: &Options,
    sink: &mut W,
) -> Result<u64, PackFault> {
    let view = SeriesView {
        codes,
        start,
        rate,
        samples,
        steps: &[],
    };
    pack_view(&view, options, sink)
}

/// Packs two series where both fit, so that nothing is written unless all can be.
pub fn pack_both<W: Sink>(
    one: &Series,
    other: &Series,
    options: &Options,
    sink: &mut W,
) -> Result<bool, PackFault> {
    let (one, other) = (SeriesView::of(one), SeriesView::of(other));
    fit_view(&one, options)?;
    fit_view(&other, options)?;
    let mut packer = Packer::new();
    let is_first = packer.pack_fitting(&one, options, sink).is_ok();
    Ok(is_first && packer.pack_fitting(&other, options, sink).is_ok())
}

/// Packs a series into bytes that are there already, as far as they go, and says how many records there are.
pub fn pack_over(series: &Series, options: &Options, bytes: &mut [u8]) -> Result<u64, PackFault> {
    let view = SeriesView::of(series);
    fit_view(&view, options)?;
    Ok(pack_into(&view, options, bytes))
}

/// Writes a text over some bytes, as far as they go.
pub fn put_text(text: &[u8], bytes: &mut [u8]) {
    overwrite(text, bytes);
}

/// The samples of a list, at most `most` at once.
#[derive(Clone, Copy)]
pub struct Pieces<'a> {
    /// The list, and how many of its samples were given.
    pub rest: Listed<'a>,
    /// How many at once: at least 1.
    pub most: usize,
}

impl<'a> Supply for Pieces<'a> {
    ghost supplies = { λ s samples given.
        (0 < s.most) × ⟦<Listed<'static> as Supply>⟧.supplies s.rest samples given };

    fn fill(&mut self, out: &mut [i32]) -> usize {
        let most = self.most.min(out.len());
        self.rest.fill(&mut out[..most])
    }
}

/// The sample of the last difference that was given, where it is at hand.
pub fn last_given(pieces: &Pieces<'_>) -> Option<i32> {
    pieces.last()
}

/// Packs a series that fits in a Steim encoding, of which 100 samples come at once.
pub fn pack_in_pieces<W: Sink>(
    series: &SeriesView,
    options: &Options,
    sink: &mut W,
) -> Result<u64, u128>
    requires fits { Fits (trace_of series.now) options.now }
    requires steps { AreSteps (length series.now.samples.now) series.now.steps.now }
    requires steim { IsSteim options.now.encoding }
{
    let rest = Listed::of(series.samples);
    let mut pieces = Pieces { rest, most: 100 };
    Packer::new().pack_supplied(&series.head(), options, &mut pieces, sink)
}

/// Whether a series can be packed whose samples aren't there yet, where the encoding holds them.
pub fn could_be_packed(head: &SeriesHead) -> bool
    requires { AreSteps head.now.count head.now.steps.now }
{
    fit_head(head).is_ok()
}

/// Packs a series that fits, for a proof that speaks of its packing.
pub fn packs(series: &SeriesView, options: &Options)
    requires fits { Fits (trace_of series.now) options.now }
    requires steps { AreSteps (length series.now.samples.now) series.now.steps.now }
    ensures { (records : List (List ℕ)) × IsPacking (trace_of series.now) options.now records }
{
    a_packing_exists(series, options);
}
