//! Series that are packed from a supply: the bytes are those that their list is packed into.
ghost use Rattle.std.specs.Prelude.{◌≤◌, length};
ghost use Rattle.mseed_audit.specs.Series.{AreSteps};
ghost use Rattle.mseed_pack.specs.Options.{IsSteim};

use mseed_pack::{Encoding, Listed, Options, Packer, SeriesView, Supply, fit_view};
use mseed_record::Codes;
use mseed_stream::Counted;
use mseed_time::{LeapStep, Micros, Rate};
use std::alloc::Global;
use std::process::Abort;

/// The number of samples that are made: several windows of them.
const SIZE: usize = 20_000;

/// How many samples come at once, by turns.
const TURNS: [usize; 3] = [1, 7, 100];

/// The samples of a list, of which few come at once.
#[derive(Clone, Copy)]
struct Turns<'a> {
    rest: Listed<'a>,
    turn: usize,
}

impl<'a> Supply for Turns<'a> {
    ghost supplies = { λ s samples given. ⟦<Listed<'static> as Supply>⟧.supplies s.rest samples given };

    fn fill(&mut self, out: &mut [i32]) -> usize {
        self.turn = self.turn.wrapping_add(1);
        let most = match TURNS.get(self.turn % 3) {
            Some(most) => *most,
            None => 1,
        };
        let most = most.max(1).min(out.len());
        self.rest.fill(&mut out[..most])
    }
}

/// A walk that comes back to 0, by steps of these widths in bits by turns, 500 of each: 1 to 28.
fn samples(widths: [u32; 8]) -> [i32; SIZE] {
    let mut samples = [0; SIZE];
    let mut state = 1u64;
    let mut last = 0i32;
    for index in 0..SIZE {
        state = state
            .wrapping_mul(6_364_136_223_846_793_005)
            .wrapping_add(1_442_695_040_888_963_407);
        let width = widths[index / 500 % 8] & 31;
        let step = ((state >> 32) as u32)
            .cast_signed()
            .wrapping_shr(32u32.wrapping_sub(width));
        last = last.wrapping_sub(last >> 2).wrapping_add(step);
        samples[index] = last;
    }
    samples
}

/// Whether a series is packed from a supply into the bytes, and as many records, that its list is packed into.
fn is_packed_alike(alloc: Global, view: &SeriesView, options: &Options) -> bool
    requires steps { AreSteps (length view.now.samples.now) view.now.steps.now }
    requires steim { IsSteim options.now.encoding }
{
    match fit_view(view, options) {
        Ok(()) => {}
        Err(_) => return false,
    }
    let mut packer = Packer::new();
    let mut listed = Counted::new(Vec::new(alloc));
    let count = packer.pack_fitting(view, options, &mut listed);
    let rest = Listed::of(view.samples);
    let mut supply = Turns { rest, turn: 0 };
    let mut supplied = Counted::new(Vec::new(alloc));
    let answer = packer.pack_supplied(&view.head(), options, &mut supply, &mut supplied);
    let (listed, supplied) = (listed.into_inner(), supplied.into_inner());
    answer == count
        && answer.is_ok()
        && !listed.is_empty()
        && listed.as_slice() == supplied.as_slice()
}

/// Whether that holds of samples of these widths, in records of this length.
fn are_packed_alike(rt: &impl Abort, alloc: Global, widths: [u32; 8], exponent: u8) -> bool
    requires low { 7 ≤ exponent }
    requires high { exponent ≤ 12 }
{
    let samples = samples(widths);
    let view = SeriesView {
        codes: Codes::of_key(*b"XXSTA    BHZ"),
        start: Micros::new(1_704_067_200_000_000).expect(rt, "a start"),
        rate: Rate::of(100, 1).expect(rt, "a rate"),
        samples: &samples,
        steps: &[(12_345, LeapStep::Plus)],
    };
    let one = Options {
        exponent,
        encoding: Encoding::Steim1,
        first_sequence: 999_999,
    };
    let two = Options {
        exponent,
        encoding: Encoding::Steim2,
        first_sequence: 1,
    };
    is_packed_alike(alloc, &view, &one) && is_packed_alike(alloc, &view, &two)
}

#[test]
fn packs_a_supply_as_its_list(rt: HostRuntime) {
    // Each width of a word of Steim-2, and those around it.
    let rows = [
        [4, 5, 6, 8, 10, 15, 28, 1],
        [3, 4, 5, 6, 7, 8, 9, 11],
        [28, 16, 15, 14, 10, 9, 1, 28],
    ];
    for (row, widths) in rows.iter().enumerate() {
        let are_alike = are_packed_alike(&rt, rt.alloc(), *widths, 7);
        assert!(rt; are_alike, "row {row}, 128 bytes");
        let are_alike = are_packed_alike(&rt, rt.alloc(), *widths, 9);
        assert!(rt; are_alike, "row {row}, 512 bytes");
        let are_alike = are_packed_alike(&rt, rt.alloc(), *widths, 12);
        assert!(rt; are_alike, "row {row}, 4096 bytes");
    }
}
