//! Cutting records into stretches.
ghost use Rattle.std.specs.Prelude.{◌≡◌, [], IfNone, IfSome};
ghost use Rattle.mseed_repack.specs.private.Reading.{CanBeCut, IsCutOff};

use crate::stretch::Stretch;
use crate::walk::Walk;

/// How the records of a channel are cut.
#[derive(Clone, Copy)]
pub(crate) enum Cutting {
    /// Not at all: they are packed as one series.
    Whole,
    /// Into stretches.
    Stretches,
}

/// Cuts the first stretch off some records, each of which is sound, and returns how many records it has; or nothing,
/// where there are no records. No sample is read.
pub(crate) fn cut_stretch<'a, R: Walk<'a>>(records: &mut R) -> Option<usize>
    requires { CanBeCut R.leads R.left records.old }
    ensures none { IfNone result (R.left records.old ≡ []) }
    ensures some { IfSome result (λ count. IsCutOff R.leads R.left records.old count records.new) }
{
    let mut rest = *records;
    let mut stretch = match rest.next() {
        Some(first) => Stretch::begin(&first),
        None => return None,
    };
    *records = rest;
    while let Some(view) = rest.next() {
        if !stretch.goes_on(&view) {
            return Some(stretch.records as usize);
        }
        stretch = stretch.with(&view);
        *records = rest;
    }
    Some(stretch.records as usize)
}
