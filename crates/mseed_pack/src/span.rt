//! The samples between leap seconds.
ghost use Rattle.std.specs.Prelude.{◌≡◌, ◌<◌};
ghost use Rattle.mseed_audit.specs.Series.{AreSteps};
ghost use Rattle.mseed_pack.specs.private.Spans.{IsSpan};

use crate::clock::SECOND;
use mseed_time::LeapStep;

/// Samples with no leap second among them.
#[derive(Clone, Copy)]
pub(crate) struct Span {
    /// How many leap seconds are before it.
    pub(crate) passed: usize,
    /// The microseconds that they added.
    pub(crate) added: i128,
    /// How many samples are before its first one.
    pub(crate) begin: usize,
    /// How many samples are before the first one after it.
    pub(crate) end: usize,
}

/// The samples before the first leap second.
#[tactic(auto, using(crate::proofs::Steps::ended))]
pub(crate) fn first_span(steps: &[(u64, LeapStep)], size: usize) -> Span
    requires { AreSteps size steps.now }
    ensures span { IsSpan steps.now size result }
    ensures begin { result.begin ≡ 0 }
{
    Span {
        passed: 0,
        added: 0,
        begin: 0,
        end: end_of(steps, 0, size),
    }
}

/// The samples after the leap second at the end of a span.
pub(crate) fn next_span(steps: &[(u64, LeapStep)], size: usize, span: Span) -> Span
    requires span { IsSpan steps.now size span }
    requires more { span.end < size }
    ensures span { IsSpan steps.now size result }
    ensures begin { result.begin ≡ span.end }
{
    let added = match steps[span.passed].1 {
        LeapStep::Plus => span.added + SECOND as i128,
        LeapStep::Minus => span.added - SECOND as i128,
    };
    let passed = span.passed + 1;
    Span {
        passed,
        added,
        begin: span.end,
        end: end_of(steps, passed, size),
    }
}

ghost use Rattle.std.specs.Prelude.{drop};
ghost use Rattle.mseed_pack.specs.private.Spans.{end_by};

/// The end of the span before a leap second, or of the last one.
fn end_of(steps: &[(u64, LeapStep)], passed: usize, size: usize) -> usize
    ensures { result ≡ end_by (drop passed steps.now) size }
{
    match steps.get(passed) {
        Some((place, _)) => *place as usize,
        None => size,
    }
}
