//! What a series has besides its samples, and how it is packed.
ghost use Rattle.std.specs.Prelude.{◌≡◌, ◌≤◌, ◌<◌, List, ℕ, IfErr, IfOk, IfSome, IfNone};
ghost use Rattle.mseed_time.specs.declared.outcome.LeapStep.{LeapStep};
ghost use Rattle.mseed_c.specs.Heading.{HasLeap, IsRefusedFor, exponent_of};
ghost use Rattle.std.specs.Option.{option_to_list};
ghost use Rattle.mseed_c.specs.private.Parts.{AreParts};

use crate::codes::Refusal;
use mseed_pack::Options;
use mseed_time::{LeapStep, Micros, Rate};

/// What a series has besides its samples, and how it is packed.
#[repr(C)]
#[derive(Clone, Copy)]
pub struct Heading {
    /// The instant of the first sample, in microseconds from 1970-01-01T00:00:00.
    pub start: i64,
    /// How many samples stand before the leap second, 1 to all; not read where `leap` is 0.
    pub leap_after: u64,
    /// The sequence number of the first record: 0 to 999,999.
    pub sequence: u32,
    /// The length of each record in bytes: 128, 256, 512, 1024, 2048 or 4096.
    pub length: u16,
    /// The factor of the sample rate, not 0 (SEED Reference Manual 2.4, chapter 8, field 10).
    pub factor: i16,
    /// The multiplier of the sample rate, not 0 (chapter 8, field 11).
    pub multiplier: i16,
    /// How the samples are encoded: 1 and 3 are integers of 16 and 32 bits, 10 is Steim-1, 11 Steim-2.
    pub encoding: u8,
    /// The leap second: 0 for none, 1 for one that was inserted, 2 for one that was left out.
    pub leap: u8,
    /// The network, station, location and channel, 2, 5, 2 and 3 bytes, each filled with spaces.
    pub key: [u8; 12],
}

/// Returns the exponent e of a record's length of 2^e bytes; 0 for a length that isn't written.
fn exponent_of(length: u16) -> u8
    ensures { result ≡ exponent_of length }
{
    match length {
        128 => 7,
        256 => 8,
        512 => 9,
        1024 => 10,
        2048 => 11,
        4096 => 12,
        _ => 0,
    }
}

/// The values that a heading gives, each within its range.
#[derive(Clone, Copy)]
pub(crate) struct Parts {
    pub(crate) options: Options,
    pub(crate) start: Micros,
    pub(crate) rate: Rate,
    pub(crate) step: Option<(u64, LeapStep)>,
}

/// Returns the leap second of a heading, if it has one, with how many of the samples stand before it; `None` where it
/// is of no kind, or doesn't stand after 1 to all of the samples.
fn leap_of(heading: &Heading, samples: usize) -> Option<Option<(u64, LeapStep)>>
    ensures some { IfSome result (λ step. HasLeap heading.now samples (option_to_list step)) }
    ensures none { IfNone result ((steps : List (ℕ × LeapStep)) → HasLeap heading.now samples steps → ⊥) }
{
    let after = heading.leap_after;
    if heading.leap == 0 {
        return Some(None);
    }
    if heading.leap > 2 || after == 0 || after > samples as u64 {
        return None;
    }
    let step = if heading.leap == 1 {
        LeapStep::Plus
    } else {
        LeapStep::Minus
    };
    Some(Some((after, step)))
}

/// Returns the values that a heading gives for this number of samples.
///
/// # Errors
///
/// Why it is refused: the first reason that applies, in the order of [`Refusal`].
pub(crate) fn parts_of(heading: &Heading, samples: usize) -> Result<Parts, Refusal>
    ensures parts { IfOk result (λ parts. AreParts heading.now samples parts) }
    ensures refused { IfErr result (λ refusal. IsRefusedFor heading.now samples refusal) }
{
    let exponent = exponent_of(heading.length);
    let options = match Options::new(exponent, heading.encoding, heading.sequence) {
        Ok(options) => options,
        Err(bad) => return Err(Refusal::Option(bad)),
    };
    let Ok(rate) = Rate::of(heading.factor, heading.multiplier) else {
        return Err(Refusal::Rate);
    };
    let Some(start) = Micros::new(heading.start) else {
        return Err(Refusal::Start);
    };
    let Some(step) = leap_of(heading, samples) else {
        return Err(Refusal::Leap);
    };
    Ok(Parts {
        options,
        start,
        rate,
        step,
    })
}
