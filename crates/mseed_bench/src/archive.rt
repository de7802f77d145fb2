//! Archives of one channel, packed from a trace.
ghost use Rattle.std.specs.Prelude.{◌<◌};

use crate::bench::Bench;
use crate::failure::Failure;
use crate::noise::trace;
use mseed_pack::{Options, SeriesView, pack_view};
use mseed_record::Codes;
use mseed_stream::Counted;
use mseed_time::{Micros, Rate};

/// How an archive is packed: the encoding's code in blockette 1000, and the exponent of the records' length, so that a
/// record has 2^exponent bytes (SEED Reference Manual 2.4, chapter 8).
#[derive(Clone, Copy)]
pub(crate) struct Form {
    pub(crate) encoding: u8,
    pub(crate) exponent: u8,
}

/// Steim-2 in records of 512 bytes.
pub(crate) const USUAL: Form = Form {
    encoding: 11,
    exponent: 9,
};

/// Steim-1 in records of 4,096 bytes.
pub(crate) const LONG_STEIM_1: Form = Form {
    encoding: 10,
    exponent: 12,
};

/// Integers of 32 bits in records of 512 bytes.
pub(crate) const INTEGERS: Form = Form {
    encoding: 3,
    exponent: 9,
};

impl Form {
    /// How many bytes a record has: 2^exponent, at most 4,096.
    pub(crate) fn size(self) -> usize {
        1 << self.exponent.min(12)
    }

    /// The options by which a series is packed so, from sequence number 1 on; `Refused` where there are none.
    pub(crate) fn options(self) -> Result<Options, Failure> {
        Options::new(self.exponent, self.encoding, 1).map_err(|_| Failure::Refused)
    }
}

/// An archive of so many samples of one channel at 100 Hz, from the start of 2024 on. Its differences come in passages
/// of 3 bits each, and of up to `bits` more. `Memory` where the samples have no room, `Refused` where they aren't
/// packed.
pub(crate) fn packed(
    bench: &mut Bench,
    form: Form,
    samples: usize,
    bits: u32,
) -> Result<Vec<u8>, Failure>
    requires some { 0 < bits }
    requires few { bits < 29 }
{
    let samples = trace(bench.alloc, &mut bench.noise, samples, bits)?;
    let (Some(start), Ok(rate)) = (Micros::new(1_704_067_200_000_000), Rate::of(100, 1)) else {
        return Err(Failure::Refused);
    };
    let series = SeriesView {
        codes: Codes::of_key(*b"XXSTA    BHZ"),
        start,
        rate,
        samples: &samples,
        steps: &[],
    };
    let mut sink = Counted::new(Vec::new(bench.alloc));
    match pack_view(&series, &form.options()?, &mut sink) {
        Ok(_) => Ok(sink.into_inner()),
        Err(_) => Err(Failure::Refused),
    }
}
