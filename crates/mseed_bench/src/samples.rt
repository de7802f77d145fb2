//! Archives read to samples: record by record, and as the series of a channel.
ghost use Rattle.std.specs.Prelude.{◌≡◌};
ghost use Rattle.mseed_stream.specs.Device.{nothing_read};

use crate::archive::{INTEGERS, LONG_STEIM_1, USUAL, packed};
use crate::bench::{Bench, Rounds, Task, source_over};
use crate::digest::Digest;
use crate::failure::Failure;
use crate::shape::dealt;
use mseed_audit::{Series, series};
use mseed_record::RecordView;
use mseed_steim::fill_samples;
use mseed_stream::{Cutter, Source, split};
use std::alloc::Global;

/// Reads an archive of one channel as a series, which goes into the digest.
#[derive(Drop)]
struct Assembling;

/// Reads an archive record by record, each into the same room; the samples go into the digest.
#[derive(Drop)]
struct Reading {
    room: Vec<i32>,
}

impl Task for Assembling {
    fn run(&mut self, bench: &mut Bench, archive: &[u8]) -> Result<(), Failure> {
        let Ok(views) = split(bench.alloc, archive) else {
            return Err(Failure::Refused);
        };
        let Some(first) = views.first() else {
            return Err(Failure::Refused);
        };
        match series(bench.alloc, &views, &first.codes()) {
            Ok(series) => take_in(&series, &mut bench.digest),
            Err(_) => return Err(Failure::Refused),
        }
        Ok(())
    }
}

impl Task for Reading {
    fn run(&mut self, bench: &mut Bench, archive: &[u8]) -> Result<(), Failure> {
        let mut source = source_over(bench.alloc, archive)?;
        read_records(bench.alloc, &mut source, &mut self.room, &mut bench.digest)
    }
}

/// Reads archives of either Steim, of long records, of wide differences and of integers.
pub(crate) fn run(bench: &mut Bench) -> Result<(), Failure> {
    let samples = bench.scale.of(3_200_000, 40_000);
    let rounds = Rounds::new(512, bench.scale.of(48, 1));
    let mut room = Vec::new(bench.alloc);
    room.resize(1 << 16, 0)?;
    let mut reading = Reading { room };
    let mut one = packed(bench, USUAL, samples, 9)?;
    bench.repeat(&mut one, rounds, &mut Assembling)?;
    let mut logger = dealt(bench.alloc, &one, 512, 12)?;
    bench.repeat(&mut logger, rounds, &mut reading)?;
    let mut wide = packed(bench, USUAL, samples / 4, 24)?;
    bench.repeat(&mut wide, rounds, &mut reading)?;
    let mut first = packed(bench, LONG_STEIM_1, samples, 9)?;
    let rounds_of_long = Rounds::new(4_096, rounds.count);
    bench.repeat(&mut first, rounds_of_long, &mut reading)?;
    let mut integers = packed(bench, INTEGERS, samples / 4, 9)?;
    bench.repeat(&mut integers, rounds, &mut reading)
}

/// Takes a series into the digest: its codes, start, rate, samples, and how many leap seconds it has.
fn take_in(series: &Series, digest: &mut Digest) {
    digest.bytes(series.codes().key());
    digest.bytes(&series.start().get().to_le_bytes());
    digest.number(u64::from(series.rate().num()));
    digest.number(u64::from(series.rate().den()));
    digest.samples(series.samples());
    digest.number(series.steps().len() as u64);
}

/// Reads the samples of each record of a source into the room, and takes them into the digest. `Refused` where a record
/// has none, or the source a fault.
fn read_records<R: Source>(
    alloc: Global,
    source: &mut R,
    room: &mut [i32],
    digest: &mut Digest,
) -> Result<(), Failure>
    requires { R.read source.old ≡ nothing_read }
{
    let mut cutter = Cutter::new(alloc);
    for _record in 0..1_000_000u32 {
        match cutter.next(source)? {
            Some(view) => read_record(&view, room, digest)?,
            None => return Ok(()),
        }
    }
    Ok(())
}

/// Reads the samples of a record into the room, and takes them into the digest; `Refused` where it has none, or more
/// than there is room for.
fn read_record(view: &RecordView, room: &mut [i32], digest: &mut Digest) -> Result<(), Failure> {
    let count = usize::from(view.samples());
    if count == 0 || count > room.len() {
        return Err(Failure::Refused);
    }
    let samples = &mut room[..count];
    match fill_samples(view, samples) {
        Ok(()) => {
            digest.samples(samples);
            Ok(())
        }
        Err(_) => Err(Failure::Refused),
    }
}
