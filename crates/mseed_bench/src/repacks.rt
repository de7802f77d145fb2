//! Archives packed anew.

use crate::archive::{Form, INTEGERS, USUAL, packed};
use crate::bench::{Bench, Rounds, Task, source_over};
use crate::failure::Failure;
use crate::scale::Scale;
use crate::shape::{dealt, with_gaps};
use mseed_pack::Options;
use mseed_repack::{LeftOut, repack, repack_stretches};
use mseed_stream::Counted;

/// Steim-2 in records of 4,096 bytes.
const LONG: Form = Form {
    encoding: 11,
    exponent: 12,
};

/// Packs an archive anew by these options; what is written goes into the digest.
#[derive(Drop)]
struct Repacking {
    options: Options,
}

/// Packs an archive anew by its stretches.
#[derive(Drop)]
struct Restretching {
    options: Options,
}

impl Task for Repacking {
    fn run(&mut self, bench: &mut Bench, archive: &[u8]) -> Result<(), Failure> {
        let mut source = source_over(bench.alloc, archive)?;
        let mut sink = Counted::new(Vec::new(bench.alloc));
        match repack(bench.alloc, &self.options, &mut source, &mut sink) {
            Ok(()) => bench.digest.bytes(sink.get_ref()),
            Err(_) => return Err(Failure::Refused),
        }
        Ok(())
    }
}

impl Task for Restretching {
    fn run(&mut self, bench: &mut Bench, archive: &[u8]) -> Result<(), Failure> {
        let mut source = source_over(bench.alloc, archive)?;
        let mut sink = Counted::new(Vec::new(bench.alloc));
        let mut errors = Counted::new(Vec::new(bench.alloc));
        let options = &self.options;
        match repack_stretches(
            bench.alloc,
            options,
            false,
            &mut source,
            &mut sink,
            &mut errors,
        ) {
            Ok(left) => bench.digest.number(left_out(left)),
            Err(_) => return Err(Failure::Refused),
        }
        bench.digest.bytes(sink.get_ref());
        bench.digest.bytes(errors.get_ref());
        Ok(())
    }
}

/// Packs day files, what a data logger holds and integers anew, and an archive with gaps by its stretches.
pub(crate) fn run(bench: &mut Bench) -> Result<(), Failure> {
    let samples = bench.scale.of(1_600_000, 40_000);
    let mut one = packed(bench, USUAL, samples, 9)?;
    repack_often(bench, &mut one, LONG)?;
    let mut logger = dealt(bench.alloc, &one, 512, 12)?;
    repack_often(bench, &mut logger, USUAL)?;
    repack_often(bench, &mut logger, INTEGERS)?;
    let mut integers = packed(bench, INTEGERS, samples / 2, 9)?;
    repack_often(bench, &mut integers, USUAL)?;
    let mut gaps = with_gaps(bench.alloc, &logger, 512, 50)?;
    let options = USUAL.options()?;
    bench.repeat(
        &mut gaps,
        rounds_of(bench.scale),
        &mut Restretching { options },
    )
}

/// Packs an archive of records of 512 bytes anew in each round. Another encoding of the same archive has another
/// network.
fn repack_often(bench: &mut Bench, archive: &mut [u8], form: Form) -> Result<(), Failure> {
    let options = form.options()?;
    let rounds = Rounds {
        first: usize::from(form.encoding).saturating_mul(100),
        ..rounds_of(bench.scale)
    };
    bench.repeat(archive, rounds, &mut Repacking { options })
}

/// The rounds with each archive, of records of 512 bytes.
fn rounds_of(scale: Scale) -> Rounds {
    Rounds::new(512, scale.of(30, 1))
}

/// A number for what was left out.
fn left_out(left: LeftOut) -> u64 {
    match left {
        LeftOut::Nothing => 0,
        LeftOut::Broken => 1,
        LeftOut::Misfit => 2,
    }
}
