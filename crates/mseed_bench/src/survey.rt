//! Damaged and awkward archives: every finding, and the list of the records.

use crate::archive::{Form, USUAL, packed};
use crate::bench::{Bench, Rounds, Task, source_over};
use crate::failure::Failure;
use crate::shape::{dealt, shuffled, spoil};
use mseed_audit::audit_each;
use mseed_select::show;
use mseed_stream::Counted;

/// Integers of 32 bits in records of 128 bytes.
const SHORT: Form = Form {
    encoding: 3,
    exponent: 7,
};

/// Audits an archive with every finding, and lists its records; both texts go into the digest.
#[derive(Drop)]
struct Surveying;

impl Task for Surveying {
    fn run(&mut self, bench: &mut Bench, archive: &[u8]) -> Result<(), Failure> {
        find(bench, archive)?;
        list(bench, archive)
    }
}

/// Surveys records out of order, records with bad starts and last samples, noise of wide differences, and ten thousand
/// channels of short records.
pub(crate) fn run(bench: &mut Bench) -> Result<(), Failure> {
    let samples = bench.scale.of(1_600_000, 40_000);
    let rounds = Rounds::new(512, bench.scale.of(60, 1));
    let one = packed(bench, USUAL, samples, 9)?;
    let logger = dealt(bench.alloc, &one, 512, 12)?;
    let mut mixed = shuffled(bench.alloc, &mut bench.noise, &logger, 512)?;
    bench.repeat(&mut mixed, rounds, &mut Surveying)?;
    let mut spoilt = one;
    spoil(&mut spoilt, 512);
    bench.repeat(&mut spoilt, rounds, &mut Surveying)?;
    let mut wide = packed(bench, USUAL, samples / 2, 24)?;
    bench.repeat(&mut wide, rounds, &mut Surveying)?;
    let samples = bench.scale.of(320_000, 3_200);
    let short = packed(bench, SHORT, samples, 9)?;
    let mut many = dealt(bench.alloc, &short, 128, bench.scale.of(10_000, 100))?;
    bench.repeat(
        &mut many,
        Rounds::new(128, rounds.count / 2),
        &mut Surveying,
    )
}

/// Audits an archive with every finding.
fn find(bench: &mut Bench, archive: &[u8]) -> Result<(), Failure> {
    let mut source = source_over(bench.alloc, archive)?;
    let mut sink = Counted::new(Vec::new(bench.alloc));
    match audit_each(bench.alloc, &mut source, &mut sink) {
        Ok(summary) => bench.digest.summary(&summary),
        Err(_) => return Err(Failure::Memory),
    }
    bench.digest.bytes(sink.get_ref());
    Ok(())
}

/// Lists an archive's records.
fn list(bench: &mut Bench, archive: &[u8]) -> Result<(), Failure> {
    let mut source = source_over(bench.alloc, archive)?;
    let mut sink = Counted::new(Vec::new(bench.alloc));
    match show(bench.alloc, &mut source, &mut sink) {
        Ok(fault) => bench.digest.number(u64::from(fault.is_some())),
        Err(_) => return Err(Failure::Memory),
    }
    bench.digest.bytes(sink.get_ref());
    Ok(())
}
