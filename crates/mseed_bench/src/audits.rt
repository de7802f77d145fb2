//! The audit of archives as networks keep them.

use crate::archive::{INTEGERS, LONG_STEIM_1, USUAL, packed};
use crate::bench::{Bench, Rounds, Task, source_over};
use crate::failure::Failure;
use crate::shape::{dealt, swap_words};
use mseed_audit::audit;
use mseed_stream::Counted;

/// Audits an archive; its text and its summary go into the digest.
#[derive(Drop)]
struct Auditing;

impl Task for Auditing {
    fn run(&mut self, bench: &mut Bench, archive: &[u8]) -> Result<(), Failure> {
        let mut source = source_over(bench.alloc, archive)?;
        let mut sink = Counted::new(Vec::new(bench.alloc));
        match audit(bench.alloc, &mut source, &mut sink) {
            Ok(summary) => bench.digest.summary(&summary),
            Err(_) => return Err(Failure::Memory),
        }
        bench.digest.bytes(sink.get_ref());
        Ok(())
    }
}

/// Audits day files of one channel, what a data logger and a ring hold, long records, and integers of either order.
pub(crate) fn run(bench: &mut Bench) -> Result<(), Failure> {
    let samples = bench.scale.of(3_200_000, 40_000);
    let rounds = Rounds::new(512, bench.scale.of(120, 1));
    let mut one = packed(bench, USUAL, samples, 9)?;
    let mut logger = dealt(bench.alloc, &one, 512, 12)?;
    let mut ring = dealt(bench.alloc, &one, 512, bench.scale.of(2_000, 20))?;
    bench.repeat(&mut one, rounds, &mut Auditing)?;
    bench.repeat(&mut logger, rounds, &mut Auditing)?;
    bench.repeat(&mut ring, rounds, &mut Auditing)?;
    let mut long = packed(bench, LONG_STEIM_1, samples, 9)?;
    let rounds_of_long = Rounds::new(4_096, rounds.count);
    bench.repeat(&mut long, rounds_of_long, &mut Auditing)?;
    let mut integers = packed(bench, INTEGERS, samples / 4, 9)?;
    bench.repeat(&mut integers, rounds, &mut Auditing)?;
    swap_words(&mut integers, 512);
    let mut swapped = dealt(bench.alloc, &integers, 512, 12)?;
    bench.repeat(&mut swapped, rounds, &mut Auditing)
}
