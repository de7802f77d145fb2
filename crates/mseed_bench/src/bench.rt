//! What a job is run with, and the rounds in which it goes over an archive.
ghost use Rattle.std.specs.Prelude.{◌≡◌, IfOk};
ghost use Rattle.mseed_stream.specs.Buffered.{read_through};
ghost use Rattle.mseed_stream.specs.Device.{nothing_read};

use crate::digest::Digest;
use crate::failure::Failure;
use crate::noise::Noise;
use crate::scale::Scale;
use crate::shape::redate;
use mseed_stream::Buffered;
use std::alloc::Global;
use std::io::BufReader;

/// So many bytes of an archive are read at once, as by the program.
const ROOM: usize = 1 << 17;

/// What a job is run with: an allocator, the scale of its archives, the numbers from which it makes them, and the
/// digest of all that comes of it.
#[derive(Drop)]
pub(crate) struct Bench {
    pub(crate) alloc: Global,
    pub(crate) scale: Scale,
    pub(crate) noise: Noise,
    pub(crate) digest: Digest,
}

/// How often a task is done with an archive, and the bytes of each of its records. The network and the year of a round
/// are those of its number, counted from `first`: no two of 2,600 numbers have the same.
#[derive(Clone, Copy)]
pub(crate) struct Rounds {
    pub(crate) size: usize,
    pub(crate) first: usize,
    pub(crate) count: usize,
}

/// What is done with an archive in each round.
pub(crate) trait Task {
    /// Does it once, and takes what comes of it into the digest. The error says whether memory was refused, or a call
    /// refused the archive.
    fn run(&mut self, bench: &mut Bench, archive: &[u8]) -> Result<(), Failure>;
}

impl Rounds {
    /// So many rounds, from number 0 on, with an archive of records of this many bytes.
    pub(crate) fn new(size: usize, count: usize) -> Rounds {
        Rounds {
            size,
            first: 0,
            count,
        }
    }
}

impl Bench {
    /// What jobs of this scale are run with: the digest is that of nothing, and the numbers are those of seed 0.
    pub(crate) fn new(alloc: Global, scale: Scale) -> Bench {
        Bench {
            alloc,
            scale,
            noise: Noise::new(0),
            digest: Digest::new(),
        }
    }

    /// Does a task with an archive in these rounds, each time with other networks and years. The first round that fails
    /// is the last one, and its failure is returned.
    pub(crate) fn repeat<T: Task>(
        &mut self,
        archive: &mut [u8],
        rounds: Rounds,
        task: &mut T,
    ) -> Result<(), Failure> {
        for round in 0..rounds.count {
            redate(archive, rounds.size, rounds.first.saturating_add(round));
            task.run(self, archive)?;
        }
        Ok(())
    }
}

/// A source that reads these bytes, 128 KiB at once; `Memory` where there is none for its buffer.
pub(crate) fn source_over(alloc: Global, bytes: &[u8]) -> Result<Buffered<&[u8]>, Failure>
    ensures { IfOk result (λ source. read_through source ≡ nothing_read) }
{
    match BufReader::with_capacity(alloc, ROOM, bytes) {
        Ok(reader) => Ok(Buffered::new(reader)),
        Err(_) => Err(Failure::Memory),
    }
}
