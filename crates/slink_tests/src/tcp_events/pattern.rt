//! The bytes that go over links.

use std::alloc::{AllocError, Global};

/// No two bytes that are nearer to each other than this are alike.
const PERIOD: usize = 251;

/// So many bytes are had at once at most.
const LONGEST: usize = 1 << 18;

/// Of many bytes, so many at each end are looked at.
const LOOKED_AT: usize = 600;

/// The bytes that go over links: each has its own position among them, in each direction.
#[derive(Drop)]
pub(crate) struct Pattern {
    bytes: Vec<u8>,
}

impl Pattern {
    /// The pattern, once for all links.
    pub(crate) fn new(alloc: Global) -> Result<Pattern, AllocError> {
        let mut bytes = Vec::new(alloc);
        for index in 0..PERIOD + LONGEST {
            bytes.push((index % PERIOD) as u8)?;
        }
        Ok(Pattern { bytes })
    }

    /// So many bytes of one direction, after so many others.
    pub(crate) fn beyond(&self, direction: usize, others: usize, count: usize) -> &[u8] {
        let start = direction.wrapping_mul(83).wrapping_add(others) % PERIOD;
        let end = start.saturating_add(count.min(LONGEST));
        self.bytes.as_slice().get(start..end).unwrap_or(b"")
    }

    /// Whether these are the bytes of one direction after so many others: of many, those at both ends.
    pub(crate) fn is(&self, direction: usize, others: usize, bytes: &[u8]) -> bool {
        let wanted = self.beyond(direction, others, bytes.len());
        let last = bytes.len().saturating_sub(LOOKED_AT);
        bytes.len() == wanted.len()
            && bytes.get(..LOOKED_AT) == wanted.get(..LOOKED_AT)
            && bytes.get(last..) == wanted.get(last..)
    }
}
