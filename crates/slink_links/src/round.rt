//! The tokens of a round with which there may be something to do.

use std::alloc::{AllocError, Global};

/// How many tokens have their bits in one word.
const WORD: usize = 64;

/// A set of tokens, so that a link that waits costs a round no time.
#[derive(Drop)]
pub(crate) struct Round {
    words: Vec<u64>,
}

impl Round {
    /// An empty set, with room for `count` tokens.
    ///
    /// # Errors
    ///
    /// Where there is no memory.
    pub(crate) fn new(alloc: Global, count: usize) -> Result<Self, AllocError> {
        let mut words = Vec::new(alloc);
        for _ in 0..count.div_ceil(WORD) {
            words.push(0)?;
        }
        Ok(Round { words })
    }

    /// Notes that there may be something to do with a token.
    pub(crate) fn add(&mut self, token: usize) {
        if let Some(word) = self.words.get_mut(token / WORD) {
            *word |= 1 << (token % WORD);
        }
    }

    /// Notes that there is nothing to do with a token.
    pub(crate) fn remove(&mut self, token: usize) {
        if let Some(word) = self.words.get_mut(token / WORD) {
            *word &= !(1 << (token % WORD));
        }
    }

    /// Returns the first token from this one on with which there may be something to do.
    pub(crate) fn next(&self, from: usize) -> Option<usize> {
        let first = from / WORD;
        for index in first..self.words.len() {
            let mut bits = self.words[index];
            if index == first {
                bits &= u64::MAX << (from % WORD);
            }
            if bits != 0 {
                let low = bits.trailing_zeros() as usize;
                return Some(index.saturating_mul(WORD).saturating_add(low));
            }
        }
        None
    }
}
