//! Calls of `mseed_files`.
use mseed_files::{Chain, Files, Place, STANDARD_INPUT, System, find_unreadable};
use mseed_stream::Source;
use std::alloc::{Alloc, AllocError, Global};
use std::fs;

/// Whether each of these arguments names a file of the system that can be read.
pub fn can_be_read<R: fs::Files + Alloc>(rt: &R, words: &[&[u8]]) -> bool {
    find_unreadable(&System::new(rt), words).is_none()
}

/// Reads once of the files that arguments name, and says how many bytes came, and from which file.
pub fn first_bytes<F: Files>(
    alloc: Global,
    files: &mut F,
    words: &[&[u8]],
    buf: &mut [u8],
) -> Result<(u64, Option<Place>), AllocError> {
    let mut chain = Chain::new(alloc, files, words, 4096)?;
    let _ = chain.pull(buf);
    let bytes = chain.bytes_read();
    Ok((bytes, chain.place_of(0)))
}

/// Which of the files that arguments name fails at the first read, if one does.
pub fn first_failed<F: Files>(
    alloc: Global,
    files: &mut F,
    words: &[&[u8]],
    buf: &mut [u8],
) -> Result<Option<usize>, AllocError> {
    let mut chain = Chain::new(alloc, files, words, 4096)?;
    match chain.pull(buf) {
        Ok(_) => Ok(None),
        Err(_) => Ok(chain.failed()),
    }
}

/// Why a file that arguments name couldn't be opened or read, in words.
pub fn why_failed<F: Files>(chain: &Chain<F>) -> &'static str {
    chain.reason().text()
}

/// Whether standard input can be opened and read, of a file that isn't empty.
pub fn reads_input<F: Files>(files: &mut F, buf: &mut [u8]) -> bool {
    if files.look_at(STANDARD_INPUT).is_some() {
        return false;
    }
    match files.open(STANDARD_INPUT) {
        Ok(mut input) => matches!(files.read(&mut input, buf), Ok(n) if n > 0),
        Err(_) => false,
    }
}
