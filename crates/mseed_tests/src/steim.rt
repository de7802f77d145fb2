//! Words by the manual's tables: expected values are worked by hand, and for the table of a hundred words
//! by `tests/models/steim_words.py`, a plain Python program that cuts a word's 32 binary digits into fields.

mod ends;
mod frames;
mod integers;
mod memory;
mod packed;
mod packed_series;
mod record;
mod steim;
mod widen;
mod words;

use mseed_steim::{BadWord, Scheme, unpack_word};

/// Whether a word is read as a row says.
fn is_word((scheme, code, word, wanted): &words::Row) -> bool {
    match unpack_word(*scheme, *code % 4, *word) {
        Ok(found) => *wanted == Some(found.as_slice()),
        Err(BadWord) => wanted.is_none(),
    }
}

static WORKED: [words::Row; 18] = [
    (Scheme::One, 0, 0x0001_0101, Some(&[])),
    (Scheme::Two, 0, 0xC000_0000, Some(&[])),
    (Scheme::One, 1, 0x0001_0101, Some(&[0, 1, 1, 1])),
    (Scheme::Two, 1, 0x0001_0101, Some(&[0, 1, 1, 1])),
    (Scheme::One, 1, 0xFF7F_8000, Some(&[-1, 127, -128, 0])),
    (Scheme::Two, 1, 0xFF7F_8000, Some(&[-1, 127, -128, 0])),
    (Scheme::One, 2, 0x012C_0001, Some(&[300, 1])),
    (Scheme::One, 3, 0x8000_0000, Some(&[i32::MIN])),
    (Scheme::One, 3, 0x7FFF_FFFF, Some(&[i32::MAX])),
    (Scheme::Two, 2, 0x6000_0000, Some(&[-536_870_912])),
    (Scheme::Two, 2, 0x5FFF_FFFF, Some(&[536_870_911])),
    (Scheme::Two, 2, 0x8000_8001, Some(&[1, 1])),
    (Scheme::Two, 2, 0xD2C0_0401, Some(&[300, 1, 1])),
    (Scheme::Two, 3, 0x0000_0000, Some(&[0, 0, 0, 0, 0])),
    (Scheme::Two, 3, 0x4000_0000, Some(&[0, 0, 0, 0, 0, 0])),
    (Scheme::Two, 3, 0x801F_782E, Some(&[0, 1, -1, 7, -8, 2, -2])),
    // Bits 29 and 28 aren't judged.
    (Scheme::Two, 3, 0xB01F_782E, Some(&[0, 1, -1, 7, -8, 2, -2])),
    (Scheme::Two, 3, 0x9FFF_FFFF, Some(&[-1; 7])),
];

#[test]
fn reads_worked_words(rt: HostRuntime) {
    for word in &WORKED {
        assert!(rt; is_word(word), "{:08x}", word.2);
    }
}

/// Codes and words that have no row in Steim-2.
static BAD: [(u8, u32); 4] = [
    (2, 0x0000_0000),
    (2, 0x3FFF_FFFF),
    (3, 0xC000_0000),
    (3, 0xFFFF_FFFF),
];

/// Whether a word is bad in Steim-2, and read in Steim-1.
fn is_bad(code: u8, word: u32) -> bool {
    unpack_word(Scheme::Two, code % 4, word).is_err()
        && unpack_word(Scheme::One, code % 4, word).is_ok()
}

#[test]
fn refuses_words_without_a_row(rt: HostRuntime) {
    for (code, word) in &BAD {
        assert!(rt; is_bad(*code, *word), "{word:08x}");
    }
}

#[test]
fn reads_a_hundred_words(rt: HostRuntime) {
    for word in &words::WORDS {
        assert!(rt; is_word(word), "{:08x}", word.2);
    }
}
