//! Packed words, worked by hand from the manual's tables.

use mseed_steim::Scheme;
use mseed_steim_pack::{Packed, TooLargeAt, least_words, pack_word, pack_words};

static DIFFERENCES: [i32; 5] = [300, 1, 1, 1, 1];

/// A scheme, the index of a difference, and the word that is packed from there on.
type Word = (Scheme, usize, (u8, u32, usize));

static WORDS: [Word; 5] = [
    (Scheme::Two, 0, (2, 0xD2C0_0401, 3)),
    (Scheme::Two, 3, (2, 0x8000_8001, 2)),
    (Scheme::One, 0, (2, 0x012C_0001, 2)),
    (Scheme::One, 2, (2, 0x0001_0001, 2)),
    (Scheme::One, 4, (3, 0x0000_0001, 1)),
];

/// Whether a word is packed as a row says.
fn is_packed((scheme, from, wanted): &Word) -> bool {
    *from < DIFFERENCES.len() && pack_word(*scheme, &DIFFERENCES[*from..]) == Ok(*wanted)
}

#[test]
fn packs_worked_words(rt: HostRuntime) {
    for (row, word) in WORDS.iter().enumerate() {
        assert!(rt; is_packed(word), "row {row}");
    }
}

/// A scheme, how many words the differences take in it, and the frame's first words.
type Frame = (Scheme, usize, &'static [u32]);

static FRAMES: [Frame; 2] = [
    (
        Scheme::Two,
        2,
        &[0x0280_0000, 0, 0, 0xD2C0_0401, 0x8000_8001],
    ),
    (
        Scheme::One,
        3,
        &[0x02B0_0000, 0, 0, 0x012C_0001, 0x0001_0001, 1],
    ),
];

/// Whether a frame has these words, and zeros after them.
fn has_words(frame: &[u8; 64], wanted: &[u32]) -> bool {
    (0..16).all(|index| word_at(frame, index) == wanted.get(index).copied().unwrap_or(0))
}

/// Whether a frame is packed as a row says.
fn is_frame_packed((scheme, words, wanted): &Frame) -> bool {
    let mut frame = [255; 64];
    pack_words(*scheme, &DIFFERENCES, &mut frame)
        == Ok(Packed {
            used: 5,
            words: *words,
        })
        && has_words(&frame, wanted)
}

#[test]
fn packs_worked_frames(rt: HostRuntime) {
    for (row, frame) in FRAMES.iter().enumerate() {
        assert!(rt; is_frame_packed(frame), "row {row}");
    }
}

/// Differences, and how few words they take.
static FEWEST: [(&[i32], Result<u64, TooLargeAt>); 7] = [
    (&[], Ok(0)),
    (&[300, 1, 1, 1, 1], Ok(2)),
    (&[8; 7], Ok(2)),
    (&[0, 0, 0, 0, 0, 0, 200], Ok(2)),
    (&[40; 6], Ok(2)),
    (&[0; 722], Ok(104)),
    (&[0, 536_870_912], Err(TooLargeAt { index: 1 })),
];

#[test]
fn counts_the_fewest_words(rt: HostRuntime) {
    for (row, (differences, wanted)) in FEWEST.iter().enumerate() {
        assert!(rt; least_words(differences) == *wanted, "row {row}");
    }
    let packed = pack_words(Scheme::Two, &[0, 536_870_912], &mut [0; 64]);
    assert!(rt; packed == Err(TooLargeAt { index: 1 }));
}

/// The word of packed frames at this index.
fn word_at(frames: &[u8], index: usize) -> u32 {
    match frames.as_chunks::<4>().0.get(index) {
        Some(bytes) => u32::from_be_bytes(*bytes),
        None => 0,
    }
}

/// Differences of many widths, in stretches of some of about one width.
fn many_widths() -> [i32; 700] {
    let mut diffs = [0; 700];
    let mut state = 1u32;
    for index in 0..700 {
        state = state.wrapping_mul(1_664_525).wrapping_add(1_013_904_223);
        let narrow = index / 9 * 5 % 23 + index % 4;
        diffs[index] = state.cast_signed() >> (2 + narrow);
    }
    diffs
}

/// Whether packed frames have a word at this index, and its code.
fn has_word(frames: &[u8], index: usize, code: u8, word: u32) -> bool {
    let codes = word_at(frames, index / 16 * 16);
    word_at(frames, index) == word && codes >> (30 - 2 * (index % 16)) & 3 == u32::from(code)
}

/// How many differences are used and words filled, if each word of packed frames is the fullest one of the differences
/// that are left.
fn packed_by_word(scheme: Scheme, diffs: &[i32], frames: &[u8]) -> Option<Packed> {
    let mut used = 0usize;
    let mut words = 0usize;
    for index in 3..1008 {
        let left = diffs.get(used..).unwrap_or(&[]);
        if index % 16 == 0 || left.is_empty() {
            continue;
        }
        let (code, word, count) = pack_word(scheme, left).ok()?;
        if !has_word(frames, index, code, word) {
            return None;
        }
        used = used.wrapping_add(count);
        words = words.wrapping_add(1);
    }
    Some(Packed { used, words })
}

/// Whether the differences of many widths are all packed, word by word.
fn packs_all(scheme: Scheme) -> bool {
    let diffs = many_widths();
    let mut frames = [255; 4032];
    match pack_words(scheme, &diffs, &mut frames) {
        Ok(packed) => packed.used == 700 && packed_by_word(scheme, &diffs, &frames) == Some(packed),
        Err(_) => false,
    }
}

#[test]
fn packs_as_word_by_word(rt: HostRuntime) {
    assert!(rt; packs_all(Scheme::One));
    assert!(rt; packs_all(Scheme::Two));
}
