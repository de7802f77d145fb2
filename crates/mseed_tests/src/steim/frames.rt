//! Samples of made payloads, compared with sums of one difference after another: words of every row and damaged
//! ones, few samples and many, and first samples within the reach of one to sixteen frames of both limits. Records of
//! 31 frames are read in runs of up to fifteen, before and after frames with wide differences.

use super::record::{STEIM_1, is_read_in, record};
use crate::records::put;
use mseed_record::RecordView;
use mseed_steim::{Differences, ReadFault, Scheme};
use std::process::Abort;

/// How many payloads of three frames are made of each scheme, and the most samples of one.
const SHORT: (u32, u16) = (20_000, 300);

/// How many payloads of 31 frames are made of each scheme, and the most samples of one.
const LONG: (u32, u16) = (2_000, 2_400);

/// Numbers from which payloads are made.
const SEED: u64 = 0x2545_F491_4F6C_DD1D;

const OTHER_SEED: u64 = 0x9E37_79B9_7F4A_7C15;

/// Places for as many samples as 31 frames of any words have.
const MOST: usize = 4096;

/// Which words a payload has.
#[derive(Clone, Copy, PartialEq, Eq)]
enum Words {
    /// Narrow differences alone.
    Narrow,
    /// Some frames have words with one difference of 17 to 20 bits.
    SomeWide,
    /// Any code and any bits: some spell nothing, some have differences of up to 30 or 32 bits.
    Any,
}

/// The words of a round.
fn words_of(round: u32) -> Words {
    match round % 8 {
        0 => Words::Any,
        1 | 2 | 3 => Words::SomeWide,
        _ => Words::Narrow,
    }
}

/// The next of a sequence of numbers that look like random ones (xorshift, by Marsaglia).
fn next_number(number: u64) -> u64 {
    let number = number ^ (number << 13);
    let number = number ^ (number >> 7);
    number ^ (number << 17)
}

/// A code, and a word of it that has narrow differences in this scheme.
fn tame(scheme: Scheme, code: u32, word: u32) -> (u32, u32) {
    let bits = word & 0x3FFF_FFFF;
    match (scheme, code) {
        (Scheme::One, 3) => (1, word),
        (Scheme::Two, 2) => (2, bits | (2 + word % 2) << 30),
        (Scheme::Two, 3) => (3, bits | (word % 3) << 30),
        _ => (code, word),
    }
}

/// A code, and a word of it with one difference of 17 to 20 bits.
fn wide(scheme: Scheme, word: u32) -> (u32, u32) {
    let difference = (word.cast_signed() >> (12 + word % 4)).cast_unsigned();
    match scheme {
        Scheme::One => (3, difference),
        Scheme::Two => (2, difference & 0x3FFF_FFFF | 0x4000_0000),
    }
}

/// A code and a word of a number.
fn word_by(scheme: Scheme, words: Words, number: u64) -> (u32, u32) {
    let word = (number >> 32) as u32;
    let code = (number >> 8 & 3) as u32;
    match words {
        Words::Any => (code, word),
        Words::SomeWide if number & 7 == 0 => wide(scheme, word),
        _ => tame(scheme, code, word),
    }
}

/// Fills a frame by numbers from this one on, and gives the number after them.
fn fill_frame(frame: &mut [u8; 64], scheme: Scheme, words: Words, number: u64) -> u64 {
    let mut number = number;
    let mut codes = 0u32;
    for place in 1..16usize {
        number = next_number(number);
        let (code, word) = word_by(scheme, words, number);
        codes = codes << 2 | code & 3;
        put(frame, 4 * place, &word.to_be_bytes());
    }
    put(frame, 0, &codes.to_be_bytes());
    number
}

/// The words of one frame of a payload: of some with wide differences, one of four or so has any.
fn words_in_frame(words: Words, number: u64) -> Words {
    match words {
        Words::SomeWide if number >> 16 & 3 != 0 => Words::Narrow,
        _ => words,
    }
}

/// Fills the frames of a payload likewise.
fn fill(payload: &mut [u8], scheme: Scheme, words: Words, number: u64) -> u64 {
    let mut number = number;
    let mut frame = [0; 64];
    for index in 0..payload.len() / 64 {
        number = fill_frame(&mut frame, scheme, words_in_frame(words, number), number);
        put(payload, 64 * index, &frame);
    }
    number
}

/// Codes and words of Steim-1 whose differences are the least and the most of their width, in turn and alone.
static EDGES_ONE: [(u32, u32); 18] = [
    (1, 0x8080_8080),
    (1, 0x7F7F_7F7F),
    (1, 0x807F_807F),
    (1, 0x7F80_7F80),
    (1, 0xFFFF_FFFF),
    (1, 0x0101_0101),
    (1, 0x0000_0080),
    (1, 0x8000_0000),
    (1, 0x7FFF_FFFF),
    (2, 0x8000_8000),
    (2, 0x7FFF_7FFF),
    (2, 0x8000_7FFF),
    (2, 0x7FFF_8000),
    (2, 0xFFFF_FFFF),
    (2, 0x0001_0001),
    (2, 0x0000_8000),
    (2, 0x8000_0000),
    (2, 0x7FFF_FFFF),
];

/// Codes and words of each row of Steim-2 but that of 30 bits: the least of its width, the most, and both in turn.
static EDGES_TWO: [(u32, u32); 18] = [
    (1, 0x8080_8080),
    (1, 0x7F7F_7F7F),
    (1, 0x807F_807F),
    (2, 0xA000_4000),
    (2, 0x9FFF_BFFF),
    (2, 0xA000_3FFF),
    (2, 0xE008_0200),
    (2, 0xDFF7_FDFF),
    (2, 0xE007_FE00),
    (3, 0x2082_0820),
    (3, 0x1F7D_F7DF),
    (3, 0x207E_07E0),
    (3, 0x6108_4210),
    (3, 0x5EF7_BDEF),
    (3, 0x60F8_3E0F),
    (3, 0x8888_8888),
    (3, 0x8777_7777),
    (3, 0x8878_7878),
];

/// Fills a frame with these words one after another, from one of them on.
fn fill_edge_frame(frame: &mut [u8; 64], edges: &[(u32, u32); 18], from: usize) {
    let mut codes = 0u32;
    for place in 1..16usize {
        let (code, word) = edges[from.wrapping_add(place) % 18];
        codes = codes << 2 | code & 3;
        put(frame, 4 * place, &word.to_be_bytes());
    }
    put(frame, 0, &codes.to_be_bytes());
}

/// Three frames likewise.
fn edge_frames(edges: &[(u32, u32); 18], from: usize) -> [u8; 192] {
    let mut payload = [0; 192];
    let mut frame = [0; 64];
    for index in 0..3usize {
        fill_edge_frame(&mut frame, edges, from.wrapping_add(15 * index));
        put(&mut payload, 64 * index, &frame);
    }
    payload
}

/// A first sample: near a limit, near where the reach of one to sixteen frames to it ends, or anywhere.
fn first_by(number: u64) -> i32 {
    let some = (number >> 40 & 0xFFFF) as i32;
    let reach = 0x10_0000 * (1 + (number >> 56 & 15) as i32);
    match number % 5 {
        0 => i32::MAX - some,
        1 => i32::MIN + some,
        2 => i32::MAX - reach - 0x8000 + some,
        3 => i32::MIN + reach + 0x8000 - some,
        _ => ((number >> 16 & 0xFFFF_FFFF) as u32).cast_signed(),
    }
}

/// The next difference, or the fault where there is none after so many.
fn next_difference(items: &mut Differences<'_>, met: usize) -> Result<i32, ReadFault> {
    match items.next() {
        Some(Ok(difference)) => Ok(difference),
        Some(Err(bad)) => Err(ReadFault::BadWord(bad.frame, bad.word)),
        None => Err(ReadFault::Short(met)),
    }
}

/// Sums up a payload's differences from its first sample on, one after another, each into its place. An error is the
/// one of a record with as many samples as places.
fn sum_up(payload: &[u8], scheme: Scheme, first: i32, places: &mut [i32]) -> Result<(), ReadFault> {
    let mut items = Differences::over(payload, scheme);
    let (mut last, mut left) = (i64::from(first), None);
    for met in 0..places.len() {
        let difference = next_difference(&mut items, met)?;
        if 0 < met {
            last = last.saturating_add(i64::from(difference));
        }
        match i32::try_from(last) {
            Ok(sample) => places[met] = sample,
            Err(_) => left = left.or(Some(ReadFault::Overflow(met))),
        }
    }
    match left {
        Some(fault) => Err(fault),
        None => Ok(()),
    }
}

/// The exponent of the length of a record with so many bytes of payload; none that a record has for others.
fn exponent_of(payload: usize) -> u8 {
    match payload {
        192 => 8,
        1984 => 11,
        _ => 0,
    }
}

/// Puts a payload into a record, which ends with this sample.
fn put_payload(
    bytes: &mut [u8],
    payload: &[u8],
    scheme: Scheme,
    samples: u16,
    first: i32,
    last: i32,
) {
    let encoding = match scheme {
        Scheme::One => 10,
        Scheme::Two => 11,
    };
    put(bytes, 30, &samples.to_be_bytes());
    put(bytes, 52, &[encoding]);
    put(bytes, 54, &[exponent_of(payload.len())]);
    put(bytes, 64, payload);
    put(bytes, 68, &first.to_be_bytes());
    put(bytes, 72, &last.to_be_bytes());
}

/// Whether what is checked and filled in of a record of so many samples is this.
fn reads(
    bytes: &[u8],
    samples: u16,
    places: &mut [i32],
    wanted: Result<&[i32], ReadFault>,
) -> bool {
    match RecordView::of(bytes) {
        Ok(view) => view.samples() == samples && is_read_in(&view, places, wanted),
        Err(_) => false,
    }
}

/// Places for what is summed up of a record, and for what is filled in of it.
#[derive(Drop)]
struct Places {
    summed: [i32; MOST],
    filled: [i32; MOST],
}

impl Places {
    fn new() -> Self {
        Places {
            summed: [0; MOST],
            filled: [0; MOST],
        }
    }
}

/// Whether what is checked and filled in of a payload's record agrees with its sums.
fn is_same(payload: &[u8], scheme: Scheme, samples: u16, first: i32, places: &mut Places) -> bool {
    let count = usize::from(samples);
    if count == 0 || MOST < count {
        return false;
    }
    let summed = sum_up(payload, scheme, first, &mut places.summed[..count]);
    let mut bytes = [0; 2048];
    put(&mut bytes, 0, &record(&STEIM_1));
    let last = places.summed[count - 1];
    put_payload(&mut bytes, payload, scheme, samples, first, last);
    match summed {
        Ok(()) => {
            let wanted = &places.summed[..count];
            reads(&bytes, samples, &mut places.filled, Ok(wanted))
        }
        Err(fault) => reads(&bytes, samples, &mut places.filled, Err(fault)),
    }
}

/// Checks in so many rounds that made payloads of a scheme, of at most so many samples, agree, by numbers from this one
/// on. Gives the number after them.
fn assert_made(
    rt: &impl Abort,
    payload: &mut [u8],
    scheme: Scheme,
    (rounds, most): (u32, u16),
    number: u64,
) -> u64 {
    let mut places = Places::new();
    let mut number = number;
    for round in 0..rounds {
        number = next_number(fill(payload, scheme, words_of(round), number));
        let samples = 1 + (number >> 48) as u16 % most.max(1);
        let agrees = is_same(payload, scheme, samples, first_by(number), &mut places);
        assert!(rt; agrees, "{scheme:?}, {round}");
    }
    number
}

#[test]
fn reads_made_frames(rt: HostRuntime) {
    let number = assert_made(&rt, &mut [0; 192], Scheme::One, SHORT, SEED);
    assert_made(&rt, &mut [0; 192], Scheme::Two, SHORT, number);
}

#[test]
fn reads_runs_of_frames(rt: HostRuntime) {
    assert_made(&rt, &mut [0; 1984], Scheme::One, LONG, OTHER_SEED);
    assert_made(&rt, &mut [0; 1984], Scheme::Two, LONG, SEED);
}

/// Fills each word of a payload's frames with the same code and bits.
fn fill_alike(payload: &mut [u8], code: u32, word: u32) {
    for index in 0..payload.len() / 64 {
        let codes = code.wrapping_mul(0x1555_5555);
        put(payload, 64 * index, &codes.to_be_bytes());
        for place in 1..16usize {
            put(payload, 64 * index + 4 * place, &word.to_be_bytes());
        }
    }
}

/// Whether 31 frames of a word agree from first samples so far away from both limits.
fn is_steep_same(payload: &[u8], scheme: Scheme, away: i32, places: &mut Places) -> bool {
    let (high, low) = (i32::MAX.wrapping_sub(away), i32::MIN.wrapping_add(away));
    for samples in [300, 450, 926, 927] {
        for first in [high, low] {
            if !is_same(payload, scheme, samples, first, places) {
                return false;
            }
        }
    }
    true
}

/// Words of narrow differences that climb or fall as steeply as any.
static STEEP: [(Scheme, u32, u32); 4] = [
    (Scheme::One, 2, 0x7FFF_7FFF),
    (Scheme::One, 2, 0x8000_8000),
    (Scheme::Two, 2, 0x9FFF_BFFF),
    (Scheme::Two, 2, 0xA000_4000),
];

#[test]
fn climbs_to_the_limits_in_runs(rt: HostRuntime) {
    let mut places = Places::new();
    let mut payload = [0; 1984];
    for (scheme, code, word) in &STEEP {
        fill_alike(&mut payload, *code, *word);
        for frames in 1..17i32 {
            for more in [-1, 0, 1] {
                let away = (frames << 20).wrapping_add(more);
                let agrees = is_steep_same(&payload, *scheme, away, &mut places);
                assert!(rt; agrees, "{word} from {away} away");
            }
        }
    }
}

/// How many differences a payload has before the first word that spells nothing.
fn count_good(payload: &[u8], scheme: Scheme) -> u16 {
    let mut items = Differences::over(payload, scheme);
    for count in 0..4096u16 {
        match items.next() {
            Some(Ok(_)) => {}
            _ => return count,
        }
    }
    0
}

/// Puts a word of Steim-2 that spells nothing into a payload's last frame, at a place from 1 to 15.
fn spoil(payload: &mut [u8], place: usize) {
    let place = place % 16;
    if payload.len() < 64 {
        return;
    }
    let begin = payload.len() - 64;
    payload[begin + place / 4] |= 0xC0 >> (2 * (place % 4));
    put(payload, begin + 4 * place, &0xC000_0000u32.to_be_bytes());
}

/// Whether records agree that end shortly before the last difference of a payload, at it, and after it.
fn is_cut_same(payload: &[u8], scheme: Scheme, first: i32, places: &mut Places) -> bool {
    let good = count_good(payload, scheme);
    for less in [5, 1, 0] {
        let samples = good.saturating_sub(less);
        if samples != 0 && !is_same(payload, scheme, samples, first, places) {
            return false;
        }
    }
    is_same(payload, scheme, good.saturating_add(1), first, places)
}

/// Checks that a spoilt word in any place of the last frame of a payload is no fault after the last sample, and one
/// before it.
fn assert_spoilt(rt: &impl Abort, payload: &mut [u8], rounds: u32) {
    let mut places = Places::new();
    let mut number = OTHER_SEED;
    for round in 0..rounds {
        let words = if round % 2 == 0 {
            Words::SomeWide
        } else {
            Words::Narrow
        };
        for place in 1..16usize {
            number = next_number(fill(payload, Scheme::Two, words, number));
            spoil(payload, place);
            let agrees = is_cut_same(payload, Scheme::Two, first_by(number), &mut places);
            assert!(rt; agrees, "word {place} in round {round}");
        }
    }
}

#[test]
fn passes_by_words_behind_the_last_sample(rt: HostRuntime) {
    assert_spoilt(&rt, &mut [0; 192], 64);
    assert_spoilt(&rt, &mut [0; 1984], 8);
}

/// Whether a payload's record agrees for each number of samples up to what one frame more than the first can hold.
fn are_few_same(payload: &[u8], scheme: Scheme, first: i32, places: &mut Places) -> bool {
    for samples in 1..121u16 {
        if !is_same(payload, scheme, samples, first, places) {
            return false;
        }
    }
    true
}

#[test]
fn reads_fewer_samples_than_there_are(rt: HostRuntime) {
    let mut places = Places::new();
    let mut payload = [0; 192];
    let mut number = SEED;
    for round in 0..64u32 {
        for scheme in [Scheme::One, Scheme::Two] {
            number = next_number(fill(&mut payload, scheme, words_of(round), number));
            let agrees = are_few_same(&payload, scheme, first_by(number), &mut places);
            assert!(rt; agrees, "{round}");
        }
    }
}

/// Whether the edges from one on agree, few samples and many, from first samples of each kind.
fn are_same(scheme: Scheme, edges: &[(u32, u32); 18], from: usize) -> bool {
    let payload = edge_frames(edges, from);
    let mut places = Places::new();
    for samples in [1, 2, 50, 90, 120, 160, 300] {
        for first in [0, i32::MAX, i32::MIN, 1 << 30] {
            if !is_same(&payload, scheme, samples, first, &mut places) {
                return false;
            }
        }
    }
    true
}

#[test]
fn reads_the_edges_of_each_row(rt: HostRuntime) {
    for from in 0..18usize {
        assert!(rt; are_same(Scheme::One, &EDGES_ONE, from), "Steim-1, {from}");
        assert!(rt; are_same(Scheme::Two, &EDGES_TWO, from), "Steim-2, {from}");
    }
}
