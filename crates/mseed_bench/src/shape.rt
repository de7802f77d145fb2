//! Other shapes of an archive: other channels, orders, starts, and faults.

use crate::failure::Failure;
use crate::noise::Noise;
use std::alloc::Global;

/// Where a header has the station, the network, the start's year and its hour: offsets in bytes (SEED Reference Manual
/// 2.4, chapter 8).
const STATION: usize = 8;

const NETWORK: usize = 18;

const YEAR: usize = 20;

const HOUR: usize = 24;

/// Where blockette 1000 has the order of the payload's words, and where the payload begins.
const WORD_ORDER: usize = 53;

const PAYLOAD: usize = 64;

/// The last byte of the last sample (Xn) in the first Steim frame of a record, whose payload begins at `PAYLOAD`.
const LAST: usize = 75;

/// Puts bytes into others from an offset on; those that would lie past the end are left out.
fn put(bytes: &mut [u8], offset: usize, other: &[u8]) {
    for (old, new) in bytes.iter_mut().skip(offset).zip(other) {
        *old = *new;
    }
}

/// The station of this number, in five letters, as a number to base 26.
pub(crate) fn station_of(number: usize) -> [u8; 5] {
    let mut left = number;
    let mut station = [b'A'; 5];
    for place in 0..5 {
        station[4 - place] = b'A' + (left % 26) as u8;
        left /= 26;
    }
    station
}

/// The records of one channel as those of `channels` stations, which alternate as records of a data logger do: each
/// station has as many neighbouring records as the others. `Memory` where there is no room for them.
pub(crate) fn dealt(
    alloc: Global,
    base: &[u8],
    size: usize,
    channels: usize,
) -> Result<Vec<u8>, Failure> {
    let mut archive = Vec::with_capacity(alloc, base.len())?;
    let records = base.len().checked_div(size).unwrap_or(0);
    let each = records.checked_div(channels).unwrap_or(0);
    for place in 0..each {
        for channel in 0..channels {
            let record = channel.saturating_mul(each).saturating_add(place);
            push_record(&mut archive, base, size, record)?;
            let begin = archive.len().saturating_sub(size);
            put(
                &mut archive,
                begin.saturating_add(STATION),
                &station_of(channel),
            );
        }
    }
    Ok(archive)
}

/// Appends the record of this index; `Refused` where the archive has none.
fn push_record(
    archive: &mut Vec<u8>,
    base: &[u8],
    size: usize,
    index: usize,
) -> Result<(), Failure> {
    let begin = index.saturating_mul(size);
    match base.get(begin..begin.saturating_add(size)) {
        Some(record) => Ok(archive.extend_from_slice(record)?),
        None => Err(Failure::Refused),
    }
}

/// The records of an archive in an order that looks random; `Memory` where there is no room for them.
pub(crate) fn shuffled(
    alloc: Global,
    noise: &mut Noise,
    base: &[u8],
    size: usize,
) -> Result<Vec<u8>, Failure> {
    let mut order = Vec::new(alloc);
    for index in 0..base.len().checked_div(size).unwrap_or(0) {
        order.push(index)?;
    }
    for index in 0..order.len() {
        let other = noise.below(index + 1);
        order.swap(index, other);
    }
    let mut archive = Vec::with_capacity(alloc, base.len())?;
    for index in order.iter() {
        push_record(&mut archive, base, size, *index)?;
    }
    Ok(archive)
}

/// An archive without the records whose index is a multiple of `every`; `Memory` where there is no room for it.
pub(crate) fn with_gaps(
    alloc: Global,
    base: &[u8],
    size: usize,
    every: usize,
) -> Result<Vec<u8>, Failure> {
    let mut archive = Vec::with_capacity(alloc, base.len())?;
    for index in 0..base.len().checked_div(size).unwrap_or(0) {
        if index.checked_rem(every) != Some(0) {
            push_record(&mut archive, base, size, index)?;
        }
    }
    Ok(archive)
}

/// Spoils an archive of Steim frames: every third record gets another last sample (Xn), and every seventh the hour 24,
/// which no day has.
pub(crate) fn spoil(archive: &mut [u8], size: usize) {
    for index in 0..archive.len().checked_div(size).unwrap_or(0) {
        let begin = index.saturating_mul(size);
        if index % 3 == 0 {
            put(archive, begin.saturating_add(LAST), &[255]);
        }
        if index % 7 == 0 {
            put(archive, begin.saturating_add(HOUR), &[24]);
        }
    }
}

/// Reverses the bytes of each integer of an archive of 32-bit ones, and notes in blockette 1000 that they are
/// little-endian.
pub(crate) fn swap_words(archive: &mut [u8], size: usize) {
    for index in 0..archive.len().checked_div(size).unwrap_or(0) {
        let begin = index.saturating_mul(size);
        put(archive, begin.saturating_add(WORD_ORDER), &[0]);
        let payload = begin.saturating_add(PAYLOAD);
        if let Some(payload) = archive.get_mut(payload..begin.saturating_add(size)) {
            let (words, _) = payload.as_chunks_mut::<4>();
            for word in words {
                word.reverse();
            }
        }
    }
}

/// Gives each record the network and the year of a number: no two of 2,600 numbers have the same.
pub(crate) fn redate(archive: &mut [u8], size: usize, number: usize) {
    let network = [b'A' + (number / 100 % 26) as u8, b'X'];
    for index in 0..archive.len().checked_div(size).unwrap_or(0) {
        put(
            archive,
            index.saturating_mul(size).saturating_add(NETWORK),
            &network,
        );
    }
    date(archive, size, number);
}

/// Gives each record the year of a number: no two of a hundred numbers have the same.
pub(crate) fn date(archive: &mut [u8], size: usize, number: usize) {
    let year = (1_970 + number % 100) as u16;
    for index in 0..archive.len().checked_div(size).unwrap_or(0) {
        let begin = index.saturating_mul(size);
        put(archive, begin.saturating_add(YEAR), &year.to_be_bytes());
    }
}
