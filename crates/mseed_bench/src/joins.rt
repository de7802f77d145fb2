//! A night's join of the parts of many archives.
ghost use Rattle.std.specs.Prelude.{◌<ℤ◌, ◌≤ℤ◌, pos};

use crate::bench::{Bench, source_over};
use crate::failure::Failure;
use crate::noise::Noise;
use crate::shape::station_of;
use mseed_audit::{Channel, Finding, Findings, Head, Tail, Why};
use mseed_join::{FIRST_LINE, Form, join, push_channel_line, push_counts_line};
use mseed_record::{Codes, Leap};
use mseed_stream::Counted;
use mseed_time::{Micros, Ratio};
use std::alloc::Global;

/// The first instant of 2024, and the microseconds of a day.
const START: i64 = 1_704_067_200_000_000;

const DAY: i64 = 86_400_000_000;

/// Parts, one after another, and where their channels' lines begin.
#[derive(Drop)]
struct Parts {
    text: Vec<u8>,
    lines: Vec<usize>,
}

/// Joins the parts of some days of many channels, and of many short archives of some channels.
pub(crate) fn run(bench: &mut Bench) -> Result<(), Failure> {
    let (nights, channels) = (bench.scale.of(12, 3), bench.scale.of(10_000, 50));
    let mut nights = parts_of(bench.alloc, &mut bench.noise, nights, channels)?;
    join_often(bench, &mut nights, Form::Audit)?;
    let (pieces, channels) = (bench.scale.of(1_000, 20), bench.scale.of(100, 5));
    let mut pieces = parts_of(bench.alloc, &mut bench.noise, pieces, channels)?;
    join_often(bench, &mut pieces, Form::Part)
}

/// The parts of so many days, at most 1,000, of so many channels each; `Memory` where there is no room for them.
fn parts_of(
    alloc: Global,
    noise: &mut Noise,
    days: usize,
    channels: usize,
) -> Result<Parts, Failure> {
    let mut text = Vec::new(alloc);
    let mut lines = Vec::new(alloc);
    for day in 0..days.min(1_000) {
        text.extend_from_slice(FIRST_LINE)?;
        for number in 0..channels {
            lines.push(text.len())?;
            push_line(&mut text, noise, number, day as i64)?;
        }
        let records = noise.below(1 << 30) as u64;
        push_counts_line(&mut text, records, records.saturating_mul(512))?;
    }
    Ok(Parts { text, lines })
}

/// Adds the line of the channel of a number, on a day counted from 2024-01-01. What was there
/// stays before it, also after an error.
fn push_line(text: &mut Vec<u8>, noise: &mut Noise, number: usize, day: i64) -> Result<(), Failure>
    requires low { pos 0 ≤ℤ day }
    requires high { day <ℤ pos 1000 }
{
    match channel_of(noise, day) {
        Some(channel) => Ok(push_channel_line(text, &Codes::of_key(key_of(number)), &channel)?),
        None => Err(Failure::Refused),
    }
}

/// The key of the channel of a number: network, station, location and channel, 12 bytes.
fn key_of(number: usize) -> [u8; 12] {
    let [a, b, c, d, e] = station_of(number);
    [b'X', b'X', a, b, c, d, e, b' ', b' ', b'B', b'H', b'Z']
}

/// What a part says of a channel of 100 Hz that fills a day, counted from 2024-01-01. One in eight begins up to a
/// second late, and one in sixteen has a finding. None where an instant of the day is out of range.
fn channel_of(noise: &mut Noise, day: i64) -> Option<Channel>
    requires low { pos 0 ≤ℤ day }
    requires high { day <ℤ pos 1000 }
{
    let late = if noise.below(8) == 0 {
        noise.below(1_000_000) as i64
    } else {
        0
    };
    let last = 300 + noise.below(300) as u16;
    let (Some(start), Some(end), Some(rate)) = (
        Micros::new(START + day * DAY + late),
        Micros::new(START + (day + 1) * DAY - i64::from(last) * 10_000),
        Ratio::new(100, 1),
    ) else {
        return None;
    };
    let head = Head {
        number: 1 + noise.below(1 << 20) as u64,
        offset: noise.below(1 << 30) as u64,
        start,
        rate,
    };
    let tail = Tail {
        start: end,
        samples: last,
        rate,
        leap: Leap::None,
    };
    Some(Channel {
        records: 15_000 + noise.below(10_000) as u64,
        samples: 8_640_000,
        findings: findings_of(noise, head, tail),
    })
}

/// No finding of fifteen channels in sixteen, with these ends; of the others up to a hundred, the first of them a gap.
fn findings_of(noise: &mut Noise, head: Head, tail: Tail) -> Findings {
    if noise.below(16) != 0 {
        return Findings::Nothing { head, tail };
    }
    let first = Finding {
        number: noise.below(1 << 20) as u64,
        offset: noise.below(1 << 30) as u64,
        why: Why::Gap(noise.below(1 << 40) as u128),
    };
    Findings::Counted {
        count: 1 + noise.below(100) as u64,
        first,
        head: Some(head),
        tail: Some(tail),
    }
}

/// Joins parts in each of ten rounds, or in one of the small scale; each round has another network.
fn join_often(bench: &mut Bench, parts: &mut Parts, form: Form) -> Result<(), Failure> {
    for round in 0..bench.scale.of(10, 1) {
        for line in parts.lines.iter() {
            if let Some(digit) = parts.text.get_mut(*line) {
                *digit = b'0' + (round % 10) as u8;
            }
        }
        join_once(bench, &parts.text, form)?;
    }
    Ok(())
}

/// Joins parts; what is written, and what is reported, goes into the digest.
fn join_once(bench: &mut Bench, parts: &[u8], form: Form) -> Result<(), Failure> {
    let alloc = bench.alloc;
    let mut source = source_over(alloc, parts)?;
    let mut sink = Counted::new(Vec::new(alloc));
    let mut reported = Counted::new(Vec::new(alloc));
    match join(
        alloc,
        form,
        false,
        None,
        &mut source,
        &mut sink,
        &mut reported,
    ) {
        Ok(joined) => {
            bench.digest.number(joined.broken);
            bench.digest.number(u64::from(joined.fault));
        }
        Err(_) => return Err(Failure::Refused),
    }
    bench.digest.bytes(sink.get_ref());
    bench.digest.bytes(reported.get_ref());
    Ok(())
}
