//! Calls of `mseed_join`: parts without a text.
use mseed_audit::{Channel, Finding, Memory};
use mseed_join::{Part, PartFault, TooLarge, sum};
use mseed_record::Codes;
use std::alloc::Global;

/// The part of an archive of one channel, of these numbers of records and bytes.
pub fn part_of_one(
    alloc: Global,
    codes: Codes,
    channel: &Channel,
    records: u64,
    bytes: u64,
) -> Result<Part, PartFault> {
    let mut part = Part::new(alloc);
    part.add_channel(codes, channel)?;
    part.add_counts(records, bytes)?;
    Ok(part)
}

/// What is found where a channel goes on in a further part.
pub fn border_of(
    part: &mut Part,
    codes: Codes,
    channel: &Channel,
) -> Result<Option<Finding>, PartFault> {
    part.add_channel(codes, channel)
}

/// How many records and bytes two archives have, one after another.
pub fn joint_counts(one: Part, other: &Part) -> Result<(u64, u64), PartFault> {
    let joint = one.join(other)?;
    Ok((joint.records(), joint.bytes()))
}

/// How many samples all channels of a part have; `None` where that would pass 2^63 - 1.
pub fn samples_of(alloc: Global, part: Part) -> Result<Option<u64>, Memory> {
    let channels = part.into_channels(alloc)?;
    let mut samples = 0;
    for (_, channel) in channels.as_slice() {
        match sum(samples, channel.samples) {
            Ok(more) => samples = more,
            Err(TooLarge) => return Ok(None),
        }
    }
    Ok(Some(samples))
}
