//! Calls of `mseed_join`: lines.
use mseed_audit::Channel;
use mseed_join::{
    FIRST_LINE, Field, first_bad_field, push_channel_line, push_counts_line, push_faults_line,
    read_channel_line, read_counts_line, read_fault_line, read_faults_line,
};
use mseed_record::Codes;
use mseed_stream::StreamFault;
use std::alloc::{AllocError, Global};

/// The text of a part of one channel, of these numbers of records and bytes, in which `faults` faults were passed.
pub fn text_of_one(
    alloc: Global,
    codes: &Codes,
    channel: &Channel,
    (records, bytes): (u64, u64),
    faults: u64,
) -> Result<Vec<u8>, AllocError> {
    let mut text = Vec::new(alloc);
    text.extend_from_slice(FIRST_LINE)?;
    push_channel_line(&mut text, codes, channel)?;
    push_counts_line(&mut text, records, bytes)?;
    push_faults_line(&mut text, faults)?;
    Ok(text)
}

/// How many samples a channel's line counts, if it is one.
pub fn samples_of_line(line: &[u8]) -> Option<u64> {
    let Some((_, channel)) = read_channel_line(line) else {
        return None;
    };
    Some(channel.samples)
}

/// How many records a line counts, if it is a line of counts.
pub fn records_of_line(line: &[u8]) -> Option<u64> {
    let (records, _) = read_counts_line(line)?;
    Some(records)
}

/// Whether a line says that faults were passed.
pub fn reports_faults(line: &[u8]) -> bool {
    read_faults_line(line).is_some()
}

/// The fault that a line reports, after `bytes` bytes.
pub fn fault_of_line(line: &[u8], bytes: u64) -> Option<StreamFault> {
    read_fault_line(line, bytes)
}

/// The first bad field of a line that is neither of a channel nor of the counts.
pub fn bad_field_of_line(line: &[u8]) -> Option<Field> {
    if let Some(_) = read_channel_line(line) {
        return None;
    }
    match read_counts_line(line) {
        Some(_) => None,
        None => Some(first_bad_field(line)),
    }
}
