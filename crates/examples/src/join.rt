//! Calls of `mseed_join`.
use mseed_audit::{AuditFault, EachFault};
use mseed_join::{Form, JoinFault, audit_part, audit_part_each, join, join_each, read_parts};
use mseed_stream::{Counted, Sink};
use std::alloc::Global;

/// The text of a slice's part.
pub fn part_of_slice(alloc: Global, bytes: &[u8]) -> Result<Vec<u8>, AuditFault> {
    let mut source = Counted::new(bytes);
    let mut sink = Counted::new(Vec::new(alloc));
    audit_part(alloc, &mut source, &mut sink)?;
    Ok(sink.into_inner())
}

/// The text of a slice's part, with a line for each record with a finding before it.
pub fn part_with_findings(alloc: Global, bytes: &[u8]) -> Result<Vec<u8>, EachFault> {
    let mut source = Counted::new(bytes);
    let mut sink = Counted::new(Vec::new(alloc));
    audit_part_each(alloc, &mut source, &mut sink)?;
    Ok(sink.into_inner())
}

/// The text of the audit of the archives of which a slice holds the parts. Faults that are passed are reported on a
/// device.
pub fn audit_of_parts<E: Sink>(
    alloc: Global,
    parts: &[u8],
    reported: &mut E,
) -> Result<Vec<u8>, JoinFault> {
    let mut source = Counted::new(parts);
    let mut sink = Counted::new(Vec::new(alloc));
    join(
        alloc,
        Form::Audit,
        true,
        None,
        &mut source,
        &mut sink,
        reported,
    )?;
    Ok(sink.into_inner())
}

/// The audit of archives of which these are the parts, after a line for each border with a finding.
pub fn audit_with_borders<E: Sink>(
    alloc: Global,
    parts: &[u8],
    reported: &mut E,
) -> Result<Vec<u8>, JoinFault> {
    let mut source = Counted::new(parts);
    let mut sink = Counted::new(Vec::new(alloc));
    join_each(alloc, true, None, &mut source, &mut sink, reported)?;
    Ok(sink.into_inner())
}

/// The joint part of a slice's parts, which have to be as many as are expected: so none is lost unseen.
pub fn part_of_all<E: Sink>(
    alloc: Global,
    parts: &[u8],
    expected: u64,
    reported: &mut E,
) -> Result<Vec<u8>, JoinFault> {
    let mut source = Counted::new(parts);
    let mut sink = Counted::new(Vec::new(alloc));
    join(
        alloc,
        Form::Part,
        false,
        Some(expected),
        &mut source,
        &mut sink,
        reported,
    )?;
    Ok(sink.into_inner())
}

/// How many records the archives have of which a slice holds the parts. Faults that are passed are reported on a
/// device.
pub fn records_of_parts<E: Sink>(
    alloc: Global,
    parts: &[u8],
    reported: &mut E,
) -> Result<u64, JoinFault> {
    let mut source = Counted::new(parts);
    let joint = read_parts(alloc, true, None, &mut source, reported)?;
    Ok(joint.part.records())
}
