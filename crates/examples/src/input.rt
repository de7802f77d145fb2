//! Calls of `mseed_files`: the input that arguments name.
use mseed_files::{
    Blame, Chain, Files, Reason, TrackedSource, blame_by, blame_of, report_blame, report_fault,
    report_given, report_no_memory, report_number, report_reason, report_unreadable,
};
use mseed_stream::{Sink, Source, StreamFault};
use std::alloc::{AllocError, Global};

/// A source of which it is known where its last record is.
pub fn watched<R: Source>(source: R) -> TrackedSource<R> {
    TrackedSource::new(source)
}

/// Where the record begins that ends at an offset, if it is the last one that was cut.
pub fn begins_before<R: Source>(input: &TrackedSource<R>, offset: u64) -> Option<u64> {
    input.record_before(offset)
}

/// How many bytes a watched source holds that can be read without a call of its device.
pub fn held_by<R: Source>(watched: &TrackedSource<R>) -> usize {
    watched.source().lend().len()
}

/// Whether something is wrong with an input that ended so.
pub fn is_wrong(end: &Option<StreamFault>) -> bool {
    !matches!(blame_by(end), Blame::Nothing)
}

/// Reports in which of the files that arguments name a fault lies that ended their bytes.
pub fn report_fault_of<F: Files, E: Sink>(
    alloc: Global,
    input: &TrackedSource<Chain<F>>,
    words: &[&[u8]],
    fault: &StreamFault,
    errors: &mut E,
) {
    report_blame(alloc, errors, words, input, blame_of(fault));
}

/// Reports why the input failed of a program whose arguments name no file, if a read of it did.
pub fn report_failure_of<F: Files, E: Sink>(
    input: &TrackedSource<Chain<F>>,
    fault: &StreamFault,
    errors: &mut E,
) {
    report_reason(errors, input, blame_of(fault));
}

/// Reports that the file that an argument names can't be read, and, where it can't be looked at, that memory was
/// refused.
pub fn report_unread<E: Sink>(
    alloc: Global,
    word: &[u8],
    looked: Result<Option<Reason>, AllocError>,
    errors: &mut E,
) {
    match looked {
        Ok(None) => {}
        Ok(Some(reason)) => report_unreadable(alloc, errors, word, reason),
        Err(AllocError) => report_no_memory(errors),
    }
}

/// Reports the fault with which an input ended, and how many bytes stand before it.
pub fn report_end<E: Sink>(fault: &StreamFault, before: u64, errors: &mut E) {
    report_fault(errors, fault);
    report_number(errors, b"mseed: ", before, b" bytes are read\n");
}

/// Reports that an argument names no channel.
pub fn report_no_channel<E: Sink>(argument: &[u8], errors: &mut E) {
    report_given(errors, b"", argument, b": no channel");
}
