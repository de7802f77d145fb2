//! The lines of a listing.
ghost use Rattle.std.specs.Prelude.{◌≡◌, ◌≤◌, ◌+◌, ◌++◌, OnErr, OnOk, codes, length};
ghost use Rattle.mseed_record.specs.Viewing.{view_of};
ghost use Rattle.mseed_select.specs.Listing.{record_line, offset_words, size_words, time_words, payload_words};
ghost use Rattle.mseed_select.specs.Listing.{count_line, rate_text, order_word, last_words};

use mseed_record::RecordView;
use mseed_text::{LONGEST_LINE, Line, push_line};
use mseed_time::{NoRate, Order};
use std::alloc::{AllocError, Allocator};

/// Adds the line of a record to a text, by the record's offset (in bytes) in the whole input.
///
/// # Errors
///
/// `AllocError` where memory is refused; the text is unchanged then.
pub fn push_record_line<A: Allocator>(
    text: &mut Vec<u8, A>,
    offset: u64,
    view: &RecordView,
) -> Result<(), AllocError>
    ensures ok { OnOk result (text.new.items ≡ text.old.items ++ record_line offset (view_of view.now)) }
    ensures unchanged { OnErr result (text.new.items ≡ text.old.items) }
{
    let mut line = Line::new();
    put_offset(&mut line, offset, view);
    put_size(&mut line, view);
    put_times(&mut line, view);
    put_payload(&mut line, view);
    push_line(text, line.as_slice())
}

/// Adds the line that says how many records are listed to a text.
///
/// # Errors
///
/// `AllocError` where memory is refused; the text is unchanged then.
pub fn push_count_line<A: Allocator>(text: &mut Vec<u8, A>, records: u64) -> Result<(), AllocError>
    ensures ok { OnOk result (text.new.items ≡ text.old.items ++ count_line records) }
    ensures unchanged { OnErr result (text.new.items ≡ text.old.items) }
{
    let mut line = Line::new();
    line.put_labelled(b"records ", records);
    line.put(b"\n");
    push_line(text, line.as_slice())
}

/// Puts the offset of a record (in bytes) and its channel's name at a line's end.
#[inline(always)]
fn put_offset(line: &mut Line, offset: u64, view: &RecordView)
    requires { length line.old + 36 ≤ LONGEST_LINE }
    ensures text { line.new ≡ line.old ++ offset_words offset (view_of view.now) }
    ensures most { length line.new ≤ length line.old + 36 }
{
    line.put_count(offset);
    line.put(b" ");
    line.put_name(&view.codes());
}

/// Puts a record's quality, length in bytes and number of samples at a line's end.
#[inline(always)]
fn put_size(line: &mut Line, view: &RecordView)
    requires { length line.old + 59 ≤ LONGEST_LINE }
    ensures text { line.new ≡ line.old ++ size_words (view_of view.now) }
    ensures most { length line.new ≤ length line.old + 59 }
{
    line.put(&[b' ', view.quality()]);
    line.put_labelled(b" length ", view.bytes().len() as u64);
    line.put_labelled(b" samples ", u64::from(view.samples()));
}

/// Puts a record's start and sample rate at a line's end.
#[inline(always)]
fn put_times(line: &mut Line, view: &RecordView)
    requires { length line.old + 80 ≤ LONGEST_LINE }
    ensures text { line.new ≡ line.old ++ time_words (view_of view.now) }
    ensures most { length line.new ≤ length line.old + 80 }
{
    line.put(b" start ");
    line.put_start(view);
    put_rate(line, view);
}

/// Puts a record's sample rate at a line's end.
#[inline(always)]
fn put_rate(line: &mut Line, view: &RecordView)
    requires { length line.old + 47 ≤ LONGEST_LINE }
    ensures text { line.new ≡ line.old ++ codes " rate " ++ rate_text (view_of view.now) }
    ensures most { length line.new ≤ length line.old + 47 }
{
    line.put(b" rate ");
    match view.rate() {
        Ok(rate) => line.put_ratio(rate.ratio()),
        Err(NoRate) => line.put(b"none"),
    }
}

/// Puts how a record's payload is encoded, and whether there is a blockette 100, at a line's end.
#[inline(always)]
fn put_payload(line: &mut Line, view: &RecordView)
    requires { length line.old + 51 ≤ LONGEST_LINE }
    ensures { line.new ≡ line.old ++ payload_words (view_of view.now) }
{
    line.put_labelled(b" encoding ", u64::from(view.encoding()));
    put_last(line, view.payload_order(), view.has_rate_blockette());
}

/// Puts a payload's byte order, whether there is a blockette 100, and LF at a line's end. Each text has a write of its
/// own, so that its length is known there.
#[inline(always)]
fn put_last(line: &mut Line, order: Order, has_rate_blockette: bool)
    requires { length line.old + 21 ≤ LONGEST_LINE }
    ensures { line.new ≡ line.old ++ (order_word order ++ last_words has_rate_blockette) }
{
    match (order, has_rate_blockette) {
        (Order::Big, false) => line.put(b" big\n"),
        (Order::Little, false) => line.put(b" little\n"),
        (Order::Big, true) => line.put(b" big blockette100\n"),
        (Order::Little, true) => {
            line.put(b" little");
            line.put(b" blockette100\n");
        }
    }
}
