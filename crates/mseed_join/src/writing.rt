//! The lines of a part, written.
ghost use Rattle.std.specs.Prelude.{◌≡◌, ◌≤◌, ◌+◌, ◌++◌, List, OnOk, codes, decimal, length, ℕ};
ghost use Rattle.mseed_stream.specs.Device.{IsPrefixOf};
ghost use Rattle.mseed_join.specs.Lines.{key_text, leap_text, head_text, tail_text, text_or_none};
ghost use Rattle.mseed_join.specs.Lines.{first_text, channel_line, counts_line, faults_line};
ghost use Rattle.mseed_join.specs.private.Found.{found_text};

use crate::hex::hex_digit;
use mseed_audit::{Channel, Finding, Findings, Head, Tail, put_why};
use mseed_record::{Codes, Leap};
use mseed_text::{LONGEST_LINE, Line, push_line};
use std::alloc::{AllocError, Allocator};

/// The first line of a part's text, with its LF.
pub const FIRST_LINE: &[u8] = b"mseed part 1\n";

/// Adds a channel's line.
///
/// # Errors
///
/// `AllocError` where memory is refused. What was there stays, and a part of the line may have been added
/// after it.
pub fn push_channel_line<A: Allocator>(
    text: &mut Vec<u8, A>,
    codes: &Codes,
    channel: &Channel,
) -> Result<(), AllocError>
    ensures ok { OnOk result (text.new.items ≡ text.old.items ++ channel_line codes.now channel.now) }
    ensures prefix { IsPrefixOf text.old.items text.new.items }
{
    let mut line = Line::new();
    put_counts(&mut line, codes.key(), channel);
    put_known(&mut line, b" head ", &channel.findings.head());
    push_line(text, line.as_slice())?;
    let mut line = Line::new();
    put_known(&mut line, b" tail ", &channel.findings.tail());
    put_found(&mut line, &channel.findings);
    line.put(b"\n");
    push_line(text, line.as_slice())
}

/// Adds the line with the numbers of records and of bytes.
///
/// # Errors
///
/// `AllocError` where memory is refused. What was there stays, and a part of the line may have been added
/// after it.
pub fn push_counts_line<A: Allocator>(
    text: &mut Vec<u8, A>,
    records: u64,
    bytes: u64,
) -> Result<(), AllocError>
    ensures ok { OnOk result (text.new.items ≡ text.old.items ++ counts_line records bytes) }
    ensures prefix { IsPrefixOf text.old.items text.new.items }
{
    let mut line = Line::new();
    line.put_labelled(b"records ", records);
    line.put_labelled(b" bytes ", bytes);
    line.put(b"\n");
    push_line(text, line.as_slice())
}

/// Adds the line with the number of faults that were passed; none where none was.
///
/// # Errors
///
/// `AllocError` where memory is refused. What was there stays, and a part of the line may have been added
/// after it.
pub fn push_faults_line<A: Allocator>(text: &mut Vec<u8, A>, faults: u64) -> Result<(), AllocError>
    ensures ok { OnOk result (text.new.items ≡ text.old.items ++ faults_line faults) }
    ensures prefix { IsPrefixOf text.old.items text.new.items }
{
    if faults == 0 {
        return Ok(());
    }
    let mut line = Line::new();
    line.put_labelled(b"faults ", faults);
    line.put(b"\n");
    push_line(text, line.as_slice())
}

/// Puts a channel's key, and how many records and samples it has.
fn put_counts(line: &mut Line, key: &[u8; 12], channel: &Channel)
    requires { length line.old + 82 ≤ LONGEST_LINE }
    ensures text { line.new ≡ line.old ++ (key_text key.now ++ codes " records " ++ decimal channel.now.records
        ++ codes " samples " ++ decimal channel.now.samples) }
    ensures most { length line.new ≤ length line.old + 82 }
{
    put_key(line, key);
    line.put_labelled(b" records ", channel.records);
    line.put_labelled(b" samples ", channel.samples);
}

/// Puts the digits of a key.
fn put_key(line: &mut Line, key: &[u8; 12])
    requires { length line.old + 24 ≤ LONGEST_LINE }
    ensures text { line.new ≡ line.old ++ key_text key.now }
    ensures len { length line.new ≡ length line.old + 24 }
{
    for byte in key {
        line.put(&[hex_digit(*byte / 16), hex_digit(*byte % 16)]);
    }
}

/// Puts what is found of a channel.
fn put_found(line: &mut Line, findings: &Findings)
    requires { length line.old + 132 ≤ LONGEST_LINE }
    ensures text { line.new ≡ line.old ++ found_text findings.now }
    ensures most { length line.new ≤ length line.old + 132 }
{
    match findings {
        Findings::Nothing { .. } => line.put(b" findings 0"),
        Findings::Counted { count, first, .. } => {
            line.put_labelled(b" findings ", *count);
            line.put(b" ");
            put_first(line, first);
        }
    }
}

/// Puts a channel's first finding.
fn put_first(line: &mut Line, first: &Finding)
    requires { length line.old + 101 ≤ LONGEST_LINE }
    ensures text { line.new ≡ line.old ++ first_text first.now }
    ensures most { length line.new ≤ length line.old + 101 }
{
    line.put_labelled(b"first ", first.number);
    line.put_labelled(b" ", first.offset);
    line.put(b" ");
    put_why(line, &first.why);
}

/// How a channel begins, or how it ends.
trait HeadOrTail {
    // Its text.
    ghost spelled: { Self → List ℕ };

    /// Puts its text.
    fn put_to(&self, line: &mut Line)
        requires { length line.old + 104 ≤ LONGEST_LINE }
        ensures text { line.new ≡ line.old ++ spelled self.now }
        ensures most { length line.new ≤ length line.old + 104 };
}

impl HeadOrTail for Head {
    ghost spelled = { head_text };

    fn put_to(&self, line: &mut Line) {
        line.put_count(self.number);
        line.put_labelled(b" ", self.offset);
        line.put(b" ");
        line.put_signed(self.start.get());
        line.put(b" ");
        line.put_ratio(self.rate);
    }
}

impl HeadOrTail for Tail {
    ghost spelled = { tail_text };

    fn put_to(&self, line: &mut Line) {
        line.put_signed(self.start.get());
        line.put_labelled(b" ", u64::from(self.samples));
        line.put(b" ");
        line.put_ratio(self.rate);
        line.put(b" ");
        line.put(leap_word(self.leap));
    }
}

/// Puts a word, and at its end how a channel begins or ends, or `none`.
fn put_known<E: HeadOrTail>(line: &mut Line, word: &[u8], end: &Option<E>)
    requires { length line.old + length word.now + 104 ≤ LONGEST_LINE }
    ensures text { line.new ≡ line.old ++ (word.now ++ text_or_none E.spelled end.now) }
    ensures most { length line.new ≤ length line.old + length word.now + 104 }
{
    line.put(word);
    match end {
        Some(end) => end.put_to(line),
        None => line.put(b"none"),
    }
}

/// Returns the word for the leap seconds that a record carries.
fn leap_word(leap: Leap) -> &'static [u8]
    ensures text { result.now ≡ leap_text leap }
    ensures most { length result.now ≤ 8 }
{
    match leap {
        Leap::None => b"none",
        Leap::Positive => b"positive",
        Leap::Negative => b"negative",
        Leap::Both => b"both",
    }
}
