//! The first field of a line that isn't by the grammar.
ghost use Rattle.std.specs.Prelude.{◌≡◌, ◌≢◌, List, ℕ, None, Some, if◌then◌else◌};
ghost use Rattle.std.specs.Option.{option_map};
ghost use Rattle.mseed_audit.specs.declared.channel.Channel.{Channel};
ghost use Rattle.mseed_join.specs.Fields.{IsFirstBad, ends_field};
ghost use Rattle.mseed_join.specs.Lines.{channel_line, counts_line, HasChannelLine, HasCountsLine};
ghost use Rattle.mseed_join.specs.private.Passing.{bad_in_channel, bad_in_counts, from_findings, from_head, from_tail};
ghost use Rattle.mseed_join.specs.private.Passing.{past_count, past_findings, past_key, past_leap, past_rate};
ghost use Rattle.mseed_join.specs.private.Passing.{past_samples, past_start, past_word};

use crate::fields::{leap_at, ratio_at, start_at};
use crate::hex::key_at;
use crate::numbers::{LARGEST, after, number_after, number_at};

/// A field of the line of a channel, or of the line of the counts. Of a head and of a tail each part is one.
#[derive(Clone, Copy, Debug, PartialEq, Eq)]
pub enum Field {
    /// Of a channel: its key.
    Key,
    /// Of a channel: how many records it has, with the word before.
    Records,
    /// Of a channel: how many samples it has, with the word before.
    Samples,
    /// Of how a channel begins: the record's number, with the word before, or `none` in place of the four.
    HeadNumber,
    /// Of how a channel begins: the record's offset.
    HeadOffset,
    /// Of how a channel begins: the record's start.
    HeadStart,
    /// Of how a channel begins: the record's rate.
    HeadRate,
    /// Of how a channel ends: the record's start, with the word before, or `none` in place of the four.
    TailStart,
    /// Of how a channel ends: how many samples the record has.
    TailSamples,
    /// Of how a channel ends: the record's rate.
    TailRate,
    /// Of how a channel ends: the leap seconds that the record carries.
    TailLeap,
    /// Of a channel: how many findings it has, with the word before.
    Findings,
    /// Of a channel: its first finding, with the word before, and the line's end.
    First,
    /// Of the counts: how many records there are, with the word before.
    AllRecords,
    /// Of the counts: how many bytes there are, with the word before, and the line's end.
    AllBytes,
}

/// Returns the first field of a line that isn't by the grammar. A line that begins with `records ` is taken for that of
/// the counts, and any other for that of a channel. A field ends at a space or at the line's LF: the first bad one is
/// the first up to the end of which no such line begins with the same bytes.
///
/// The line is neither of a channel nor of the counts: `read_channel_line` and `read_counts_line` return `None`.
#[cold]
pub fn first_bad_field(line: &[u8]) -> Field
    requires no_channel { (key : List ℕ) (c : Channel) → HasChannelLine key c → line.now ≢ channel_line key c }
    requires no_counts { (records bytes : ℕ) → HasCountsLine records bytes → line.now ≢ counts_line records bytes }
    ensures { IsFirstBad result line.now }
{
    if line.starts_with(b"records ") {
        bad_in_counts(line)
    } else {
        bad_in_channel(line)
    }
}

/// The first bad field of a channel's line, or the last one.
#[tactic(auto, unfolding(crate::specs::private::Passing::bad_in_channel))]
fn bad_in_channel(line: &[u8]) -> Field
    ensures { result ≡ bad_in_channel line.now }
{
    let Some(rest) = past_key(line) else {
        return Field::Key;
    };
    let Some(rest) = past_count(b" records ", rest) else {
        return Field::Records;
    };
    match past_count(b" samples ", rest) {
        Some(rest) => from_head(rest),
        None => Field::Samples,
    }
}

/// The first bad field of a channel's line from its head on, or the last one.
#[tactic(auto, unfolding(crate::specs::private::Passing::from_head))]
fn from_head(bytes: &[u8]) -> Field
    ensures { result ≡ from_head bytes.now }
{
    if let Some(rest) = past_word(b" head none", bytes) {
        return from_tail(false, rest);
    }
    let Some(rest) = past_count(b" head ", bytes) else {
        return Field::HeadNumber;
    };
    let Some(rest) = past_count(b" ", rest) else {
        return Field::HeadOffset;
    };
    let Some(rest) = past_start(b" ", rest) else {
        return Field::HeadStart;
    };
    match past_rate(rest) {
        Some(rest) => from_tail(true, rest),
        None => Field::HeadRate,
    }
}

/// The first bad field of a channel's line from its tail on, or the last one, by whether it has a head.
#[tactic(auto, unfolding(crate::specs::private::Passing::from_tail))]
fn from_tail(head: bool, bytes: &[u8]) -> Field
    ensures { result ≡ from_tail head bytes.now }
{
    if let Some(rest) = past_word(b" tail none", bytes) {
        return from_findings(false, rest);
    }
    let Some(rest) = past_start(b" tail ", bytes) else {
        return Field::TailStart;
    };
    let Some(rest) = past_samples(rest) else {
        return Field::TailSamples;
    };
    let Some(rest) = past_rate(rest) else {
        return Field::TailRate;
    };
    match past_leap(rest) {
        Some(rest) => from_findings(head, rest),
        None => Field::TailLeap,
    }
}

/// The first bad field of a channel's line from its findings on, by whether it has both a head and a tail.
fn from_findings(both: bool, bytes: &[u8]) -> Field
    ensures { result ≡ from_findings both bytes.now }
{
    match past_findings(both, bytes) {
        Some(_) => Field::First,
        None => Field::Findings,
    }
}

/// The first bad field of the counts' line, or the last one.
#[tactic(auto, unfolding(crate::specs::private::Passing::bad_in_counts))]
fn bad_in_counts(line: &[u8]) -> Field
    ensures { result ≡ bad_in_counts line.now }
{
    match past_count(b"records ", line) {
        Some(_) => Field::AllBytes,
        None => Field::AllRecords,
    }
}

/// Whether a field ends here.
fn ends_field(bytes: &[u8]) -> bool
    ensures { result ≡ ends_field bytes.now }
{
    match bytes {
        [] => false,
        [first, ..] => *first == b' ' || *first == b'\n',
    }
}

/// These bytes, if a field ends before them.
fn ended(rest: &[u8]) -> Option<&[u8]>
    ensures { option_map (λ rest. rest.now) result ≡ (if ends_field rest.now then Some rest.now else None) }
{
    if ends_field(rest) { Some(rest) } else { None }
}

/// The bytes after a key that ends.
#[tactic(auto, unfolding(crate::specs::private::Passing::past_key))]
fn past_key(bytes: &[u8]) -> Option<&[u8]>
    ensures { option_map (λ rest. rest.now) result ≡ past_key bytes.now }
{
    let Some((_, rest)) = key_at(bytes) else {
        return None;
    };
    ended(rest)
}

/// The bytes after a word that ends.
#[tactic(auto, unfolding(crate::specs::private::Passing::past_word))]
fn past_word<'a, const N: usize>(word: &[u8; N], bytes: &'a [u8]) -> Option<&'a [u8]>
    ensures { option_map (λ rest. rest.now) result ≡ past_word word.now bytes.now }
{
    ended(after(word, bytes)?)
}

/// The bytes after a word and a number that ends.
#[tactic(auto, unfolding(crate::specs::private::Passing::past_count))]
fn past_count<'a, const N: usize>(word: &[u8; N], bytes: &'a [u8]) -> Option<&'a [u8]>
    ensures { option_map (λ rest. rest.now) result ≡ past_count word.now bytes.now }
{
    let (_, rest) = number_after(word, LARGEST, bytes)?;
    ended(rest)
}

/// The bytes after a word and a start that ends.
#[tactic(auto, unfolding(crate::specs::private::Passing::past_start))]
fn past_start<'a, const N: usize>(word: &[u8; N], bytes: &'a [u8]) -> Option<&'a [u8]>
    ensures { option_map (λ rest. rest.now) result ≡ past_start word.now bytes.now }
{
    let rest = after(word, bytes)?;
    let Some((_, rest)) = start_at(rest) else {
        return None;
    };
    ended(rest)
}

/// The bytes after a rate that ends.
#[tactic(auto, unfolding(crate::specs::private::Passing::past_rate))]
fn past_rate(bytes: &[u8]) -> Option<&[u8]>
    ensures { option_map (λ rest. rest.now) result ≡ past_rate bytes.now }
{
    let rest = after(b" ", bytes)?;
    let Some((_, rest)) = ratio_at(rest) else {
        return None;
    };
    ended(rest)
}

/// The bytes after a record's number of samples that ends.
#[tactic(auto, unfolding(crate::specs::private::Passing::past_samples))]
fn past_samples(bytes: &[u8]) -> Option<&[u8]>
    ensures { option_map (λ rest. rest.now) result ≡ past_samples bytes.now }
{
    let rest = after(b" ", bytes)?;
    let (samples, rest) = number_at(65_535, rest)?;
    if samples > 0 { ended(rest) } else { None }
}

/// The bytes after leap seconds that end.
#[tactic(auto, unfolding(crate::specs::private::Passing::past_leap))]
fn past_leap(bytes: &[u8]) -> Option<&[u8]>
    ensures { option_map (λ rest. rest.now) result ≡ past_leap bytes.now }
{
    let rest = after(b" ", bytes)?;
    let (_, rest) = leap_at(rest)?;
    ended(rest)
}

/// The bytes after a number of findings that ends: none only where there are both a head and a tail.
#[tactic(auto, unfolding(crate::specs::private::Passing::past_findings))]
fn past_findings(both: bool, bytes: &[u8]) -> Option<&[u8]>
    ensures { option_map (λ rest. rest.now) result ≡ past_findings both bytes.now }
{
    let rest = after(b" findings ", bytes)?;
    let (count, rest) = number_at(LARGEST, rest)?;
    if count > 0 || both { ended(rest) } else { None }
}
