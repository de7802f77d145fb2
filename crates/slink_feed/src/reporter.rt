//! What is reported on standard error of the records of a fetch, and of what it wants next.
ghost use Rattle.std.specs.Prelude.{◌≡◌, ◌+◌, ◌<◌, ◌≤◌, true, false, length, slice_get, unwrap_or};
ghost use Rattle.mseed_stream.specs.LineWritten.{WritesLine};
ghost use Rattle.slink_feed.specs.Reporter.{AreReported, ReporterState, first_line, first_lines, hole_line, hole_lines};
ghost use Rattle.slink_feed.specs.Reporter.{if_other, lines_at, named_number, next_line, next_line_of, options_of};
ghost use Rattle.slink_feed.specs.Reporter.{reporting_of, reporting_past, wants_left, word_of};
ghost use Rattle.slink_feed.specs.private.Lines.{Appends};

use crate::client::Client;
use crate::dialogue::{Wanted, want_at, want_next};
use crate::ring::SPAN;
use arrayvec::ArrayVec;
use mseed_stream::{Sink, report};
use slink_wire::{Place, STATIONS, put, six_digits};
use std::marker::Model;

/// The most bytes of a line: the longest one names sixteen stations.
const LINE: usize = 320;

/// A line.
type Line = ArrayVec<u8, LINE>;

/// The line of a station's first record.
fn first_line(place: &Place, number: u32) -> Line
    ensures { result.items ≡ first_line place.now number }
{
    let mut line = Line::new();
    put(&mut line, b"mseed: first ");
    put(&mut line, place.label().as_slice());
    put(&mut line, b":");
    put(&mut line, &six_digits(number));
    put(&mut line, b"\n");
    line
}

/// The line of a record that comes after a hole.
fn hole_line(place: &Place, want: u32, got: u32) -> Line
    ensures { result.items ≡ hole_line place.now want got }
{
    let mut line = Line::new();
    put(&mut line, b"mseed: hole ");
    put(&mut line, place.label().as_slice());
    put(&mut line, b" ");
    put(&mut line, &six_digits(want));
    put(&mut line, b" ");
    put(&mut line, &six_digits(got));
    put(&mut line, b"\n");
    line
}

/// Appends a number to a line, after its name, where it is known.
fn put_number(line: &mut Line, name: &[u8], number: Option<u32>)
    requires { length line.old.items + length name.now + 6 ≤ LINE }
    ensures { Appends line.old.items line.new.items (named_number name.now number) (length name.now + 6) }
{
    if let Some(number) = number {
        put(line, name);
        put(line, &six_digits(number));
    }
}

/// Appends the options that name the first station to a line.
fn put_options(line: &mut Line, want: &Option<Wanted>)
    requires { length line.old.items + 43 ≤ LINE }
    ensures { Appends line.old.items line.new.items (options_of want.now) 43 }
{
    if let Some(wanted) = want {
        put(line, b" --network ");
        put(line, wanted.place.network());
        put(line, b" --station ");
        put(line, wanted.place.station());
        put_number(line, b" --from ", wanted.next);
    }
}

/// Appends the argument that names a further station to a line.
fn put_word(line: &mut Line, want: &Option<Wanted>)
    requires { length line.old.items + 16 ≤ LINE }
    ensures { Appends line.old.items line.new.items (word_of want.now) 16 }
{
    if let Some(wanted) = want {
        put(line, b" ");
        put(line, wanted.place.label().as_slice());
        put_number(line, b":", wanted.next);
    }
}

/// The arguments of a `fetch` that goes on with these stations.
fn next_line(first: &Option<Wanted>, others: &[Option<Wanted>]) -> Line
    requires { length others.now < STATIONS }
    ensures { result.items ≡ next_line first.now others.now }
{
    let mut line = Line::new();
    put(&mut line, b"mseed: next");
    put_options(&mut line, first);
    for want in others {
        put_word(&mut line, want);
    }
    put(&mut line, b"\n");
    line
}

/// A copy of the stations that are wanted, with the numbers that they want next.
fn copied(wants: &[Option<Wanted>; STATIONS]) -> [Option<Wanted>; STATIONS]
    ensures { result ≡ wants.now }
{
    let mut all = [None; STATIONS];
    all.copy_from_slice(wants);
    all
}

/// Reports a hole, where another number is wanted of a station than the one that came.
fn report_if_other<E: Sink>(place: &Place, want: Option<u32>, got: u32, errors: &mut E)
    ensures { AreReported (if_other place.now want got) (E.written errors.old) (E.written errors.new) }
{
    match want {
        Some(want) => {
            if want != got {
                report(errors, hole_line(place, want, got).as_slice());
            }
        }
        None => {}
    }
}

/// Reports a hole, where there is one before a record.
fn report_hole<E: Sink>(want: &Option<Wanted>, number: u32, errors: &mut E)
    ensures { AreReported (hole_lines want.now number) (E.written errors.old) (E.written errors.new) }
{
    match want {
        Some(wanted) => report_if_other(&wanted.place, wanted.next, number, errors),
        None => {}
    }
}

/// Reports a station's first record.
fn report_first<E: Sink>(is_first: bool, want: &Option<Wanted>, number: u32, errors: &mut E)
    ensures { AreReported (first_lines is_first want.now number) (E.written errors.old) (E.written errors.new) }
{
    match want {
        Some(wanted) => {
            if is_first {
                report(errors, first_line(&wanted.place, number).as_slice());
            }
        }
        None => {}
    }
}

/// Reports, of the records that are about to be written, each one that comes after a hole and, where that is requested,
/// the first one of each station.
#[derive(Drop)]
pub struct Reporter {
    wants: [Option<Wanted>; STATIONS],
    firsts: [bool; STATIONS],
    last: Option<(usize, u32)>,
    received: bool,
}

impl Model for Reporter {
    ghost Value = { ReporterState };

    ghost view = { λ t. record {
      reporting = record { wants = t.wants; firsts = t.firsts; last = t.last };
      received = t.received;
    } };
}

impl Reporter {
    /// Returns a reporter of the records that a client wants. The first record of each station is reported where
    /// `firsts` says so, and each hole in any case.
    pub fn new(client: &Client, firsts: bool) -> Reporter
        ensures { result ≡ record { reporting = reporting_of client.now.talk.wants firsts; received = false } }
    {
        Reporter {
            wants: copied(client.wants()),
            firsts: [firsts; STATIONS],
            last: None,
            received: false,
        }
    }

    /// Whether the next record of the station at an index is its first, of which is to be reported.
    fn is_first(&self, k: usize) -> bool
        ensures { result ≡ unwrap_or (slice_get self.now.reporting.firsts k) false }
    {
        self.firsts.get(k).copied().unwrap_or(false)
    }

    /// Notes that a record of a station was reported, and which is wanted next.
    #[tactic(auto, using(std::proofs::lemmas::List::set_past))]
    fn pass(&mut self, k: usize, number: u32)
        ensures { self.new ≡ record self.old { reporting = reporting_past self.old.reporting k number } }
    {
        want_next(&mut self.wants, k, (number % SPAN as u32 + 1) % SPAN as u32);
        if k < self.firsts.len() {
            self.firsts[k] = false;
        }
        self.last = Some((k, number));
    }

    /// Reports the record of the station at an index, with its number: it is about to be written.
    pub(crate) fn note<E: Sink>(&mut self, k: usize, number: u32, errors: &mut E)
        ensures reporting { self.new ≡ record self.old { reporting = reporting_past self.old.reporting k number } }
        ensures lines { AreReported (lines_at self.old.reporting k number) (E.written errors.old)
            (E.written errors.new) }
    {
        let want = want_at(&self.wants, k);
        report_hole(&want, number, errors);
        report_first(self.is_first(k), &want, number, errors);
        self.pass(k, number);
    }

    /// The output accepted a whole record.
    pub(crate) fn receive(&mut self)
        ensures { self.new ≡ record self.old { received = true } }
    {
        self.received = true;
    }

    /// Forgets that the output accepted a whole record.
    pub fn begin(&mut self)
        ensures { self.new ≡ record self.old { received = false } }
    {
        self.received = false;
    }

    /// Returns whether the output accepted a whole record since the last `begin`.
    pub fn has_received(&self) -> bool
        ensures { result ≡ self.now.received }
    {
        self.received
    }

    /// What a client wants; where the output `failed`, the last record that was reported again.
    fn wants_left(&self, client: &Client, failed: bool) -> [Option<Wanted>; STATIONS]
        ensures { result ≡ wants_left failed self.now.reporting.last client.now.talk.wants }
    {
        match self.last {
            Some((k, number)) => {
                let mut wants = copied(client.wants());
                if failed {
                    want_next(&mut wants, k, number);
                }
                wants
            }
            None => copied(client.wants()),
        }
    }

    /// Reports the arguments of a `fetch` that goes on with what a client wants. Where the output `failed`, the last
    /// record that was reported is wanted again.
    pub fn report_next<E: Sink>(&self, client: &Client, failed: bool, errors: &mut E)
        ensures { WritesLine (next_line_of (wants_left failed self.now.reporting.last client.now.talk.wants))
            (E.written errors.old) (E.written errors.new) }
    {
        let wants = self.wants_left(client, failed);
        let all = &wants[..];
        report(errors, next_line(&all[0], &all[1..]).as_slice());
    }
}
