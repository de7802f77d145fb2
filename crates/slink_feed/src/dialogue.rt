//! The requests that a client sends over a link, and what it makes of the replies and packets of the server.
ghost use Rattle.std.specs.Prelude.{◌≡◌, ◌≢◌, ◌+◌, ◌%◌, ◌<◌, ◌≤◌, IfNone, IfSome, length};
ghost use Rattle.slink_wire.specs.Request.{IsSpelled};
ghost use Rattle.slink_wire.specs.Place.{AreNumbers};
ghost use Rattle.slink_feed.specs.Dialogue.{AreShort, Garbage, IsStage, Packet, Reply, Talk, answer_of, at_packet};
ghost use Rattle.slink_feed.specs.Dialogue.{ended, event_of, foreign_by, heard};
ghost use Rattle.slink_feed.specs.Dialogue.{if_wanted, is_ahead, is_of_wanted, is_taken, next_at, place_of, read};
ghost use Rattle.slink_feed.specs.Dialogue.{requests_number, requests_place, sends_line, to_answer, want_at, wants_of};
ghost use Rattle.slink_feed.specs.Dialogue.{with_next};
ghost use Rattle.slink_feed.specs.Listening.{AwaitsReply, IsLinked, new_client};

use crate::grant::Mode;
use crate::ring::SPAN;
use arrayvec::ArrayVec;
use slink_wire::{Place, Request, STATIONS, header_codes, put};
use std::marker::Model;

/// A line that a client sends, with its CR LF: at most 32 bytes.
pub type Bytes = ArrayVec<u8, 32>;

/// The most bytes of the line of a reply, without its CR LF.
pub(crate) const LONGEST_LINE: usize = 254;

/// A station that is requested.
#[derive(Clone, Copy)]
pub struct Wanted {
    /// The station whose records are wanted.
    pub place: Place,
    /// The number of the record that is wanted next, modulo 2^24, where one was named or came.
    pub next: Option<u32>,
}

/// What a client waits for. Stations are named by their indices, counted from 0.
#[derive(Clone, Copy)]
pub enum Stage {
    /// A link.
    Unlinked,
    /// The reply to the STATION of this station.
    Station(usize),
    /// The reply to the DATA or FETCH of this station.
    Number(usize),
    /// Packets, and the end.
    Packets,
    /// Another link.
    Ended(Ending),
}

/// Why nothing more of a link is taken.
#[derive(Clone, Copy)]
pub enum Ending {
    /// The server has sent all that was requested.
    End,
    /// The server refused this station.
    Refused(usize),
    /// The packet of another record than the one that is wanted next of a station.
    Gap {
        /// The index of the station.
        place: usize,
        /// The number that the station wants next, modulo 2^24.
        want: u32,
        /// The number that came.
        got: u32,
    },
    /// What came about this station is no reply, or one that neither is `OK` nor begins with `ERROR`.
    Unanswered(usize),
    /// Neither a packet nor the end.
    Garbage,
    /// The packet of a record of none of the stations, by the codes of its header.
    Foreign {
        /// The station's code at bytes 8 to 12, as it stands there.
        station: [u8; 5],
        /// The network's code at bytes 18 and 19, as it stands there.
        network: [u8; 2],
    },
}

/// What a client makes of the bytes that it accepted.
#[derive(Debug, PartialEq, Eq, Drop)]
pub enum Event {
    /// Nothing yet.
    None,
    /// These bytes are to be written to the link.
    Say(Bytes),
    /// A record of the station at this index, with its number modulo 2^24.
    Record(usize, u32, [u8; 512]),
    /// The server has sent all that was requested.
    End,
    /// The server refused the station at this index.
    Refused(usize),
    /// The packet of another record than the one that is wanted next of a station.
    Gap {
        /// The index of the station.
        place: usize,
        /// The number that the station wants next, modulo 2^24.
        want: u32,
        /// The number that came.
        got: u32,
    },
    /// No reply, packet or end.
    Garbage,
    /// The packet of a record of none of the stations.
    Foreign,
}

impl Ending {
    /// The event that reports this ending.
    pub(crate) fn event(self) -> Event
        ensures { result ≡ event_of self }
    {
        match self {
            Ending::End => Event::End,
            Ending::Refused(k) => Event::Refused(k),
            Ending::Gap { place, want, got } => Event::Gap { place, want, got },
            Ending::Unanswered(_) | Ending::Garbage => Event::Garbage,
            Ending::Foreign { .. } => Event::Foreign,
        }
    }
}

/// Why nothing more is taken of a link that brought a record of none of the stations.
fn foreign_by(bytes: &[u8; 512]) -> Ending
    ensures { result ≡ foreign_by bytes.now }
{
    let mut station = [0; 5];
    let mut network = [0; 2];
    let codes = header_codes(bytes);
    station.copy_from_slice(codes.0);
    network.copy_from_slice(codes.1);
    Ending::Foreign { station, network }
}

/// What the server replies to STATION, DATA or FETCH (SeedLink 3, handshaking).
#[derive(Clone, Copy)]
pub enum Answer {
    /// `OK`.
    Granted,
    /// It begins with `ERROR`.
    Refusal,
    /// Anything else.
    Neither,
}

/// What a reply says, by its line without CR LF.
pub(crate) fn answer_of(line: &[u8]) -> Answer
    ensures { result ≡ answer_of line.now }
{
    if line == &b"OK"[..] {
        Answer::Granted
    } else if line.starts_with(b"ERROR") {
        Answer::Refusal
    } else {
        Answer::Neither
    }
}

/// How far a client has come in the handshake and the packets: what it waits for, and what it wants of each station.
#[derive(Drop)]
pub(crate) struct Dialogue {
    mode: Mode,
    wants: [Option<Wanted>; STATIONS],
    stage: Stage,
    holes: bool,
    // How many packets came since the last reply, and its line.
    packets: u64,
    reply: ArrayVec<u8, LONGEST_LINE>,
}

impl Model for Dialogue {
    ghost Value = { Talk };

    ghost view = { λ d. record {
      mode = d.mode;
      wants = d.wants;
      stage = d.stage;
      holes = d.holes;
      packets = d.packets;
      reply = d.reply.items;
    } };

    ghost invariant = { λ d. AreShort d.wants × IsStage d.stage };
}

/// Whether a record's header has the codes of a station that is wanted.
fn is_of_wanted(bytes: &[u8; 512], want: &Option<Wanted>) -> bool
    ensures { result ≡ is_of_wanted bytes.now want.now }
{
    match want {
        Some(wanted) => wanted.place.bears(bytes),
        None => false,
    }
}

/// The stations that are requested, in their order.
fn wants_of(places: &[(Place, Option<u32>)]) -> [Option<Wanted>; STATIONS]
    requires { length places.now ≤ STATIONS }
    ensures { result ≡ wants_of places.now }
{
    let mut wants = [None; STATIONS];
    for (k, (place, next)) in places.iter().enumerate() {
        wants[k] = Some(Wanted {
            place: *place,
            next: *next,
        });
    }
    wants
}

/// The station at an index, with the number that it wants next.
pub(crate) fn want_at(wants: &[Option<Wanted>; STATIONS], k: usize) -> Option<Wanted>
    ensures value { result ≡ want_at wants.now k }
    ensures within { IfSome result (λ _. k < STATIONS) }
{
    match wants.get(k) {
        Some(want) => *want,
        None => None,
    }
}

/// Wants this number next of the station at an index, if there is one.
pub(crate) fn want_next(wants: &mut [Option<Wanted>; STATIONS], k: usize, number: u32)
    ensures { wants.new ≡ with_next wants.old k number }
{
    if let Some(wanted) = want_at(wants, k) {
        wants[k] = Some(Wanted {
            place: wanted.place,
            next: Some(number),
        });
    }
}

/// Whether a number is ahead of the one wanted by less than half of all numbers.
fn is_ahead(want: u32, number: u32) -> bool
    requires want { want < SPAN }
    requires number { number < SPAN }
    ensures { result ≡ is_ahead want number }
{
    let ahead = (number + SPAN as u32 - want) % SPAN as u32;
    0 < ahead && ahead < SPAN as u32 / 2
}

impl Dialogue {
    /// A dialogue before its first link, which goes past holes where `holes` says so.
    pub(crate) fn new(places: &[(Place, Option<u32>)], mode: Mode, holes: bool) -> Dialogue
        requires count { length places.now ≤ STATIONS }
        requires numbers { AreNumbers places.now }
        ensures { result ≡ (new_client places.now mode holes).talk }
    {
        Dialogue {
            mode,
            wants: wants_of(places),
            stage: Stage::Unlinked,
            holes,
            packets: 0,
            reply: ArrayVec::new(),
        }
    }

    /// What the client waits for.
    pub(crate) fn stage(&self) -> Stage
        ensures { result ≡ self.now.stage }
    {
        self.stage
    }

    /// The stations that are requested.
    pub(crate) fn wants(&self) -> &[Option<Wanted>; STATIONS]
        ensures { result.now ≡ self.now.wants }
    {
        &self.wants
    }

    /// How many packets came since the last reply.
    pub(crate) fn packets(&self) -> u64
        ensures { result ≡ self.now.packets }
    {
        self.packets
    }

    /// The line of the last reply.
    pub(crate) fn reply(&self) -> &[u8]
        ensures { result.now ≡ self.now.reply }
    {
        self.reply.as_slice()
    }

    /// The number of the record that is wanted next of the station at an index, modulo 2^24, if one is.
    pub(crate) fn next(&self, k: usize) -> Option<u32>
        ensures value { result ≡ next_at self.now.wants k }
        ensures short { IfSome result (λ n. n < SPAN) }
    {
        // The prover learns here that the numbers are below 2^24.
        let _ = &self.wants;
        match want_at(&self.wants, k) {
            Some(wanted) => wanted.next,
            None => None,
        }
    }

    /// Returns the line of a request, and waits for what comes of it.
    fn request_line(&mut self, stage: Stage, request: Request) -> Bytes
        requires request { IsSpelled request }
        requires stage { IsStage stage }
        ensures { sends_line self.old stage request ≡ (self.new, Event.Say result) }
    {
        self.stage = stage;
        request.bytes()
    }

    /// Returns the STATION line of the station at an index; after the last station, the END line.
    pub(crate) fn request_place(&mut self, k: usize) -> Bytes
        ensures { requests_place k self.old ≡ (self.new, Event.Say result) }
    {
        match want_at(&self.wants, k) {
            Some(wanted) => self.request_line(Stage::Station(k), Request::Station(wanted.place)),
            None => self.request_line(Stage::Packets, Request::End),
        }
    }

    /// Returns the DATA or FETCH line of a station.
    fn request_number(&mut self, k: usize) -> Bytes
        requires { k < STATIONS }
        ensures { requests_number k self.old ≡ (self.new, Event.Say result) }
    {
        let number = self.next(k);
        let request = match self.mode {
            Mode::Data => Request::Data(number),
            Mode::Fetch => Request::Fetch(number),
        };
        self.request_line(Stage::Number(k), request)
    }

    /// Notes a reply, by its line.
    fn hear(&mut self, line: &[u8])
        requires { length line.now ≤ LONGEST_LINE }
        ensures { self.new ≡ heard (Reply line.now) self.old }
    {
        self.packets = 0;
        self.reply.clear();
        put(&mut self.reply, line);
    }

    /// Takes a reply, by its line without CR LF, and returns the event that it makes.
    pub(crate) fn read_reply(&mut self, line: &[u8]) -> Event
        requires stage { AwaitsReply self.old.stage }
        requires short { length line.now ≤ LONGEST_LINE }
        ensures read { read self.old (Reply line.now) ≡ (self.new, result) }
        ensures reported { result ≢ Event.None }
    {
        self.hear(line);
        match self.stage {
            Stage::Station(k) => self.read_station(k, answer_of(line)),
            Stage::Number(k) => self.read_number(k, answer_of(line)),
            Stage::Unlinked | Stage::Packets | Stage::Ended(_) => unreachable!(),
        }
    }

    /// Takes bytes that are nothing of what is awaited, and returns the event that they make.
    pub(crate) fn read_garbage(&mut self) -> Event
        requires { IsLinked self.old.stage }
        ensures read { read self.old Garbage ≡ (self.new, result) }
        ensures reported { result ≢ Event.None }
    {
        self.reply.clear();
        match self.stage {
            Stage::Station(k) => self.end(Ending::Unanswered(k)),
            Stage::Number(k) => self.end(Ending::Unanswered(k)),
            Stage::Packets => self.end(Ending::Garbage),
            Stage::Unlinked | Stage::Ended(_) => unreachable!(),
        }
    }

    /// Takes the reply to the STATION line of a station.
    fn read_station(&mut self, k: usize, answer: Answer) -> Event
        requires { k < STATIONS }
        ensures read { to_answer answer k (requests_number k self.old) self.old ≡ (self.new, result) }
        ensures reported { result ≢ Event.None }
    {
        match answer {
            Answer::Granted => Event::Say(self.request_number(k)),
            Answer::Refusal => self.end(Ending::Refused(k)),
            Answer::Neither => self.end(Ending::Unanswered(k)),
        }
    }

    /// Takes the reply to the DATA or FETCH line of a station.
    fn read_number(&mut self, k: usize, answer: Answer) -> Event
        requires { k < STATIONS }
        ensures read { to_answer answer k (requests_place (k + 1) self.old) self.old ≡ (self.new, result) }
        ensures reported { result ≢ Event.None }
    {
        match answer {
            Answer::Granted => Event::Say(self.request_place(k + 1)),
            Answer::Refusal => self.end(Ending::Refused(k)),
            Answer::Neither => self.end(Ending::Unanswered(k)),
        }
    }

    /// Takes a packet, by its number modulo 2^24 and its record, and returns the event that it makes.
    pub(crate) fn read_packet(&mut self, number: u32, bytes: &[u8; 512]) -> Event
        requires { number < SPAN }
        ensures read { at_packet (place_of self.old.wants bytes.now) number bytes.now
            (heard (Packet number bytes.now) self.old) ≡ (self.new, result) }
        ensures reported { result ≢ Event.None }
    {
        self.packets = self.packets.saturating_add(1);
        match self.place_of(bytes) {
            Some(k) => self.read_record(k, number, bytes),
            None => self.end(foreign_by(bytes)),
        }
    }

    /// Takes a record of a station, with its number modulo 2^24.
    fn read_record(&mut self, k: usize, number: u32, bytes: &[u8; 512]) -> Event
        requires place { k < STATIONS }
        requires number { number < SPAN }
        ensures read { if_wanted (next_at self.old.wants k) k number bytes.now self.old ≡ (self.new, result) }
        ensures reported { result ≢ Event.None }
    {
        match self.next(k) {
            Some(want) if !self.is_taken(want, number) => self.end(Ending::Gap {
                place: k,
                want,
                got: number,
            }),
            _ => {
                self.pass(k, number);
                Event::Record(k, number, *bytes)
            }
        }
    }

    /// Takes a packet whose record is wanted, and returns the index of its station. Another packet changes nothing.
    pub(crate) fn read_wanted(&mut self, number: u32, bytes: &[u8; 512]) -> Option<usize>
        requires { number < SPAN }
        ensures read { IfSome result (λ k. at_packet (place_of self.old.wants bytes.now) number bytes.now
            (heard (Packet number bytes.now) self.old) ≡ (self.new, Event.Record k number bytes.now)) }
        ensures unread { IfNone result (self.new ≡ self.old) }
    {
        let k = self.place_of(bytes)?;
        match self.next(k) {
            Some(want) if !self.is_taken(want, number) => None,
            _ => {
                self.packets = self.packets.saturating_add(1);
                self.pass(k, number);
                Some(k)
            }
        }
    }

    /// Whether a number is taken where one is wanted.
    fn is_taken(&self, want: u32, number: u32) -> bool
        requires want { want < SPAN }
        requires number { number < SPAN }
        ensures { result ≡ is_taken self.now.holes want number }
    {
        number == want || self.holes && is_ahead(want, number)
    }

    /// Wants the record after this one next of a station.
    fn pass(&mut self, k: usize, number: u32)
        requires place { k < STATIONS }
        requires number { number < SPAN }
        ensures { self.new ≡ record self.old { wants = with_next self.old.wants k ((number + 1) % SPAN) } }
    {
        want_next(&mut self.wants, k, (number + 1) % SPAN as u32);
    }

    /// The index of the first station whose codes a record's header has.
    fn place_of(&self, bytes: &[u8; 512]) -> Option<usize>
        ensures value { result ≡ place_of self.now.wants bytes.now }
        ensures most { IfSome result (λ k. k < STATIONS) }
    {
        self.wants.iter().position(|want| is_of_wanted(bytes, want))
    }

    /// Takes nothing more of the link.
    pub(crate) fn end(&mut self, ending: Ending) -> Event
        ensures read { ended ending self.old ≡ (self.new, result) }
        ensures reported { result ≢ Event.None }
    {
        self.stage = Stage::Ended(ending);
        ending.event()
    }
}
