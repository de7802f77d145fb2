//! What a link has to hold: the replies to its lines, and then of each of its stations every record from its number on,
//! each once, in order.
ghost use Rattle.std.specs.Prelude.{◌≤◌, ◌<◌, length};

use super::super::copy;
use super::input::Input;
use crate::noise::Noise;
use arrayvec::ArrayVec;

/// What a client's line requests.
#[derive(Clone, Copy)]
enum Line {
    /// The server's name.
    Hello,
    /// A station of the feed.
    Station,
    /// Nothing that there is.
    Nothing,
    /// The records of a station, from the next one on.
    Data(usize),
    /// The records of a station, from the one at this place on.
    From(usize, usize),
    /// The records of a station that are there, from the oldest on.
    Fetch(usize),
    /// That the server begins.
    End,
    /// That the server ends.
    Bye,
}

/// What a client of all stations says.
const ALL: &[u8] =
    b"STATION AAA XX\r\nDATA\r\nSTATION BBB XX\r\nDATA\r\nSTATION CCC XX\r\nDATA\r\nSTATION DDD XX\r\nDATA\r\nEND\r\n";

/// What clients say, and what each of the lines requests.
static CLIENTS: [(&[u8], &[Line]); 7] = [
    (
        ALL,
        &[
            Line::Station,
            Line::Data(0),
            Line::Station,
            Line::Data(1),
            Line::Station,
            Line::Data(2),
            Line::Station,
            Line::Data(3),
            Line::End,
        ],
    ),
    (
        b"STATION AAA XX\r\nFETCH\r\nSTATION CCC XX\r\nFETCH\r\nEND\r\n",
        &[
            Line::Station,
            Line::Fetch(0),
            Line::Station,
            Line::Fetch(2),
            Line::End,
        ],
    ),
    (
        b"STATION BBB XX\r\nDATA\r\nSTATION AAA XX\r\nFETCH\r\nEND\r\n",
        &[
            Line::Station,
            Line::Data(1),
            Line::Station,
            Line::Fetch(0),
            Line::End,
        ],
    ),
    // There are never so many records that one of them has the number 7FFFFF.
    (
        b"HELLO\r\nSTATION DDD\r\nDATA 7FFFFF\r\nDATA\r\nEND\r\nEND\r\n",
        &[
            Line::Hello,
            Line::Station,
            Line::Nothing,
            Line::Data(3),
            Line::End,
            Line::End,
        ],
    ),
    (
        b"STATION AAA XX\r\nDATA\r\nEND\r\nBYE\r\n",
        &[Line::Station, Line::Data(0), Line::End, Line::Bye],
    ),
    // The first record has the number FFFFFD, the fourth one 0, and the ninth one 5.
    (
        b"STATION ZZZ XX\r\nSTATION CCC XX\r\nDATA 5\r\nDATA 0\r\nSTATION BBB XX\r\nFETCH\r\nEND\r\n",
        &[
            Line::Nothing,
            Line::Station,
            Line::From(2, 8),
            Line::From(2, 3),
            Line::Station,
            Line::Fetch(1),
            Line::End,
        ],
    ),
    (b"DATA\r\nBYE\r\n", &[Line::Nothing, Line::Bye]),
];

/// So many kinds of clients there are.
pub(crate) const KINDS: usize = 7;

/// The most bytes that wait for a link: twelve packets.
const ROOM: usize = 12 * 520;

/// Why a link is closed that isn't gone.
#[derive(Clone, Copy, Debug, PartialEq, Eq)]
pub(crate) enum Reason {
    /// It accepted all that it requested, and `END`.
    Ended,
    /// Its client ended the session, and it accepted what it was handed.
    Left,
    /// The next record that it has to hold has left its ring.
    Lost,
    /// The input has ended, and it accepted all that there is.
    Finished,
}

/// A link, and what it holds.
#[derive(Drop)]
pub(crate) struct Held {
    // The kind of its client, and how many bytes and whole lines this has said.
    kind: usize,
    said: usize,
    lines: usize,
    // Whether records are sent to it, whether a record that it was granted had left its ring by then, and whether its
    // client ended the session.
    streams: bool,
    is_late: bool,
    left: bool,
    // The replies to the lines, and how many of their bytes it accepted.
    replies: ArrayVec<u8, 64>,
    answered: usize,
    // Of each station that was granted the place of the record that it has to accept next.
    wants: [Option<usize>; 4],
    // Whether it requested records that come later.
    waits: bool,
    // What it accepted of a packet, or of `END`.
    packet: ArrayVec<u8, 520>,
    has_end: bool,
    // Whether it accepted all that it was handed last, and said nothing since.
    has_all: bool,
}

impl Held {
    /// A new link of a client of this kind.
    pub(crate) fn new(kind: usize) -> Held {
        Held {
            kind,
            said: 0,
            lines: 0,
            streams: false,
            is_late: false,
            left: false,
            replies: ArrayVec::new(),
            answered: 0,
            wants: [None; 4],
            waits: false,
            packet: ArrayVec::new(),
            has_end: false,
            has_all: false,
        }
    }

    /// Whether records are sent to it.
    pub(crate) fn streams(&self) -> bool {
        self.streams
    }

    /// Its client says something.
    pub(crate) fn say(&mut self, noise: &mut Noise, input: &Input, buf: &mut [u8]) -> usize
        ensures { result ≤ length buf.new }
    {
        let most = noise.below(40);
        let Some((says, lines)) = CLIENTS.get(self.kind) else {
            return 0;
        };
        let said = self.said.min(says.len());
        let count = copy(&says[said..], most, buf);
        self.said = said.saturating_add(count);
        self.has_all = self.has_all && count == 0;
        for byte in &says[said..said + count] {
            if *byte == b'\r' {
                self.answer(lines.get(self.lines), input);
                self.lines = self.lines.wrapping_add(1);
            }
        }
        count
    }

    /// A line is whole: what has to come of it.
    fn answer(&mut self, line: Option<&Line>, input: &Input) {
        match line {
            Some(Line::Bye) => self.left = true,
            Some(Line::End) => self.begin(input),
            Some(Line::Hello) => self.reply(b"SeedLink v3.0 (mseed)\r\nmseed feed\r\n"),
            Some(Line::Station) => self.reply(b"OK\r\n"),
            Some(Line::Data(station)) => self.grant(*station, input.next(*station), true),
            Some(Line::Fetch(station)) => self.grant(*station, input.oldest(*station), false),
            Some(Line::From(station, place)) if input.has(*station, *place) => {
                self.grant(*station, *place, true);
            }
            Some(Line::From(_, _) | Line::Nothing) => self.reply(b"ERROR\r\n"),
            None => {}
        }
    }

    /// Records are sent to it, unless it lost its place before.
    fn begin(&mut self, input: &Input) {
        if !self.streams {
            self.streams = true;
            self.is_late = self.lags(0, input);
        }
    }

    /// It has to accept a reply.
    fn reply(&mut self, bytes: &[u8]) {
        // There is room for the replies to each kind of client.
        let _ = self.replies.try_extend_from_slice(bytes);
    }

    /// It has to accept the records of a station, from a place on.
    fn grant(&mut self, station: usize, place: usize, waits: bool) {
        self.reply(b"OK\r\n");
        self.waits = self.waits || waits;
        if let Some(wanted) = self.wants.get_mut(station) {
            *wanted = Some(place);
        }
    }

    /// It accepts bytes of those that it is handed. The answer is whether it has to hold them.
    pub(crate) fn accept(&mut self, handed: usize, bytes: &[u8], input: &Input) -> bool {
        self.has_all = handed == bytes.len();
        let replies = self.replies.as_slice();
        let waiting = replies.get(self.answered..).unwrap_or(b"");
        let (answers, packets) = bytes.split_at(bytes.len().min(waiting.len()));
        let mut is_right = waiting.starts_with(answers);
        self.answered = self.answered.saturating_add(answers.len());
        let mut start = 0;
        while start < packets.len() {
            let count = self.lacks().min(packets.len() - start);
            is_right = self.accept_piece(&packets[start..start + count], input) && is_right;
            start += count;
        }
        is_right
    }

    /// How many bytes its packet lacks.
    fn lacks(&self) -> usize
        ensures { 0 < result }
    {
        520_usize
            .saturating_sub(self.packet.as_slice().len())
            .max(1)
    }

    /// It accepts bytes of a packet, or of `END`. The answer is whether it has to hold them.
    fn accept_piece(&mut self, bytes: &[u8], input: &Input) -> bool {
        if !self.streams || self.has_end || self.packet.try_extend_from_slice(bytes).is_err() {
            return false;
        }
        if self.packet.as_slice() == b"END".as_slice() {
            self.packet.clear();
            self.has_end = true;
            return self.may_end(input);
        }
        self.packet.as_slice().len() < 520 || self.accept_packet(input)
    }

    /// A packet is whole: whether it has the record that comes next of its station.
    fn accept_packet(&mut self, input: &Input) -> bool {
        let mut is_right = false;
        for station in 0..4 {
            if let Some(place) = self.place(station)
                && input.is_packet(self.packet.as_slice(), station, place)
            {
                self.wants[station] = Some(place.saturating_add(1));
                is_right = true;
            }
        }
        self.packet.clear();
        is_right
    }

    /// Whether it may accept `END`: it requested nothing that comes later, and there was a moment at which what it
    /// accepted was all that there was. Then no record that it accepted came after one that it lacks.
    fn may_end(&self, input: &Input) -> bool {
        let mut is_right = !self.waits;
        for station in 0..4 {
            for other in 0..4 {
                if let Some(accepted) = self.mark_before(station, input)
                    && let Some(lacking) = self.mark_at(other, input)
                {
                    is_right = is_right && accepted < lacking;
                }
            }
        }
        is_right
    }

    /// The mark of the record of a station that comes next.
    fn mark_at(&self, station: usize, input: &Input) -> Option<u32> {
        input.mark(station, self.place(station)?)
    }

    /// The mark of the record of a station that stands before that one.
    fn mark_before(&self, station: usize, input: &Input) -> Option<u32> {
        input.mark(station, self.place(station)?.checked_sub(1)?)
    }

    /// The place of the record of a station that comes next, where the station was granted.
    fn place(&self, station: usize) -> Option<usize> {
        *self.wants.get(station)?
    }

    /// How many bytes wait for it, at most: its replies, and all records of its stations.
    fn due(&self, input: &Input) -> usize {
        let mut due = self.replies.as_slice().len().saturating_sub(self.answered);
        if !self.streams || self.has_end {
            return due;
        }
        for station in 0..4 {
            if let Some(place) = self.wants[station] {
                let count = input.next(station).saturating_sub(place);
                due = due.saturating_add(count.saturating_mul(520));
            }
        }
        if !self.waits {
            due = due.saturating_add(3);
        }
        due.saturating_sub(self.packet.as_slice().len())
    }

    /// Whether the oldest record that it lacks of some station comes so many records before the oldest one of the ring.
    fn lags(&self, count: usize, input: &Input) -> bool {
        let mut lags = false;
        for station in 0..4 {
            if let Some(place) = self.wants[station] {
                lags = lags || place.saturating_add(count) < input.oldest(station);
            }
        }
        self.streams && lags
    }

    /// Whether it can be handed these bytes: all that are due, or as many as there is room for. One that lags has to
    /// be closed, and one whose client left is handed nothing more.
    pub(crate) fn can_be_handed(&self, bytes: &[u8], input: &Input) -> bool {
        let due = self.due(input);
        let is_full = bytes.len() > ROOM - 520 && bytes.len() <= ROOM;
        let has_all = bytes.len() == due || self.is_last(bytes);
        bytes.len() <= due && (has_all || is_full || self.left || self.lags(0, input))
    }

    /// Whether `END` is at the end of these bytes, which come next.
    fn is_last(&self, bytes: &[u8]) -> bool {
        !self.waits && (bytes.ends_with(b"END") || self.packet.as_slice().starts_with(b"E"))
    }

    /// Whether it has to be handed something.
    pub(crate) fn is_due(&self, input: &Input) -> bool {
        !self.left && !self.lags(0, input) && self.due(input) > 0
    }

    /// Whether it accepted all replies.
    fn has_replies(&self) -> bool {
        self.answered == self.replies.as_slice().len()
    }

    /// Whether the input has ended, and it accepted all that there is.
    fn is_finished(&self, input: &Input) -> bool {
        self.streams && input.has_ended() && self.due(input) == 0
    }

    /// Whether it may be closed since it lost its place. While its session goes on it is so only when records come, and
    /// twelve packets wait for it, less for its replies.
    fn may_be_lost(&self, comes: bool, input: &Input) -> bool {
        if !self.goes_on(input) {
            return self.lags(0, input);
        }
        let wants = self.wants.iter().filter(|wanted| wanted.is_some());
        let waiting = if wants.count() == 1 && self.has_replies() {
            12
        } else {
            0
        };
        comes && self.lags(waiting, input)
    }

    /// Why it may be closed, if it isn't gone, and whether records come.
    pub(crate) fn reason(&self, comes: bool, input: &Input) -> Option<Reason> {
        if self.has_end {
            Some(Reason::Ended)
        } else if self.left && self.has_replies() && self.packet.as_slice().is_empty() {
            Some(Reason::Left)
        } else if self.may_be_lost(comes, input) {
            Some(Reason::Lost)
        } else if self.is_finished(input) {
            Some(Reason::Finished)
        } else {
            None
        }
    }

    /// Whether it can't stand any more.
    pub(crate) fn must_close(&self, input: &Input) -> bool {
        let is_over = (self.left || self.is_late) && self.has_all;
        let has_left = self.left && !self.streams && self.has_replies();
        let is_lost = self.goes_on(input) && self.lags(12, input);
        self.has_end || is_over || has_left || is_lost || self.is_finished(input)
    }

    /// Whether its session goes on, for sure, as long as it streams. One that has ended keeps its link until it
    /// accepted what it was handed: so has one that requested nothing that comes later, at its `END`, and one that lost
    /// its place while there was room for more, which only a ring of one record allows.
    fn goes_on(&self, input: &Input) -> bool {
        self.waits && !self.left && !self.is_late && input.keeps_two()
    }
}
