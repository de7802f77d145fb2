//! Worked rows of packets, lines and commands, and a stream by `tests/models/command_lines.py`, a plain Python program
//! that has the grammar as regular expressions.

ghost use Rattle.slink_wire.specs.Request.{IsSpelled};

mod stream;

use slink_wire::{Command, LineOutcome, Lines, Packet, Place, Reply, Request};
use std::process::Abort;

/// A packet, or what may be taken for one.
fn with_header(header: &[u8; 8]) -> [u8; 520] {
    let mut packet = [7; 520];
    let (head, _) = packet.split_at_mut(8);
    head.copy_from_slice(header);
    packet
}

/// The number of a packet that begins so, if it is one.
fn named_number(header: &[u8; 8]) -> Option<u32> {
    match Packet::read(&with_header(header)) {
        Ok((number, _)) => Some(number),
        Err(_) => None,
    }
}

/// The first eight bytes of a packet, and its number, if it is one.
static HEADERS: [(&[u8; 8], Option<u32>); 8] = [
    (b"SLFFFFFF", Some(16_777_215)),
    (b"SL000000", Some(0)),
    (b"SLabcDEF", Some(11_259_375)),
    (b"SL00001f", Some(31)),
    (b"SL00000g", None),
    (b"SL 0001f", None),
    (b"SX000000", None),
    (b"sl000000", None),
];

#[test]
fn writes_and_reads_packets(rt: HostRuntime) {
    let written = Packet::write(16_777_215, &[7; 512]);
    assert_eq!(rt; &written[..10], b"SLFFFFFF\x07\x07".as_slice());
    for (header, wanted) in &HEADERS {
        assert!(rt; named_number(header) == *wanted, "{header:?}");
    }
}

/// Whether a text spells this station and this network, or no station.
fn spells(text: &[u8], wanted: Option<(&[u8], &[u8])>) -> bool {
    match (Place::read(text), wanted) {
        (Ok(place), Some((sta, net))) => place.station() == sta && place.network() == net,
        (found, wanted) => found.is_err() && wanted.is_none(),
    }
}

/// A text, and the station and the network that it spells, if it is a station.
static SPELLED: [(&[u8], Option<(&[u8], &[u8])>); 8] = [
    (b"XX_STA", Some((b"STA", b"XX"))),
    (b"x_a1B2c", Some((b"a1B2c", b"x"))),
    (b"XX_ABCDEF", None),
    (b"XXX_STA", None),
    (b"XX_", None),
    (b"_STA", None),
    (b"XXSTA", None),
    (b"XX_S_A", None),
];

#[test]
fn spells_places(rt: HostRuntime) {
    for (text, wanted) in &SPELLED {
        assert!(rt; spells(text, *wanted), "{text:?}");
    }
}

/// Whether so much of a piece is used, and it ends this line, or none.
fn takes(lines: &mut Lines, piece: &[u8], used: usize, line: Option<&[u8]>) -> bool {
    let took = lines.take(piece);
    took.used == used
        && match took.what {
            LineOutcome::Line(found) => Some(found.as_slice()) == line,
            LineOutcome::More => line.is_none(),
            LineOutcome::TooLong => false,
        }
}

/// A piece of a stream, how much of it is used, and the line that it ends, if it ends one.
static PIECES: [(&[u8], usize, Option<&[u8]>); 3] = [
    (b"HEL", 3, None),
    (b"LO\r\nEND\r", 3, Some(b"HELLO")),
    (b"\nEND\r", 5, Some(b"END")),
];

#[test]
fn takes_lines_in_pieces(rt: HostRuntime) {
    let mut lines = Lines::new();
    for (piece, used, line) in &PIECES {
        assert!(rt; takes(&mut lines, piece, *used, *line), "{piece:?}");
    }
}

/// Whether so much of a piece is used, and the line is too long.
fn is_too_long(lines: &mut Lines, piece: &[u8], used: usize) -> bool {
    let took = lines.take(piece);
    took.used == used && matches!(took.what, LineOutcome::TooLong)
}

/// The longest line, and its end.
fn longest() -> [u8; 256] {
    let mut longest = [b'A'; 256];
    longest[255] = b'\r';
    longest
}

#[test]
fn ends_at_a_line_too_long(rt: HostRuntime) {
    let mut lines = Lines::new();
    assert!(rt; takes(&mut lines, &longest(), 256, Some(&[b'A'; 255])));
    assert!(rt; is_too_long(&mut lines, &[b'A'; 300], 256));
    assert!(rt; is_too_long(&mut lines, b"END\r", 0));
}

/// A line, and its command.
static COMMANDS: [(&[u8], Command); 20] = [
    (b"HELLO", Command::Hello),
    (b"  hello ", Command::Hello),
    (b"SELECT", Command::SelectAll),
    (b" select ", Command::SelectAll),
    (b"DATA", Command::Data(None)),
    (b"  data   1f ", Command::Data(Some(31))),
    (b"FETCH", Command::Fetch(None)),
    (b"fetch FFffFF", Command::Fetch(Some(16_777_215))),
    (b"END", Command::End),
    (b"bye  ", Command::Bye),
    (b"DATA 1234567", Command::Other),
    (b"DATA 12g", Command::Other),
    (b"STATION ABCDEF", Command::Other),
    (b"STATION STA XXX", Command::Other),
    (b"SELECT BHZ", Command::Other),
    (b"HELLO x", Command::Other),
    (b"HEL\0LO", Command::Other),
    (b"DATA\t1", Command::Other),
    (b"   ", Command::Other),
    (b"", Command::Other),
];

/// A line, and the station and the network that it chooses.
static STATIONS: [(&[u8], [u8; 5], Option<[u8; 2]>); 4] = [
    (b"STATION STA", *b"STA  ", None),
    (b" station   a1B2c  ", *b"a1B2c", None),
    (b"STATION STA XX", *b"STA  ", Some(*b"XX")),
    (b"Station STA  x", *b"STA  ", Some(*b"x ")),
];

#[test]
fn reads_commands(rt: HostRuntime) {
    for (line, wanted) in &COMMANDS {
        assert!(rt; Command::read(line) == *wanted, "{line:?}");
    }
    for (line, sta, net) in &STATIONS {
        let (sta, net) = (*sta, *net);
        let wanted = Command::Station { sta, net };
        assert!(rt; Command::read(line) == wanted, "{line:?}");
    }
}

/// Whether a request is written so.
fn is_written(request: &Request, wanted: &[u8]) -> bool
    requires { IsSpelled request.now }
{
    request.bytes().as_slice() == wanted
}

#[test]
fn writes_requests(rt: HostRuntime) {
    let place = Place::new(b"STA", b"X").expect(&rt, "a place");
    assert!(rt; is_written(&Request::Station(place), b"STATION STA X\r\n"));
    assert!(rt; is_written(&Request::Data(Some(0)), b"DATA 000000\r\n"));
    assert!(rt; is_written(&Request::Fetch(Some(11_259_375)), b"FETCH ABCDEF\r\n"));
    assert!(rt; is_written(&Request::Fetch(None), b"FETCH\r\n"));
    assert!(rt; is_written(&Request::End, b"END\r\n"));
}

/// A reply, and its bytes.
static REPLIES: [(Reply, &[u8]); 4] = [
    (Reply::Nothing, b""),
    (Reply::Ok, b"OK\r\n"),
    (Reply::Error, b"ERROR\r\n"),
    (Reply::Hello, b"SeedLink v3.0 (mseed)\r\nmseed feed\r\n"),
];

#[test]
fn replies(rt: HostRuntime) {
    for (reply, wanted) in &REPLIES {
        assert!(rt; reply.bytes() == *wanted, "{reply:?}");
    }
}

/// Whether the next command of the stream is this one, or there is none; the one after it is the next then.
fn is_next(at: &mut usize, command: Option<Command>) -> bool {
    let wanted = stream::COMMANDS.get(*at).copied();
    *at = at.saturating_add(1);
    wanted == command
}

/// Takes a piece of the stream, whose lines say the next of its commands. Says whether one was too long, after all
/// commands.
fn takes_piece(rt: &impl Abort, lines: &mut Lines, piece: &[u8], at: &mut usize) -> bool {
    let mut rest = piece;
    for _ in 0..64 {
        let took = lines.take(rest);
        rest = &rest[took.used..];
        match took.what {
            LineOutcome::More => return false,
            LineOutcome::Line(line) => assert!(rt; is_next(at, Some(Command::read(&line))), "{at}"),
            LineOutcome::TooLong => {
                assert!(rt; is_next(at, None));
                return true;
            }
        }
    }
    false
}

#[test]
fn reads_a_stream_cut_at_random(rt: HostRuntime) {
    let mut lines = Lines::new();
    let mut at = 0;
    for piece in &stream::PIECES {
        if takes_piece(&rt, &mut lines, piece, &mut at) {
            return;
        }
    }
    assert!(rt; false, "no line was too long");
}
