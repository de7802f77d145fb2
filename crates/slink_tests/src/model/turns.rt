//! Worked rows of turns, over links that fail.

use super::client::awaiting_packets;
use super::{record, three_pushed};
use mseed_stream::Counted;
use slink_feed::{Client, Feed, LinkFault, Session, Turn, fetch_turn, serve_turn};
use slink_wire::Packet;
use std::io;
use std::io::{Read, Write};
use std::process::Abort;

/// Tells its bytes, and takes bytes while there is room; then it fails.
#[derive(Drop)]
struct Pipe<'a> {
    reported: &'a [u8],
    room: usize,
}

impl Read for Pipe<'_> {
    fn read(&mut self, buf: &mut [u8]) -> io::Result<usize> {
        self.reported.read(buf)
    }
}

impl Write for Pipe<'_> {
    fn write(&mut self, bytes: &[u8]) -> io::Result<usize> {
        if self.room == 0 {
            return Err(io::ErrorKind::Other.into());
        }
        let n = bytes.len().min(self.room);
        self.room -= n;
        Ok(n)
    }

    fn flush(&mut self) -> io::Result<()> {
        Ok(())
    }
}

/// A link that gives these bytes, and has room for so many.
fn link_of(reported: &[u8], room: usize) -> Counted<Pipe<'_>> {
    Counted::new(Pipe { reported, room })
}

/// What a client says that lacks records 1 and 2.
const REQUEST: &[u8] = b"STATION STA XX\r\nFETCH 1\r\nEND\r\n";

/// Whether the second turn of a server over a link with so much room ends so, and the client's position is this then.
fn serves(feed: &Feed, room: usize, wanted: &Result<Turn, LinkFault>, position: u64) -> bool {
    let mut session = Session::new();
    let mut link = link_of(REQUEST, room);
    serve_turn(&mut session, feed, &mut link) == Ok(Turn::Goes)
        && serve_turn(&mut session, feed, &mut link) == *wanted
        && session.position(0) == Some(position)
}

#[test]
fn serves_until_the_link_fails(rt: HostRuntime) {
    let feed = three_pushed(&rt, rt.alloc(), 0);
    assert!(rt; serves(&feed, 8 + 519, &Err(LinkFault::Write(519)), 2));
    assert!(rt; serves(&feed, 8 + 520 + 520 + 2, &Err(LinkFault::Write(1042)), 3));
    assert!(rt; serves(&feed, 8 + 520 + 520 + 3, &Ok(Turn::Closed), 3));
}

/// The packets of records 1 and 2 of STA.
fn two_packets() -> [u8; 1040] {
    let mut reported = [0; 1040];
    reported[..520].copy_from_slice(&Packet::write(1, &record(b"STA  ", 1)));
    reported[520..].copy_from_slice(&Packet::write(2, &record(b"STA  ", 2)));
    reported
}

/// Whether the turns of a client end so that is given both packets, and has an output with so much room.
fn fetches(client: &mut Client, room: usize, turns: &[Result<Turn, LinkFault>]) -> bool {
    let reported = two_packets();
    let mut link = link_of(&reported, 0);
    let mut output = link_of(b"", room);
    let mut is_well = true;
    for wanted in turns {
        is_well = is_well && fetch_turn(client, &mut link, &mut output) == *wanted;
    }
    is_well
}

/// Whether the turns of such a client end so, and it wants this number next then.
fn is_fetched(rt: &impl Abort, room: usize, turns: &[Result<Turn, LinkFault>], next: u32) -> bool {
    let mut client = awaiting_packets(rt);
    fetches(&mut client, room, turns) && client.next(0) == Some(next)
}

#[test]
fn fetches_until_the_output_fails(rt: HostRuntime) {
    // The first turn reads one packet, 520 bytes.
    assert!(rt; is_fetched(&rt, 511, &[Err(LinkFault::Output(511))], 2));
    assert!(rt; is_fetched(&rt, 612, &[Ok(Turn::Goes), Err(LinkFault::Output(100))], 3));
    assert!(rt;
        is_fetched(
            &rt,
            1024,
            &[Ok(Turn::Goes), Ok(Turn::Goes), Ok(Turn::Closed)],
            3
        )
    );
}
