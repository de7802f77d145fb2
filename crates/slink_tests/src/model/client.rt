//! Worked rows of clients.

ghost use Rattle.std.specs.Prelude.{◌^◌, ◌<◌};

use super::{place, record};
use slink_feed::{Client, Event, Mode};
use slink_wire::Packet;
use std::process::Abort;

/// A client of STA of XX that wants record 1, and awaits packets.
pub(crate) fn awaiting_packets(rt: &impl Abort) -> Client {
    let mut client = Client::new(&[(place(rt, b"STA"), Some(1))], Mode::Data);
    client.connect();
    client.take(b"OK\r\n");
    client.take(b"OK\r\n");
    client
}

/// Whether a client takes so many of these bytes, and they come to this.
fn takes(client: &mut Client, bytes: &[u8], count: usize, wanted: &Event) -> bool {
    let (used, event) = client.take(bytes);
    used == count && event == *wanted
}

/// Whether a client takes these bytes whole, ends so, and stays so.
fn ends(client: &mut Client, bytes: &[u8], wanted: &Event) -> bool {
    takes(client, bytes, bytes.len(), wanted) && takes(client, bytes, 0, wanted)
}

/// Whether a new link begins with the line of its station.
fn begins_anew(client: &mut Client) -> bool {
    client.connect().as_slice() == b"STATION STA XX\r\n".as_slice()
}

/// Whether a client that awaits a reply ends so at these bytes. Before there is a link it takes them, and says nothing.
fn is_refused_at(rt: &impl Abort, bytes: &[u8], wanted: &Event) -> bool {
    let mut client = Client::new(&[(place(rt, b"STA"), None)], Mode::Fetch);
    let is_quiet = takes(&mut client, bytes, bytes.len(), &Event::None);
    is_quiet && begins_anew(&mut client) && ends(&mut client, bytes, wanted)
}

#[test]
fn ends_at_what_is_no_reply(rt: HostRuntime) {
    assert!(rt; is_refused_at(&rt, b"OKAY\r\n", &Event::Garbage));
    assert!(rt; is_refused_at(&rt, &[b'A'; 256], &Event::Garbage));
    assert!(rt; is_refused_at(&rt, b"ERROR busy\r\n", &Event::Refused(0)));
    assert!(rt; is_refused_at(&rt, b"ERRORS\r\n", &Event::Refused(0)));
}

/// Whether a client that awaits packets ends so at these bytes, and wants the same record over a new link.
fn is_ended_by(rt: &impl Abort, bytes: &[u8], wanted: &Event) -> bool {
    let mut client = awaiting_packets(rt);
    ends(&mut client, bytes, wanted) && client.next(0) == Some(1) && begins_anew(&mut client)
}

#[test]
fn ends_at_what_is_no_packet(rt: HostRuntime) {
    for bytes in [b"SL00000g".as_slice(), b"SXabcdef", b"X", b"ENX"] {
        assert!(rt; is_ended_by(&rt, bytes, &Event::Garbage));
    }
    assert!(rt; is_ended_by(&rt, b"END", &Event::End));
}

#[test]
fn ends_at_the_packet_of_another_record(rt: HostRuntime) {
    let gap = Event::Gap {
        place: 0,
        want: 1,
        got: 2,
    };
    assert!(rt; is_ended_by(&rt, &Packet::write(2, &record(b"STA  ", 0)), &gap));
    assert!(rt;
        is_ended_by(
            &rt,
            &Packet::write(1, &record(b"ABC  ", 0)),
            &Event::Foreign
        )
    );
}

/// The bytes of a packet without the last one.
fn all_but_one(packet: &[u8; 520]) -> &[u8] {
    &packet[..519]
}

/// What an event says.
fn written(event: &Event) -> &[u8] {
    match event {
        Event::Say(bytes) => bytes.as_slice(),
        _ => b"",
    }
}

/// Whether a client answers one of two replies with this line.
fn says(client: &mut Client, line: &[u8]) -> bool {
    let (used, event) = client.take(b"OK\r\nOK\r\n");
    used == 4 && written(&event) == line
}

/// A client of two stations, over its first link.
fn of_two_places(rt: &impl Abort) -> Client {
    let places = [
        (place(rt, b"STA"), Some(0xFF_FFFF)),
        (place(rt, b"STB"), None),
    ];
    let mut client = Client::new(&places, Mode::Data);
    client.connect();
    client
}

/// Whether a client of two stations requests both.
fn requests_both(client: &mut Client) -> bool {
    says(client, b"DATA FFFFFF\r\n")
        && says(client, b"STATION STB XX\r\n")
        && says(client, b"DATA\r\n")
        && says(client, b"END\r\n")
}

/// Whether a packet brings its record.
fn brings(client: &mut Client, place: usize, number: u32, record: &[u8; 512]) -> bool
    requires { number < 2 ^ 24 }
{
    takes(
        client,
        &Packet::write(number, record),
        520,
        &Event::Record(place, number, *record),
    )
}

/// Whether a client that requested both takes a record of each, and a packet but for its last byte.
fn takes_both(client: &mut Client) -> bool {
    let first = record(b"STA  ", 1);
    brings(client, 0, 0xFF_FFFF, &first)
        && brings(client, 1, 7, &record(b"STB  ", 2))
        && takes(
            client,
            all_but_one(&Packet::write(0, &first)),
            519,
            &Event::None,
        )
}

/// Whether it wants these records next, and says so over a new link.
fn goes_on(client: &mut Client) -> bool {
    let is_well = client.next(0) == Some(0) && client.next(1) == Some(8);
    client.connect();
    is_well && says(client, b"DATA 000000\r\n")
}

#[test]
fn asks_for_each_place(rt: HostRuntime) {
    let mut client = of_two_places(&rt);
    assert!(rt; requests_both(&mut client));
    assert!(rt; takes_both(&mut client));
    assert!(rt; goes_on(&mut client));
}
