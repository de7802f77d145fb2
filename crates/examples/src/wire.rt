//! Calls of `slink_wire`.
ghost use Rattle.std.specs.Prelude.{IfOk, ◌≡◌, ◌<◌, ◌^◌};
ghost use Rattle.slink_wire.specs.Command.{IsCommand};
ghost use Rattle.slink_wire.specs.Packet.{IsPacket, packet_bytes};
ghost use Rattle.slink_wire.specs.Place.{SpellsPlace};

use arrayvec::ArrayVec;
use slink_wire::{
    Address, BadPlace, Command, Host, LineOutcome, Lines, Name, NotPacket, Packet, Place, Reply,
    Request, Timeout, header_codes, put, six_digits,
};
use std::time::Duration;

/// The place of a network and station, such as `NL_HGN`.
pub fn place_of(text: &[u8]) -> Result<Place, BadPlace>
    ensures { IfOk result (SpellsPlace text.now) }
{
    Place::read(text)
}

/// Whether two places are of one network.
pub fn are_in_one_network(one: &Place, other: &Place) -> bool {
    one.network() == other.network() && one.station() != other.station()
}

/// The text that spells the place of a station and network.
pub fn text_of(place: &Place) -> ArrayVec<u8, 8>
    ensures { SpellsPlace result.items place.now }
{
    place.label()
}

/// Whether a record is of the station HGN in the network NL.
pub fn is_of_hgn(record: &[u8; 512]) -> Result<bool, BadPlace> {
    let place = Place::new(b"HGN", b"NL")?;
    Ok(place.bears(record))
}

/// The command of a line.
pub fn command_of(line: &[u8]) -> Command
    ensures { IsCommand line.now result }
{
    Command::read(line)
}

/// Whether a command chooses a place.
pub fn chooses(command: &Command, place: &Place) -> bool {
    match command {
        Command::Station { sta, net } => place.matches(sta, *net),
        _ => false,
    }
}

/// The first command of a stream's first bytes, where its line has ended.
pub fn first_command(bytes: &[u8]) -> Option<Command> {
    let mut lines = Lines::new();
    let took = lines.take(bytes);
    match took.what {
        LineOutcome::Line(line) => Some(Command::read(&line)),
        LineOutcome::More | LineOutcome::TooLong => None,
    }
}

/// The line by which a client asks for a server's name.
pub fn greeting() -> ArrayVec<u8, 32> {
    let mut line = ArrayVec::new();
    put(&mut line, b"HELLO");
    put(&mut line, b"\r\n");
    line
}

/// The bytes by which a server refuses a line.
pub fn refusal() -> &'static [u8] {
    Reply::Error.bytes()
}

/// The line by which a client chooses a place.
pub fn choice_of(place: Place) -> ArrayVec<u8, 32> {
    Request::Station(place).bytes()
}

/// The packet of a record, and its number read back.
pub fn packet_of(number: u32, bytes: &[u8; 512]) -> [u8; 520]
    requires { number < 2 ^ 24 }
    ensures { IsPacket result number bytes.now }
{
    Packet::write(number, bytes)
}

/// Puts the packet of a record into room that is used for one after another.
pub fn put_packet(room: &mut [u8; 520], number: u32, bytes: &[u8; 512])
    requires { number < 2 ^ 24 }
    ensures { room.new ≡ packet_bytes number bytes.now }
{
    Packet::put(room, number, bytes);
}

/// The number of a packet's record.
pub fn number_of(packet: &[u8; 520]) -> Result<u32, NotPacket> {
    let (number, _record) = Packet::read(packet)?;
    Ok(number)
}

/// Whether the first eight bytes of a packet say that it has the number that is wanted.
pub fn has_number(head: &[u8; 8], wanted: u32) -> bool {
    Packet::number(head) == Some(wanted)
}

/// The digits of the number after one.
pub fn digits_after(number: u32) -> [u8; 6]
    requires { number < 2 ^ 24 }
{
    six_digits(number + 1)
}

/// Whether two records are of one station, in whatever networks.
pub fn are_of_one_station(one: &[u8; 512], other: &[u8; 512]) -> bool {
    header_codes(one).0 == header_codes(other).0
}

/// Whom an argument names: this machine, or a host that the system resolves.
pub fn host_named(word: &str) -> Option<Host> {
    match word {
        "here" => Some(Host::Address(Address::local())),
        _ => Some(Host::Name(Name::new(word)?)),
    }
}

/// The name of a host, where it has one.
pub fn name_in(host: &Host) -> Option<&str> {
    match host {
        Host::Address(_) => None,
        Host::Name(name) => Some(name.text()),
    }
}

/// How long a call waits at most over a link whose time-out is a number of seconds, if there is a bound.
pub fn longest_wait(seconds: u32) -> Option<Duration> {
    Timeout { seconds }.limit()
}
