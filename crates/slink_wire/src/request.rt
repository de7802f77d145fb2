//! The lines that a client writes.
ghost use Rattle.std.specs.Prelude.{◌≡◌, ◌++◌, ◌≤◌, length};
ghost use Rattle.slink_wire.specs.Reply.{line_end};
ghost use Rattle.slink_wire.specs.Command.{IsCommand};
ghost use Rattle.slink_wire.specs.Request.{IsShort, IsSpelled, number_bytes, request_bytes, request_line, requested};

use crate::hexadecimal::six_digits;
use crate::place::Place;
use crate::putting::put;
use arrayvec::ArrayVec;

/// What a client asks for.
#[derive(Clone, Copy, Debug, PartialEq, Eq)]
pub enum Request {
    /// A station in its network is chosen.
    Station(Place),
    /// The records of the station as they come, from the next one on or from a number.
    Data(Option<u32>),
    /// The records of the station that are there, from the oldest one on or from a number.
    Fetch(Option<u32>),
    /// The records are to be sent.
    End,
}

/// The line of a station.
fn station_line(place: &Place) -> ArrayVec<u8, 32>
    ensures value { result.items ≡ request_bytes (Request.Station place.now) }
    ensures command { IsCommand (request_line (Request.Station place.now)) (requested (Request.Station place.now)) }
{
    let mut line = ArrayVec::new();
    put(&mut line, b"STATION ");
    put(&mut line, place.station());
    put(&mut line, b" ");
    put(&mut line, place.network());
    put(&mut line, b"\r\n");
    line
}

/// The line of a keyword, with a number where there is one.
fn numbered_line(keyword: &[u8], number: Option<u32>) -> ArrayVec<u8, 32>
    requires keyword { length keyword.now ≤ 8 }
    requires number { IsShort number }
    ensures { result.items ≡ keyword.now ++ number_bytes number ++ line_end }
{
    let mut line = ArrayVec::new();
    put(&mut line, keyword);
    if let Some(number) = number {
        put(&mut line, b" ");
        put(&mut line, &six_digits(number));
    }
    put(&mut line, b"\r\n");
    line
}

impl Request {
    /// Returns the line of the request, with CR LF: in capitals, a number, which is below 2^24, in six digits.
    #[tactic(auto, using(crate::proofs::Requests::data_written, crate::proofs::Requests::fetch_written, crate::proofs::Requests::end_written))]
    pub fn bytes(&self) -> ArrayVec<u8, 32>
        requires { IsSpelled self.now }
        ensures value { result.items ≡ request_bytes self.now }
        // Who reads the line takes it for this command.
        ensures command { IsCommand (request_line self.now) (requested self.now) }
    {
        match self {
            Request::Station(place) => station_line(place),
            Request::Data(number) => numbered_line(b"DATA", *number),
            Request::Fetch(number) => numbered_line(b"FETCH", *number),
            Request::End => numbered_line(b"END", None),
        }
    }
}
