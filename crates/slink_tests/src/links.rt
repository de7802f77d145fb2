//! Worked rows of serving and fetching over one link after another, in memory and over TCP.
ghost use Rattle.std.specs.Prelude.{◌≡◌, ◌+◌, IfSome, is_none, if◌then◌else◌, refl};
ghost use Rattle.mseed_stream.specs.Counted.{read_by, written_by};
ghost use Rattle.mseed_stream.specs.Device.{accepted, nothing_read, nothing_written};
ghost use Rattle.slink_links.specs.Out.{AreOut};

mod buffers;
mod fetching;
mod listening;
mod serving;
mod tcp;

use crate::live::push;
use crate::model::{place, record};
use mseed_stream::{Counted, Duplex, Exchanges, Failed, Sink, Source, Tally};
use slink_feed::{Client, Feed, Mode};
use slink_links::{
    Accept, Dial, DialFault, EndsHandshake, FetchPlan, ListenFault, Loss, NetworkFault, Pause,
    ServePlan, Server, Sleeper, TcpAcceptor, TcpDialler, Trouble, fetch_planned, serve_planned,
};
use slink_wire::{Address, Host, Packet, Timeout};
use std::alloc::{AllocError, Global};
use std::io;
use std::io::{ErrorKind, Read, Write};
use std::net::Net;
use std::ops::Range;
use std::process::Abort;
use std::time::Clock;

/// Room for all that is written.
const ALL: usize = 1 << 20;

/// Serves what a plan says over TCP, and returns the exit status.
///
/// # Errors
///
/// Why the port can't be had, or memory; nothing is reported then.
fn serve<N: Net + Clock, E: Sink>(
    host: &N,
    alloc: Global,
    plan: &ServePlan,
    errors: &mut E,
) -> Result<u8, ListenFault> {
    match TcpAcceptor::bind(host, alloc, plan.address, plan.port, plan.timeout) {
        Ok(mut acceptor) => Ok(serve_planned(plan, &mut acceptor, errors)),
        Err(error) => Err(ListenFault::of(&error)),
    }
}

/// Fetches what a plan says over TCP, and returns the exit status.
///
/// # Errors
///
/// Where there is no memory; nothing is reported then.
fn fetch<N: Net + Clock, W: Sink, E: Sink>(
    host: &N,
    alloc: Global,
    plan: &mut FetchPlan,
    output: &mut W,
    errors: &mut E,
) -> Result<u8, AllocError> {
    let server = Server {
        host: plan.host,
        port: plan.port,
    };
    let mut dialler = TcpDialler::new(host, alloc, server, plan.timeout)?;
    Ok(fetch_planned(plan, &mut dialler, &mut Sleeper::new(host), output, errors))
}

/// The line of a link that failed, where the status says so.
fn line_of(status: u8) -> &'static [u8] {
    if status == 0 {
        b""
    } else {
        b"mseed: link failed\n"
    }
}

/// Tells its bytes, and takes bytes while there is room; then it fails.
#[derive(Drop)]
pub(crate) struct Pipe<'a> {
    reported: &'a [u8],
    room: usize,
    taken: Vec<u8>,
}

impl<'a> Pipe<'a> {
    /// A pipe that gives these bytes, and has room for so many.
    pub(crate) fn new(alloc: Global, reported: &'a [u8], room: usize) -> Pipe<'a> {
        Pipe {
            reported,
            room,
            taken: Vec::new(alloc),
        }
    }
}

impl Read for Pipe<'_> {
    fn read(&mut self, buf: &mut [u8]) -> io::Result<usize> {
        self.reported.read(buf)
    }
}

impl Write for Pipe<'_> {
    fn write(&mut self, bytes: &[u8]) -> io::Result<usize> {
        let n = bytes.len().min(self.room);
        if n == 0 || self.taken.extend_from_slice(&bytes[..n]).is_err() {
            return Err(ErrorKind::Other.into());
        }
        self.room -= n;
        Ok(n)
    }

    fn flush(&mut self) -> io::Result<()> {
        Ok(())
    }
}

/// A link over a pipe.
#[derive(Drop)]
struct Link<'a> {
    over: Counted<Pipe<'a>>,
}

impl Source for Link<'_> {
    ghost read = { λ l. read_by l.over };

    ghost beside = { λ l. accepted (written_by l.over) };

    fn pull(&mut self, buf: &mut [u8]) -> Result<usize, Failed> {
        self.over.pull(buf)
    }

    fn lend(&self) -> &[u8] {
        &[]
    }

    fn consume(&mut self, amount: usize) {
        self.over.consume(amount)
    }
}

impl Sink for Link<'_> {
    ghost written = { λ l. written_by l.over };

    ghost beside = { λ l. read_by l.over };

    fn put(&mut self, bytes: &[u8]) -> Result<usize, Failed> {
        self.over.put(bytes)
    }
}

impl Duplex for Link<'_> {
    ghost reads_apart = { λ l. refl };

    ghost writes_apart = { λ l. refl };
}

impl EndsHandshake for Link<'_> {}

/// What is to wait, and doesn't.
#[derive(Drop)]
struct Clockless {
    called: Tally,
    tenths: Vec<u8>,
}

impl Clockless {
    fn new(alloc: Global) -> Clockless {
        Clockless {
            called: Tally::new(),
            tenths: Vec::new(alloc),
        }
    }
}

impl Pause for Clockless {
    ghost called = { λ c. c.called.bytes };

    fn pause(&mut self, tenths: u8) {
        self.called.record(&[tenths], false);
        let _ = self.tenths.push(tenths);
    }
}

/// An output with room for so many bytes.
fn output(alloc: Global, room: usize) -> Counted<Pipe<'static>> {
    Counted::new(Pipe::new(alloc, b"", room))
}

/// What an output accepted.
fn taken_by(output: Counted<Pipe>) -> Vec<u8> {
    output.into_inner().taken
}

/// Links, the last of which comes first, and calls that fail; and what each link accepted that was given back.
#[derive(Drop)]
struct Links<'a> {
    coming: Vec<Option<Pipe<'a>>>,
    taken: Vec<Vec<u8>>,
    tally: Tally,
    lost: Tally,
    given_back: Exchanges,
    trouble: Option<Trouble>,
}

impl<'a> Links<'a> {
    /// A link for each of these bytes that it gives, with room for so many; where there are none, the call fails.
    fn new(rt: &impl Abort, alloc: Global, links: &[Option<(&'a [u8], usize)>]) -> Links<'a>
        ensures { AreOut 0 result.tally.calls result.tally.failures result.given_back.all }
    {
        let mut coming = Vec::new(alloc);
        for link in links.iter().rev() {
            let pipe = link.map(|(reported, room)| Pipe::new(alloc, reported, room));
            coming.push(pipe).expect(rt, "memory");
        }
        Links {
            coming,
            taken: Vec::new(alloc),
            tally: Tally::new(),
            lost: Tally::new(),
            given_back: Exchanges::new(),
            trouble: None,
        }
    }

    /// The next link, or none where the call fails.
    fn next(&mut self) -> Option<Link<'a>>
        ensures calls { self.new.tally.calls ≡ self.old.tally.calls + 1 }
        ensures failures { self.new.tally.failures
            ≡ self.old.tally.failures + (if is_none result then 1 else 0) }
        ensures lost { self.new.lost ≡ self.old.lost }
        ensures given_back { self.new.given_back ≡ self.old.given_back }
        ensures unused { IfSome result
            (λ link. (read_by link.over ≡ nothing_read) × (written_by link.over ≡ nothing_written)) }
    {
        match self.coming.pop().flatten() {
            Some(pipe) => {
                self.tally.record(&[], false);
                Some(Link {
                    over: Counted::new(pipe),
                })
            }
            None => {
                self.tally.record(&[], true);
                None
            }
        }
    }
}

impl<'a> Accept for Links<'a> {
    type Link = Link<'a>;

    ghost calls = { λ l. l.tally.calls };

    ghost failures = { λ l. l.tally.failures };

    ghost lost = { λ l. l.lost.failures };

    ghost given_back = { λ l. l.given_back.all };

    fn accept(&mut self) -> Option<Link<'a>> {
        self.next()
    }

    fn hang_up(&mut self, link: Link<'a>, failed: bool) {
        self.given_back.record(&link.over);
        self.lost.record(&[], failed);
        let _ = self.taken.push(link.over.into_inner().taken);
    }
}

impl<'a> Dial for Links<'a> {
    type Link = Link<'a>;

    ghost calls = { λ l. l.tally.calls };

    ghost failures = { λ l. l.tally.failures };

    ghost given_back = { λ l. l.given_back.all };

    ghost trouble = { λ l. l.trouble };

    fn dial(&mut self) -> Result<Link<'a>, DialFault> {
        match self.next() {
            Some(link) => Ok(link),
            None => {
                let fault = DialFault::Unconnected(NetworkFault::Refused);
                self.trouble = Some(Trouble::Undialled(fault));
                Err(fault)
            }
        }
    }

    fn hang_up(&mut self, link: Link<'a>) -> Loss {
        self.given_back.record(&link.over);
        let _ = self.taken.push(link.over.into_inner().taken);
        self.trouble = Some(Trouble::Lost(Loss::Closed));
        Loss::Closed
    }
}

/// What a client says that lacks records 1 and 2.
pub(crate) const REQUEST: &[u8] = b"STATION STA XX\r\nFETCH 1\r\nEND\r\n";

/// A client that holds record 0 and asks for those that are there, and what it says.
fn client(rt: &impl Abort) -> Client {
    Client::new(&[(place(rt, b"STA"), Some(1))], Mode::Fetch)
}

const FROM_1: &[u8] = b"STATION STA XX\r\nFETCH 000001\r\nEND\r\n";

/// A plan to fetch from this host by so many tries, and with so many seconds for each answer.
fn plan_of(client: Client, tries: u32, seconds: u32) -> FetchPlan {
    FetchPlan {
        host: Host::Address(Address::local()),
        port: 0,
        tries,
        timeout: Timeout { seconds },
        report_next: false,
        client,
    }
}

/// A plan to serve a feed to so many connections at this host.
fn serve_plan_of(feed: Feed, connections: u32, seconds: u32) -> ServePlan {
    ServePlan {
        address: Address::local(),
        port: 0,
        connections,
        timeout: Timeout { seconds },
        feed,
    }
}

/// The records of these marks, one after another.
fn records(rt: &impl Abort, alloc: Global, marks: Range<u8>) -> Vec<u8> {
    let mut bytes = Vec::new(alloc);
    for mark in marks {
        push(rt, &mut bytes, &record(b"STA  ", mark));
    }
    bytes
}

/// Records 1 and 2.
fn two_records(rt: &impl Abort, alloc: Global) -> Vec<u8> {
    records(rt, alloc, 1..3)
}

/// The packet of the record that has this number as its mark.
pub(crate) fn packet(number: u8) -> [u8; 520] {
    Packet::write(u32::from(number), &record(b"STA  ", number))
}

/// Two replies, the packets of the records of these marks, and the end.
fn packets(rt: &impl Abort, alloc: Global, marks: Range<u8>) -> Vec<u8> {
    let mut bytes = Vec::new(alloc);
    push(rt, &mut bytes, b"OK\r\nOK\r\n");
    for mark in marks {
        push(rt, &mut bytes, &packet(mark));
    }
    push(rt, &mut bytes, b"END");
    bytes
}

/// Two replies, the packets of records 1 and 2, and the end.
fn two_packets(rt: &impl Abort, alloc: Global) -> Vec<u8> {
    packets(rt, alloc, 1..3)
}

/// All that a link or an input is still to give.
pub(crate) fn rest_of<R: Read>(rt: &impl Abort, alloc: Global, reader: &mut R) -> Vec<u8> {
    let mut rest = Vec::new(alloc);
    reader.read_to_end(&mut rest).expect(rt, "bytes");
    rest
}
