//! Links over TCP, by one thread.

use crate::links::rest_of;
use crate::live::{push, record, server_of};
use slink_links::{LivePlan, LiveTcp};
use std::alloc::Global;
use std::io;
use std::io::{Read, Write};
use std::net::{Ipv4Addr, Net, SocketAddr};
use std::os::fd::{AsRawFd, RawFd};
use std::process::Abort;
use std::time::{Clock, Duration};

/// So many bytes are read at once, so that those who dial are there before the end.
const PIECE: usize = 64;

/// An input in memory, which can't be polled, as a regular file.
#[derive(Drop)]
struct Input {
    bytes: [u8; 512],
    given: usize,
}

impl AsRawFd for Input {
    fn as_raw_fd(&self) -> RawFd {
        -1
    }
}

impl Read for Input {
    fn read(&mut self, buf: &mut [u8]) -> io::Result<usize> {
        let given = self.given.min(self.bytes.len());
        let count = (self.bytes.len() - given).min(buf.len()).min(PIECE);
        buf[..count].copy_from_slice(&self.bytes[given..given + count]);
        self.given = given + count;
        Ok(count)
    }
}

/// A listener for three links, with a record as its input.
fn bound<N: Net + Clock>(host: &N, alloc: Global) -> io::Result<LiveTcp<'_, N, Input>> {
    let plan = LivePlan {
        address: SocketAddr::from((Ipv4Addr::LOCALHOST, 0)),
        clients: 3,
        timeout: Some(Duration::from_secs(1)),
    };
    let input = Input {
        bytes: record(b"STA", 0),
        given: 0,
    };
    LiveTcp::bind(host, alloc, plan, input)
}

/// What each client says: the last one is silent.
static SAID: [&[u8]; 3] = [
    b"STATION STA XX\r\nDATA 0\r\nEND\r\n",
    b"STATION STA XX\r\nDATA 0\r\nEND\r\n",
    b"",
];

/// A link to this address, over which this is said.
fn dialled<N: Net>(host: &N, address: SocketAddr, said: &[u8]) -> io::Result<N::Stream> {
    let mut stream = host.connect(address)?;
    stream.write_all(said)?;
    Ok(stream)
}

/// The links of all clients.
fn all_dialled<N: Net>(
    rt: &impl Abort,
    host: &N,
    alloc: Global,
    address: SocketAddr,
) -> Vec<N::Stream> {
    let mut streams = Vec::new(alloc);
    for said in SAID {
        let stream = dialled(host, address, said).expect(rt, "a link");
        streams.push(stream).expect(rt, "memory");
    }
    streams
}

/// What a client is sent that asks for the record.
fn sent(rt: &impl Abort, alloc: Global) -> Vec<u8> {
    let mut bytes = Vec::new(alloc);
    push(rt, &mut bytes, b"OK\r\nOK\r\nSL000000");
    push(rt, &mut bytes, &record(b"STA", 0));
    bytes
}

/// Whether each of these links brings the record, where its client said something, and ends then.
fn have_the_record<S: Read>(rt: &impl Abort, alloc: Global, streams: &mut [S]) -> bool {
    let wanted = sent(rt, alloc);
    let mut is_well = streams.len() == 3;
    for (stream, said) in streams.iter_mut().zip(SAID) {
        let wanted = if said.is_empty() {
            b""
        } else {
            wanted.as_slice()
        };
        is_well = is_well && rest_of(rt, alloc, stream).as_slice() == wanted;
    }
    is_well
}

/// Whether a server of one ring serves its links until none is left, and nothing fails.
fn is_served<N: Net + Clock>(
    rt: &impl Abort,
    alloc: Global,
    tcp: &mut LiveTcp<'_, N, Input>,
) -> bool {
    let mut server = server_of(rt, alloc, 10);
    server.serve(tcp).is_ok() && !tcp.has_failed()
}

#[test]
fn each_link_has_the_record_and_a_silent_one_is_given_up(rt: HostRuntime) {
    let mut tcp = bound(&rt, rt.alloc()).expect(&rt, "a listener");
    let address = tcp.address().expect(&rt, "an address");
    let mut streams = all_dialled(&rt, &rt, rt.alloc(), address);
    assert!(rt; is_served(&rt, rt.alloc(), &mut tcp));
    assert!(rt; have_the_record(&rt, rt.alloc(), &mut streams));
    drop(streams);
    tcp.finish();
}
