//! What the two commands of a feed leave to do: all but the sockets.
use slink_feed::{Client, Feed};
use slink_wire::{Address, Host, Timeout};
use std::alloc::{Allocator, Global};

/// How records are to be served.
#[derive(Drop)]
pub struct ServePlan<A: Allocator = Global> {
    /// The address of this machine at which connections are taken.
    pub address: Address,
    /// The port there.
    pub port: u16,
    /// The number of connections that are served, one after another.
    pub connections: u32,
    /// How long a client's handshake may take as a whole, and each write to it after that. After its handshake it may
    /// be silent for any time.
    pub timeout: Timeout,
    /// The records, each in the ring of its station.
    pub feed: Feed<A>,
}

/// Where a server listens from which is fetched.
#[derive(Clone, Copy)]
pub struct Server {
    /// The host.
    pub host: Host,
    /// The port there.
    pub port: u16,
}

/// From which server is fetched, over how many tries, and what is reported.
#[derive(Clone, Copy)]
pub struct FetchTerms {
    /// The server, which is named where its links fail.
    pub server: Server,
    /// The most connections that are tried.
    pub tries: u64,
    /// Whether standard error is informed of the first record of each station and, at the end, of what is wanted next.
    pub report_next: bool,
}

/// How records are to be fetched.
#[derive(Drop)]
pub struct FetchPlan {
    /// The host that is asked for links.
    pub host: Host,
    /// The port there.
    pub port: u16,
    /// The most connections that are tried.
    pub tries: u32,
    /// How long it may take to connect, how long the handshake may take as a whole, and each read or write after it.
    pub timeout: Timeout,
    /// Whether standard error is informed of the first record of each station and, at the end, of what is wanted next.
    pub report_next: bool,
    /// A new client, for the stations that were requested.
    pub client: Client,
}
