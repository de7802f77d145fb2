//! What a command line requests.
use crate::places::Places;
use mseed_select::Selector;
use mseed_steim::Encoding;
use slink_wire::{Address, Host, Timeout};

/// What the arguments of a command line request, of which records, and of which files.
#[derive(Drop)]
pub struct Command<'a> {
    /// What is done.
    pub request: Request,
    /// Which records of the input it is done with, where the arguments say: else with all of them.
    pub selector: Option<Selector<'a>>,
    /// The arguments that name the files whose bytes, one after another, are the input; `-` is standard input. Without
    /// one standard input is read.
    pub files: Vec<&'a str>,
}

/// What is done with an input, or with a feed.
#[derive(Drop)]
pub enum Request {
    /// Audit the archive.
    Audit,
    /// Audit the archive, and report each finding.
    AuditEach,
    /// Audit the archive, and write its part.
    AuditPart,
    /// Audit the archive, report each finding, and write its part.
    AuditPartEach,
    /// Join the parts, and write what the audit of their archives says.
    Join(Joining),
    /// Join the parts, write what the audit of their archives says, and report each border with a finding.
    JoinEach(Joining),
    /// Join the parts, and write their joint part.
    JoinPart(Joining),
    /// List the records.
    Show,
    /// Write the records as they are.
    Select,
    /// Pack the archive anew.
    Repack(Packing),
    /// Pack the archive anew, each channel as a list of stretches.
    RepackStretches {
        /// What records it is packed into.
        packing: Packing,
        /// Whether channels that can't be packed are left out.
        leave: bool,
    },
    /// Serve the records on standard input.
    Serve(Serving),
    /// Serve the records on standard input while they come.
    Live(LiveServing),
    /// Fetch the records that are served.
    Fetch(Fetching),
}

/// How parts are joined.
#[derive(Clone, Copy)]
pub struct Joining {
    /// Whether parts after one that ends with a fault count.
    pub past_faults: bool,
    /// The number of parts that there have to be, where it is given: 1 to 999,999,999.
    pub expected: Option<u64>,
}

/// What records an archive is packed into.
#[derive(Clone, Copy)]
pub struct Packing {
    /// The length of a record, as an exponent of 2: 7 stands for 128 bytes, and 12 for 4,096.
    pub exponent: u8,
    /// The encoding of the samples.
    pub encoding: Encoding,
}

/// Where connections are taken, which is an [`Address`] of this machine, or whom to ask for them, which is a [`Host`].
#[derive(Clone, Copy)]
pub struct Endpoint<H> {
    /// The machine: this one's address, or the host that is asked.
    pub host: H,
    /// The port there, 1 to 65,535.
    pub port: u16,
    /// How long a handshake may take as a whole, and after it a write, and of one who fetches a read too: up to a day.
    /// 0 stands for any time.
    pub timeout: Timeout,
}

/// How records are served.
#[derive(Drop)]
pub struct Serving {
    /// Where connections are taken.
    pub listener: Endpoint<Address>,
    /// The number of connections that are served, one after another: 1 to 1,000,000.
    pub connections: u32,
    /// The number of records that the ring of each place keeps: 1 to 1,000,000.
    pub capacity: u32,
    /// The number of the first record of each place, below 2^24.
    pub first: u32,
    /// The places whose records are served, none with a number of its own.
    pub places: Places,
}

/// How records are served to many clients at once, while they come.
#[derive(Drop)]
pub struct LiveServing {
    /// Where connections are taken, and the rings. Its count of connections is that of a `serve` that names none, and
    /// isn't requested.
    pub serving: Serving,
    /// The number of connections that stand at once: 1 to 1,024.
    pub clients: u32,
}

/// What is fetched.
#[derive(Drop)]
pub struct Fetching {
    /// The host that is asked, and at which port.
    pub server: Endpoint<Host>,
    /// The most connections that are tried: 1 to 1,000,000.
    pub tries: u32,
    /// The places whose records are requested, each with the number of the first one that is wanted, where that is
    /// given.
    pub places: Places,
    /// Whether standard error is informed of the first record of each place and, at the end, how to go on.
    pub report_next: bool,
    /// Whether records after a hole are taken.
    pub holes: bool,
}
