//! What is wrong with an input of records.
ghost use Rattle.std.specs.Prelude.{◌≡◌};
ghost use Rattle.slink_feed.specs.Intake.{foreign_of};

use mseed_stream::StreamFault;
use slink_wire::{CODES, header_codes};

/// A record of an input that isn't the feed's.
#[derive(Clone, Copy, Debug, PartialEq, Eq)]
pub struct ForeignRecord {
    /// Its number in the input, counted from 1.
    pub number: u64,
    /// Its length in bytes.
    pub size: usize,
    /// The station's code at bytes 8 to 12 of its header, as it stands there; spaces where there is no header.
    pub station: [u8; 5],
    /// The network's code at bytes 18 and 19 of its header, as it stands there; spaces where there is no header.
    pub network: [u8; 2],
}

impl ForeignRecord {
    /// Returns the record of this number, counted from 1, and length in bytes that begins with these bytes.
    pub fn of(number: u64, size: usize, bytes: &[u8]) -> ForeignRecord
        ensures { result ≡ foreign_of number size bytes.now }
    {
        let mut station = [b' '; 5];
        let mut network = [b' '; 2];
        if bytes.len() >= CODES {
            let codes = header_codes(bytes);
            station.copy_from_slice(codes.0);
            network.copy_from_slice(codes.1);
        }
        ForeignRecord {
            number,
            size,
            station,
            network,
        }
    }
}

/// Why no further record of an input is taken.
#[derive(Clone, Copy, Debug, PartialEq, Eq)]
pub enum InputFault {
    /// The input failed, or it ended within a record, or bytes came that begin none; or an allocation was refused.
    Stream(StreamFault),
    /// This record hasn't 512 bytes, or is of none of the stations.
    Foreign(ForeignRecord),
}

impl From<StreamFault> for InputFault {
    ghost use Rattle.std.specs.Prelude.{◌≡◌};
    ghost use Rattle.slink_feed.specs.declared.input.InputFault.{InputFault};

    ghost from_gives = { λ fault result. result ≡ InputFault.Stream fault };

    fn from(fault: StreamFault) -> InputFault {
        InputFault::Stream(fault)
    }
}
