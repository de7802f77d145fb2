//! A channel's name as it is printed.
ghost use Rattle.std.specs.Prelude.{◌≡◌, ◌≤◌, ◌+◌, ◌++◌, length};
ghost use Rattle.mseed_text.specs.Name.{name_text, printed};

use crate::line::{LONGEST_LINE, Line};
use mseed_record::Codes;

impl Line {
    /// Puts a channel's name at its end: network, station, location and channel with `_` between them, each without its
    /// trailing spaces and NULs, and with `?` for each byte that is left and can't be printed. At most 15 bytes.
    #[inline(always)]
    pub fn put_name(&mut self, codes: &Codes)
        requires room { length self.old + 15 ≤ LONGEST_LINE }
        ensures text { self.new ≡ self.old ++ name_text codes.now }
        ensures most { length self.new ≤ length self.old + 15 }
    {
        self.put_code(codes.network());
        self.put(b"_");
        self.put_code(codes.station());
        self.put(b"_");
        self.put_code(codes.location());
        self.put(b"_");
        self.put_code(codes.channel());
    }
}

/// Returns a byte of a name as it is printed: `?` for a space and for what is no printable character.
pub(crate) fn printed(byte: u8) -> u8
    ensures { result ≡ printed byte }
{
    if (33..=126).contains(&byte) {
        byte
    } else {
        b'?'
    }
}
