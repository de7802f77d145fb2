//! What was given to the program, as a line shows it.
ghost use Rattle.std.specs.Prelude.{◌≡◌, ◌≤◌, ◌+◌, ◌++◌, length, map};
ghost use Rattle.mseed_text.specs.Shown.{shown_byte, shown};

use crate::line::{LONGEST_LINE, Line};

impl Line {
    /// Puts what was given at its end, as it is shown: each byte as [`shown_byte`] has it, and of more than 60 bytes
    /// the first 57 and `...`. At most 60 bytes.
    pub fn put_shown(&mut self, given: &[u8])
        requires room { length self.old + 60 ≤ LONGEST_LINE }
        ensures text { self.new ≡ self.old ++ shown given.now }
        ensures most { length self.new ≤ length self.old + 60 }
    {
        if given.len() <= 60 {
            self.put_shown_bytes(given);
        } else {
            self.put_shown_bytes(&given[..57]);
            self.put(b"...");
        }
    }

    /// Puts bytes at its end, each as it is shown.
    fn put_shown_bytes(&mut self, bytes: &[u8])
        requires { length self.old + length bytes.now ≤ LONGEST_LINE }
        ensures text { self.new ≡ self.old ++ map shown_byte bytes.now }
        ensures len { length self.new ≡ length self.old + length bytes.now }
    {
        for byte in bytes {
            self.put(&[shown_byte(*byte)]);
        }
    }
}

/// Returns a byte of what was given as it is shown: `?` for what isn't in 32 to 126.
pub fn shown_byte(byte: u8) -> u8
    ensures { result ≡ shown_byte byte }
{
    if (32..=126).contains(&byte) {
        byte
    } else {
        b'?'
    }
}
