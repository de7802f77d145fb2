//! The line of a stream's fault.
ghost use Rattle.std.specs.Prelude.{◌≡◌, ◌≤◌, ◌+◌, ◌++◌, OnErr, OnOk, codes, decimal, length};
ghost use Rattle.mseed_stream.specs.Device.{IsPrefixOf};
ghost use Rattle.mseed_text.specs.Fault.{fault_line, frame_words};

use crate::line::{LONGEST_LINE, Line, push_line};
use mseed_record::FrameFault;
use mseed_stream::StreamFault;
use std::alloc::{AllocError, Allocator};

impl Line {
    /// Puts the line of a stream's fault at its end, with its LF: at most 61 bytes, and nothing for `Memory`.
    pub fn put_fault_line(&mut self, fault: &StreamFault)
        requires room { length self.old + 61 ≤ LONGEST_LINE }
        ensures text { self.new ≡ self.old ++ fault_line fault.now }
        ensures most { length self.new ≤ length self.old + 61 }
    {
        match fault {
            StreamFault::Frame(offset, fault) => {
                self.put_offset(*offset);
                self.put(b" ");
                self.put_frame_words(fault);
                self.put(b"\n");
            }
            StreamFault::Truncated(offset, have) => {
                self.put_offset(*offset);
                self.put_labelled(b" truncated ", *have as u64);
                self.put(b"\n");
            }
            StreamFault::Read(offset) => {
                self.put_offset(*offset);
                self.put(b" read\n");
            }
            StreamFault::Turns(offset) => {
                self.put_offset(*offset);
                self.put(b" turns\n");
            }
            StreamFault::Memory => {}
        }
    }

    /// Puts `fault at ` and the offset of a fault (in bytes) at its end: at most 29 bytes.
    fn put_offset(&mut self, offset: u64)
        requires { length self.old + 29 ≤ LONGEST_LINE }
        ensures text { self.new ≡ self.old ++ (codes "fault at " ++ decimal offset) }
        ensures most { length self.new ≤ length self.old + 29 }
    {
        self.put_labelled(b"fault at ", offset);
    }

    /// Puts why bytes begin no record at its end: at most 27 bytes.
    fn put_frame_words(&mut self, fault: &FrameFault)
        requires { length self.old + 27 ≤ LONGEST_LINE }
        ensures text { self.new ≡ self.old ++ frame_words fault.now }
        ensures most { length self.new ≤ length self.old + 27 }
    {
        match fault {
            FrameFault::NotData => self.put(b"notdata"),
            FrameFault::Order => self.put(b"order"),
            FrameFault::Chain => self.put(b"chain"),
            FrameFault::No1000 => self.put(b"no1000"),
            FrameFault::Length(exponent) => {
                self.put_labelled(b"length ", u64::from(*exponent));
            }
            FrameFault::Outside => self.put(b"outside"),
            FrameFault::Version3 => self.put(b"version3"),
        }
    }
}

/// Adds the line of a stream's fault to a text; nothing for `Memory`.
///
/// # Errors
///
/// `AllocError` where memory is refused; the text is unchanged then.
pub fn push_fault_line<A: Allocator>(
    text: &mut Vec<u8, A>,
    fault: &StreamFault,
) -> Result<(), AllocError>
    ensures ok { OnOk result (text.new.items ≡ text.old.items ++ fault_line fault.now) }
    ensures unchanged { OnErr result (text.new.items ≡ text.old.items) }
    ensures prefix { IsPrefixOf text.old.items text.new.items }
{
    let mut line = Line::new();
    line.put_fault_line(fault);
    push_line(text, line.as_slice())
}
