//! Why a series can't be packed, as it is said: by a number, and in words.
ghost use Rattle.std.specs.Prelude.{◌≡◌, ◌≤◌, ◌+◌, ◌++◌, IfSome, decimal, length};
ghost use Rattle.mseed_repack.specs.Misfits.{difference_bits, encoding_name, misfit_more, misfit_number};
ghost use Rattle.mseed_repack.specs.Misfits.{outside_text, range_text, rate_line, sample_bits, time_line};

use mseed_pack::PackFault;
use mseed_steim::Encoding;
use mseed_text::{LONGEST_LINE, Line};
use mseed_time::{Micros, Rate, show_time};

/// Returns the number by which a line says why a series can't be packed: 1, it has no samples; 2, its rate is too high;
/// 3, a sample's time lies in no year from 1900 to 2100; 4, a sample is too large for the encoding; 5, a difference is;
/// 6, the output failed.
pub fn misfit_number(fault: &PackFault) -> u64
    ensures value { result ≡ misfit_number fault.now }
    ensures bound { result ≤ 6 }
{
    match fault {
        PackFault::Empty => 1,
        PackFault::RateTooHigh(_) => 2,
        PackFault::TimeOutOfRange { .. } => 3,
        PackFault::SampleTooLarge { .. } => 4,
        PackFault::DifferenceTooLarge { .. } => 5,
        PackFault::Write(_) => 6,
    }
}

/// Puts the line that says in words why a series can't be packed in an encoding at the end of a line, with its LF: of a
/// rate that is too high what it is; of a time that is out of range which sample's it is, counted from 1, and its
/// instant; of a sample that the encoding doesn't hold which one it is, counted from 1, what it is, and what the
/// encoding holds; of a difference the same, by the sample after it. Puts nothing where the output failed, nor for a
/// difference where the encoding holds any. At most 175 bytes.
pub fn put_misfit_more(line: &mut Line, encoding: Encoding, fault: &PackFault)
    requires { length line.old + 175 ≤ LONGEST_LINE }
    ensures { line.new ≡ line.old ++ misfit_more encoding fault.now }
{
    match fault {
        PackFault::Empty => line.put(b"mseed: it has no samples\n"),
        PackFault::RateTooHigh(rate) => put_high_rate(line, *rate),
        PackFault::TimeOutOfRange { index, instant } => put_time_outside(line, *index, *instant),
        PackFault::SampleTooLarge { index, sample } => {
            put_large_sample(line, encoding, *index, *sample)
        }
        PackFault::DifferenceTooLarge { index, difference } => {
            put_large_difference(line, encoding, *index, *difference)
        }
        PackFault::Write(_) => {}
    }
}

/// Puts the line of a rate that is too high at the end of a line.
fn put_high_rate(line: &mut Line, rate: Rate)
    requires { length line.old + 175 ≤ LONGEST_LINE }
    ensures { line.new ≡ line.old ++ rate_line rate }
{
    line.put(b"mseed: its rate is ");
    line.put_ratio(rate.ratio());
    line.put(b" samples a second, over 500000, the most that is packed\n");
}

/// Puts the line of a sample whose time lies in no year from 1900 to 2100 at the end of a line.
fn put_time_outside(line: &mut Line, index: usize, instant: Micros)
    requires { length line.old + 175 ≤ LONGEST_LINE }
    ensures { line.new ≡ line.old ++ time_line index instant }
{
    line.put(b"mseed: the time of sample ");
    put_sample_number(line, index);
    line.put(b" is ");
    line.put(&show_time(instant));
    line.put(b", which rounded to 0.0001 seconds lies in no year from 1900 to 2100\n");
}

/// Puts the line of a sample that an encoding doesn't hold at the end of a line.
fn put_large_sample(line: &mut Line, encoding: Encoding, index: usize, sample: i32)
    requires { length line.old + 175 ≤ LONGEST_LINE }
    ensures { line.new ≡ line.old ++ misfit_more encoding (PackFault.SampleTooLarge index sample) }
{
    line.put(b"mseed: sample ");
    put_outside(
        line,
        encoding,
        sample_bits(encoding),
        index,
        i64::from(sample),
    );
}

/// Puts the line of a difference that an encoding doesn't hold at the end of a line.
fn put_large_difference(line: &mut Line, encoding: Encoding, index: usize, difference: i64)
    requires { length line.old + 175 ≤ LONGEST_LINE }
    ensures { line.new ≡ line.old ++ misfit_more encoding (PackFault.DifferenceTooLarge index difference) }
{
    if let Some(bits) = difference_bits(encoding) {
        line.put(b"mseed: the difference before sample ");
        put_outside(line, encoding, bits, index, difference);
    }
}

/// Puts which sample it is, counted from 1, what it or its difference is, and outside which numbers that lies, those of
/// `bits` bits, at the end of a line.
fn put_outside(line: &mut Line, encoding: Encoding, bits: u32, index: usize, value: i64)
    requires some { 1 ≤ bits }
    requires most { bits ≤ 32 }
    requires room { length line.old + 139 ≤ LONGEST_LINE }
    ensures { line.new ≡ line.old ++ outside_text encoding bits index value }
{
    put_sample_number(line, index);
    line.put(b" is ");
    line.put_signed(value);
    line.put(b", outside ");
    put_range(line, bits);
    line.put(b", which ");
    line.put(encoding_name(encoding));
    line.put(b" holds\n");
}

/// Puts the number of the sample at an index, counted from 1, at the end of a line.
fn put_sample_number(line: &mut Line, index: usize)
    requires { length line.old + 39 ≤ LONGEST_LINE }
    ensures text { line.new ≡ line.old ++ decimal (index + 1) }
    ensures most { length line.new ≤ length line.old + 39 }
{
    line.put_wide(index as u128 + 1);
}

/// Puts the least and the greatest of the signed numbers of `bits` bits at the end of a line.
fn put_range(line: &mut Line, bits: u32)
    requires some { 1 ≤ bits }
    requires most { bits ≤ 32 }
    requires room { length line.old + 45 ≤ LONGEST_LINE }
    ensures text { line.new ≡ line.old ++ range_text bits }
    ensures most { length line.new ≤ length line.old + 45 }
{
    let half = 1_u64 << (bits - 1);
    line.put_labelled(b"-", half);
    line.put_labelled(b" to ", half - 1);
}

/// Returns the name that requests an encoding.
fn encoding_name(encoding: Encoding) -> &'static [u8]
    ensures text { result.now ≡ encoding_name encoding }
    ensures most { length result.now ≤ 6 }
{
    match encoding {
        Encoding::Int16 => b"int16",
        Encoding::Int32 => b"int32",
        Encoding::Steim1 => b"steim1",
        Encoding::Steim2 => b"steim2",
    }
}

/// Returns how many bits of a sample an encoding holds.
fn sample_bits(encoding: Encoding) -> u32
    ensures value { result ≡ sample_bits encoding }
    ensures some { 1 ≤ result }
    ensures most { result ≤ 32 }
{
    match encoding {
        Encoding::Int16 => 16,
        Encoding::Int32 | Encoding::Steim1 | Encoding::Steim2 => 32,
    }
}

/// Returns how many bits of a difference an encoding holds; none where it writes no differences.
fn difference_bits(encoding: Encoding) -> Option<u32>
    ensures value { result ≡ difference_bits encoding }
    ensures range { IfSome result (λ bits. 1 ≤ bits × bits ≤ 32) }
{
    match encoding {
        Encoding::Int16 | Encoding::Int32 => None,
        Encoding::Steim1 => Some(32),
        Encoding::Steim2 => Some(30),
    }
}
