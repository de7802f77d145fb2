//! Numbers, in decimal digits.
ghost use Rattle.std.specs.Prelude.{◌≡◌, ◌≤◌, ◌<◌, ◌+◌, ◌^◌, ◌++◌, length, decimal};
ghost use Rattle.std.specs.Fmt.{signed_decimal};
ghost use Rattle.mseed_time.specs.Text.{padded_decimal};

use crate::line::{LONGEST_LINE, Line};
use itoa::Buffer;
use mseed_time::two_digits;

impl Line {
    /// Puts the decimal digits of a number at its end: at most 20 bytes.
    #[inline(always)]
    pub fn put_count(&mut self, count: u64)
        requires room { length self.old + 20 ≤ LONGEST_LINE }
        ensures text { self.new ≡ self.old ++ decimal count }
        ensures most { length self.new ≤ length self.old + 20 }
    {
        if count < 100_000_000 {
            self.put_eight_at_most(count as u32);
        } else {
            self.put_long(count);
        }
    }

    /// Puts a label at its end, and after it the decimal digits of a number: at most 20 bytes.
    #[inline(always)]
    pub fn put_labelled(&mut self, label: &[u8], count: u64)
        requires room { length self.old + length label.now + 20 ≤ LONGEST_LINE }
        ensures text { self.new ≡ self.old ++ label.now ++ decimal count }
        ensures most { length self.new ≤ length self.old + length label.now + 20 }
    {
        self.put(label);
        self.put_count(count);
    }

    /// Puts the decimal digits of a number of up to 128 bits at its end: at most 39 bytes.
    pub fn put_wide(&mut self, count: u128)
        requires room { length self.old + 39 ≤ LONGEST_LINE }
        ensures text { self.new ≡ self.old ++ decimal count }
        ensures most { length self.new ≤ length self.old + 39 }
    {
        match u64::try_from(count) {
            Ok(count) => self.put_count(count),
            Err(_) => self.put(Buffer::new().format(count).as_bytes()),
        }
    }

    /// Puts the decimal digits of a number at its end, with `-` before them where it is negative: at most 20 bytes.
    pub fn put_signed(&mut self, number: i64)
        requires room { length self.old + 20 ≤ LONGEST_LINE }
        ensures text { self.new ≡ self.old ++ signed_decimal number }
        ensures most { length self.new ≤ length self.old + 20 }
    {
        self.put(Buffer::new().format(number).as_bytes());
    }

    /// Puts the decimal digits of a number that has more than eight at its end.
    #[inline(never)]
    fn put_long(&mut self, count: u64)
        requires many { 10 ^ 8 ≤ count }
        requires room { length self.old + 20 ≤ LONGEST_LINE }
        ensures text { self.new ≡ self.old ++ decimal count }
        ensures most { length self.new ≤ length self.old + 20 }
    {
        self.put_twelve_at_most(count / 100_000_000);
        self.put_last_eight((count % 100_000_000) as u32);
    }

    /// Puts the decimal digits of a number that has at most twelve at its end.
    fn put_twelve_at_most(&mut self, count: u64)
        requires few { count < 10 ^ 12 }
        requires room { length self.old + 12 ≤ LONGEST_LINE }
        ensures text { self.new ≡ self.old ++ decimal count }
        ensures most { length self.new ≤ length self.old + 12 }
    {
        if count < 100_000_000 {
            self.put_eight_at_most(count as u32);
        } else {
            self.put_four_at_most((count / 100_000_000) as u32);
            self.put_last_eight((count % 100_000_000) as u32);
        }
    }

    /// Puts the decimal digits of a number that has at most eight at its end.
    #[inline(always)]
    fn put_eight_at_most(&mut self, count: u32)
        requires few { count < 10 ^ 8 }
        requires room { length self.old + 8 ≤ LONGEST_LINE }
        ensures text { self.new ≡ self.old ++ decimal count }
        ensures most { length self.new ≤ length self.old + 8 }
    {
        if count < 10_000 {
            self.put_four_at_most(count);
        } else {
            self.put_four_at_most(count / 10_000);
            self.put_last_four(count % 10_000);
        }
    }

    /// Puts a number below 10^8 at its end in eight digits, with zeros before it: the last eight of a longer number.
    fn put_last_eight(&mut self, number: u32)
        requires few { number < 10 ^ 8 }
        requires room { length self.old + 8 ≤ LONGEST_LINE }
        ensures text { self.new ≡ self.old ++ padded_decimal 8 number }
        ensures len { length self.new ≡ length self.old + 8 }
    {
        self.put_last_four(number / 10_000);
        self.put_last_four(number % 10_000);
    }

    /// Puts the decimal digits of a number that has at most four at its end. Each length has a write of its own.
    #[inline(always)]
    fn put_four_at_most(&mut self, count: u32)
        requires few { count < 10000 }
        requires room { length self.old + 4 ≤ LONGEST_LINE }
        ensures text { self.new ≡ self.old ++ decimal count }
        ensures most { length self.new ≤ length self.old + 4 }
    {
        if count < 10 {
            return self.put(&[b'0' + count as u8]);
        }
        if count < 100 {
            return self.put(&two_digits(count));
        }
        if count < 1000 {
            let low = two_digits(count % 100);
            return self.put(&[b'0' + (count / 100) as u8, low[0], low[1]]);
        }
        self.put_last_four(count);
    }

    /// Puts a number below 10^4 at its end in four digits, with zeros before it: the last four of a longer number.
    #[inline(always)]
    fn put_last_four(&mut self, number: u32)
        requires few { number < 10000 }
        requires room { length self.old + 4 ≤ LONGEST_LINE }
        ensures text { self.new ≡ self.old ++ padded_decimal 4 number }
        ensures len { length self.new ≡ length self.old + 4 }
    {
        self.put(&two_digits(number / 100));
        self.put(&two_digits(number % 100));
    }
}
