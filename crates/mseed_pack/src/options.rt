//! How a series is packed.
ghost use Rattle.std.specs.Prelude.{◌≡◌, ◌+◌, ◌%◌, ◌≤◌, ◌<◌, IfOk, None};
ghost use Rattle.std.specs.Result.{result_err};
ghost use Rattle.mseed_pack.specs.Options.{code_of, first_bad_option};

pub use mseed_steim::Encoding;

/// What options can't be.
#[derive(Clone, Copy, Debug, PartialEq, Eq)]
pub enum BadOption {
    /// The exponent isn't in 7 to 12.
    Exponent,
    /// The code is of no encoding that is written.
    Encoding,
    /// The sequence number is over 999,999.
    Sequence,
}

/// How many sequence numbers there are.
const NUMBERS: u64 = 1_000_000;

/// How a series is packed.
#[derive(Clone, Copy, Debug, PartialEq, Eq)]
pub struct Options {
    /// The power of two that is a record's length: 7 to 12, for 128 to 4096 bytes.
    pub exponent: u8,
    /// How the samples are encoded.
    pub encoding: Encoding,
    /// The sequence number of the first record: 0 to 999,999.
    pub first_sequence: u32,
    /// A record has at least 128 bytes.
    pub ghost long: { 7 ≤ exponent },
    /// A record has at most 4096 bytes.
    pub ghost short: { exponent ≤ 12 },
    /// The sequence number has six digits.
    pub ghost numbered: { first_sequence < 1_000_000 },
}

impl Options {
    /// The options of an exponent, the code of an encoding and a sequence number.
    ///
    /// # Errors
    ///
    /// The first that applies: `Exponent` where the exponent isn't in 7 to 12, `Encoding` where the code isn't 1, 3, 10
    /// or 11, `Sequence` where the number is above 999,999.
    pub fn new(exponent: u8, encoding: u8, first_sequence: u32) -> Result<Options, BadOption>
        ensures fault { result_err result ≡ first_bad_option exponent encoding first_sequence }
        ensures exponent { IfOk result (λ o. o.exponent ≡ exponent) }
        ensures encoding { IfOk result (λ o. code_of o.encoding ≡ encoding) }
        ensures sequence { IfOk result (λ o. o.first_sequence ≡ first_sequence) }
    {
        if exponent < 7 || exponent > 12 {
            return Err(BadOption::Exponent);
        }
        let Some(encoding) = Encoding::of(encoding) else {
            return Err(BadOption::Encoding);
        };
        if first_sequence > 999_999 {
            return Err(BadOption::Sequence);
        }
        Ok(Options {
            exponent,
            encoding,
            first_sequence,
        })
    }

    /// Returns the options of what is packed after so many records: their sequence numbers, of six digits, run on
    /// (SEED manual, chapter 8, fixed section of data header, field 1).
    pub fn after(&self, records: u64) -> Options
        ensures exponent { result.exponent ≡ self.now.exponent }
        ensures encoding { result.encoding ≡ self.now.encoding }
        ensures sequence { result.first_sequence ≡ (self.now.first_sequence + records) % 1_000_000 }
    {
        let sequence = (u64::from(self.first_sequence) + records % NUMBERS) % NUMBERS;
        Options {
            exponent: self.exponent,
            encoding: self.encoding,
            first_sequence: sequence as u32,
        }
    }
}
