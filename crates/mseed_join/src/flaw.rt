//! What is wrong with a line of parts.
ghost use Rattle.std.specs.Prelude.{◌≡◌};
ghost use Rattle.mseed_join.specs.Flaws.{begun_as};

use crate::bad_field::Field;
use mseed_record::Codes;

/// What is wrong with the first bad line of parts.
#[derive(Clone, Copy, Debug, PartialEq, Eq)]
pub enum Flaw {
    /// A part begins with it, and it isn't `mseed part 1`.
    Beginning,
    /// It is neither the line of a channel nor that of the counts: this is its first field that isn't by the grammar.
    /// It is taken for the counts where it begins with `records `.
    Row(Field),
    /// It is the line of this channel, whose key isn't after that of the channel before.
    Order(Codes),
    /// After the counts, it is neither the line of the fault of the part nor that of the faults passed, and no part
    /// begins with it: it begins as this one of them, or as neither.
    Ending(Closing),
    /// It can stand where it stands, and a number passes 2^63 - 1 when it goes up or is summed.
    Limit,
    /// It has no LF among 512 bytes.
    Long,
    /// It has no LF, and the input ends.
    Unended,
    /// The input ends before it, within a part.
    Missing,
}

/// What a line after the counts begins as.
#[derive(Clone, Copy, Debug, PartialEq, Eq)]
pub enum Closing {
    /// The number of faults that were passed: it begins with `faults `.
    Faults,
    /// The fault of the part: it begins with `fault at `.
    Fault,
    /// Neither.
    Neither,
}

/// Returns what a line after the counts begins as.
pub(crate) fn begun_as(line: &[u8]) -> Closing
    ensures { result ≡ begun_as line.now }
{
    if line.starts_with(b"faults ") {
        Closing::Faults
    } else if line.starts_with(b"fault at ") {
        Closing::Fault
    } else {
        Closing::Neither
    }
}
