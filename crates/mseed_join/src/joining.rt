//! Parts joined, and what is written of their joint part.
ghost use Rattle.std.specs.Prelude.{◌≡◌, ◌||◌, ◌++◌, nat_lt, IfOk, OnOk, is_some};
ghost use Rattle.mseed_stream.specs.Calls.{ReadsOn, WritesOn};
ghost use Rattle.mseed_stream.specs.Device.{nothing_read};
ghost use Rattle.mseed_join.specs.Joins.{IsAnswer, IsJoinOutcome, text_by};

use crate::auditing::count_broken;
use crate::fault::JoinFault;
use crate::joint::JointPart;
use crate::part::Part;
use crate::parts::read_parts;
use crate::text::{push_join, push_part};
use mseed_audit::Memory;
use mseed_stream::{Sink, Source, StreamFault, write_all_of};
use std::alloc::Allocator;

/// What is written of parts that are joined.
#[derive(Clone, Copy, Debug, PartialEq, Eq)]
pub enum Form {
    /// The text of the audit of their archives.
    Audit,
    /// Their joint part.
    Part,
}

/// What is found of the archives of parts that are joined.
#[derive(Clone, Copy, Debug, PartialEq, Eq)]
pub struct Joined {
    /// How many channels of the archives are broken.
    pub broken: u64,
    /// Whether the last archive ends with a fault, or faults were passed.
    pub fault: bool,
}

/// Reads parts, one after another, and writes what they are joined to. Without `past_faults` a part after one that
/// ends with a fault isn't counted; with it each faulty part counts as if it had none, and its fault is one more that
/// was passed and is reported on `errors` as it is read. Where a number of parts is `expected` they have to be as many,
/// those that aren't counted in too: else nothing is written, whatever they are joined to. The source is one of which
/// nothing was read yet.
///
/// # Errors
///
/// `Line` where a line is bad, `Stream` where the parts couldn't be read whole, `Count` where another number of parts
/// was read than is expected, `Write` where the output failed, and `Memory` where an allocation was refused.
pub fn join<A: Allocator + Copy, R: Source, W: Sink, E: Sink>(
    alloc: A,
    form: Form,
    past_faults: bool,
    expected: Option<u64>,
    source: &mut R,
    sink: &mut W,
    errors: &mut E,
) -> Result<Joined, JoinFault>
    requires { R.read source.old ≡ nothing_read }
    ensures outcome { IsJoinOutcome form past_faults expected result (R.read source.new) (W.written sink.old)
        (W.written sink.new) (E.written errors.old) (E.written errors.new) }

    // What the source is known to have left is what was read of it, up to its end where the input is at its end.
    ensures reads { ReadsOn (R.read source.old) (R.read source.new) (R.remaining source.old) (R.remaining source.new)
        (R.beside source.old) (R.beside source.new) }

    // What the sink is known to hold grew by what it accepted.
    ensures writes { WritesOn (W.written sink.old) (W.written sink.new) (W.contents sink.old) (W.contents sink.new)
        (W.beside sink.old) (W.beside sink.new) }
{
    let JointPart { part, faults, end } = read_parts(alloc, past_faults, expected, source, errors)?;
    let mut text = Vec::new(alloc);
    let joined = match push_joined(&mut text, alloc, form, part, faults, &end) {
        Ok(joined) => joined,
        Err(Memory) => return Err(JoinFault::Memory),
    };
    match write_all_of(sink, &text) {
        Ok(()) => Ok(joined),
        Err(_) => Err(JoinFault::Write),
    }
}

/// Adds the text of a joint part, and returns what is found of its archives.
pub(crate) fn push_joined<A: Allocator + Copy>(
    text: &mut Vec<u8, A>,
    alloc: A,
    form: Form,
    part: Part<A>,
    faults: u64,
    end: &Option<StreamFault>,
) -> Result<Joined, Memory>
    ensures text { OnOk result (text.new.items
        ≡ text.old.items ++ text_by form (record { part = part; faults = faults; end = end.now })) }
    ensures answer { IfOk result (λ joined. IsAnswer joined (record {
      part = part;
      faults = faults;
      end = end.now;
    })) }
{
    let (records, bytes) = (part.records(), part.bytes());
    let channels = part.into_channels(alloc)?;
    let pushed = match form {
        Form::Audit => push_join(text, channels.as_slice(), records, faults, end),
        Form::Part => push_part(text, channels.as_slice(), records, bytes, faults, end),
    };
    match pushed {
        Ok(()) => Ok(Joined {
            broken: count_broken(channels.as_slice()),
            fault: is_faulty(faults, end),
        }),
        Err(_) => Err(Memory),
    }
}

/// Returns whether there is a fault at the end, or faults were passed.
fn is_faulty(faults: u64, end: &Option<StreamFault>) -> bool
    ensures { result ≡ (is_some end.now || nat_lt 0 faults) }
{
    match end {
        Some(_) => true,
        None => faults > 0,
    }
}
