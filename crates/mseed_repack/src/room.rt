//! Room for the samples and leap seconds of what is packed anew.
ghost use Rattle.std.specs.Prelude.{◌≡◌, ◌<◌, ◌≤◌, length, IfOk, OnOk};

use mseed_time::LeapStep;
use std::alloc::{AllocError, Allocator};

/// Lets a list have room for `count` samples, where it has less. What it held is let go of before more is requested.
///
/// # Errors
///
/// `AllocError` where there is no memory for it: the list is empty then.
pub(crate) fn make_room<A: Allocator + Copy>(
    alloc: A,
    samples: &mut Vec<i32, A>,
    count: usize,
) -> Result<(), AllocError>
    ensures room { OnOk result (count ≤ length samples.new.items) }
    ensures grown { OnOk result (length samples.old.items ≤ length samples.new.items) }
    // It grows to no more than is asked for.
    ensures exact { OnOk result (length samples.old.items < length samples.new.items
        → length samples.new.items ≡ count) }
{
    if samples.len() < count {
        *samples = Vec::new(alloc);
        *samples = vec![in alloc; 0; count]?;
    }
    Ok(())
}

/// A list of `count` leap seconds, to be filled in.
pub(crate) fn blank_steps<A: Allocator + Copy>(
    alloc: A,
    count: usize,
) -> Result<Vec<(u64, LeapStep), A>, AllocError>
    ensures { IfOk result (λ steps. length steps.items ≡ count) }
{
    Ok(vec![in alloc; (0, LeapStep::Plus); count]?)
}
