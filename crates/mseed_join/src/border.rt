//! What is found between two records of a channel.
ghost use Rattle.std.specs.Prelude.{◌≡◌};
ghost use Rattle.mseed_join.specs.Joining.{border_of};

use mseed_audit::{Finding, Head, Tail};

/// What is found between two records, where the end of the first is known and nothing is found of the second alone.
pub(crate) fn border_of(tail: Option<Tail>, head: Option<Head>) -> Option<Finding>
    ensures { result ≡ border_of tail head }
{
    match (tail, head) {
        (Some(tail), Some(head)) => match tail.break_to(head.start, head.rate) {
            Some(why) => Some(Finding {
                number: head.number,
                offset: head.offset,
                why,
            }),
            None => None,
        },
        _ => None,
    }
}
