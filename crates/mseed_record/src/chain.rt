//! The chain of blockettes of a record (SEED manual, chapter 8, "Data record blockettes").
ghost use Rattle.std.specs.Prelude.{◌≡◌, ◌≤◌, ◌+◌, ◌==◌, ◌||◌, ℕ, List, ◌∷◌, ◌++◌, length, IfSome, Option, Some, None};
ghost use Rattle.std.specs.Prelude.{if◌then◌else◌, MatchOption, true, false};
ghost use Rattle.std.specs.Option.{option_or};
ghost use Rattle.mseed_record.specs.Header.{blockette_at};
ghost use Rattle.mseed_record.specs.Chain.{IsWholeChain, type_at, next_at, head_of, goes_on, first_of, has_type};
ghost use Rattle.mseed_record.specs.Record.{IsRecordBy};
ghost use Rattle.mseed_record.specs.private.Blockettes.{AreBlockettes};

use mseed_time::Order;

/// The blockettes of a chain that are looked up besides the first 1000.
#[derive(Clone, Copy)]
pub(crate) struct Blockettes {
    /// The offset of the first blockette 1001, in bytes from the record's beginning.
    pub first_1001: Option<usize>,
    /// There is a blockette 100.
    pub has_100: bool,
}

/// Returns the offset of a record's first blockette 1000, in bytes from the record's beginning.
#[tactic(auto, using(crate::proofs::Whole::ahead, crate::proofs::Whole::ahead_next, crate::proofs::Whole::ahead_here, crate::proofs::Passing::record_room))]
pub(crate) fn first_1000_of(bytes: &[u8], order: Order) -> usize
    requires { (os : List ℕ) × ((last : ℕ) × IsRecordBy order os last bytes.now) }
    ensures { (os : List ℕ) × IsRecordBy order os result bytes.now }
{
    let mut offset = usize::from(order.u16_at(bytes, 46));
    'chain: while order.u16_at(bytes, offset) != 1000 {
        offset = usize::from(order.u16_at(bytes, offset + 2));
    }
    offset
}

/// Returns what the whole chain of a record has: each order has a body of its own, which goes along the chain once.
#[inline(always)]
pub(crate) fn blockettes_of(bytes: &[u8], order: Order) -> Blockettes
    requires { (os : List ℕ) × ((last : ℕ) × IsRecordBy order os last bytes.now) }
    ensures found { (os : List ℕ) (last : ℕ) → IsRecordBy order os last bytes.now
        → (rest : List ℕ) × (IsWholeChain order bytes.now os last rest
        × AreBlockettes order bytes.now (os ++ last ∷ rest) result) }
    ensures within { IfSome result.first_1001 (λ o. o + 8 ≤ length bytes.now) }
{
    match order {
        Order::Big => blockettes_by(bytes, Order::Big),
        Order::Little => blockettes_by(bytes, Order::Little),
    }
}

/// Returns what the whole chain of a record in this order has. Each blockette is looked at once.
#[inline(always)]
fn blockettes_by(bytes: &[u8], order: Order) -> Blockettes
    requires { (os : List ℕ) × ((last : ℕ) × IsRecordBy order os last bytes.now) }
    ensures found { (os : List ℕ) (last : ℕ) → IsRecordBy order os last bytes.now
        → (rest : List ℕ) × (IsWholeChain order bytes.now os last rest
        × AreBlockettes order bytes.now (os ++ last ∷ rest) result) }
    ensures within { IfSome result.first_1001 (λ o. o + 8 ≤ length bytes.now) }
{
    let mut found = Blockettes {
        first_1001: None,
        has_100: false,
    };
    let mut offset = usize::from(order.u16_at(bytes, 46));
    'chain: loop {
        found = found.and(order.u16_at(bytes, offset), offset);
        match next_of(bytes, order, offset) {
            Some(next) => offset = next,
            None => return found,
        }
    }
}

impl Blockettes {
    /// Returns what a chain has with one more blockette, of this type and at this offset (in bytes).
    fn and(self, kind: u16, offset: usize) -> Blockettes
        ensures first_1001 { result.first_1001 ≡ option_or self.first_1001
            (if kind == 1001 then Some offset else None) }
        ensures has_100 { result.has_100 ≡ (self.has_100 || (kind == 100)) }
    {
        match kind {
            1001 => Blockettes {
                first_1001: self.first_1001.or(Some(offset)),
                ..self
            },
            100 => Blockettes {
                has_100: true,
                ..self
            },
            _ => self,
        }
    }
}

/// Returns the offset of the blockette after the one at `offset`, both in bytes from the record's beginning; `None`
/// where the chain doesn't go on: the next has to begin at least 4 bytes further on, and its head to lie in the record.
fn next_of(bytes: &[u8], order: Order, offset: usize) -> Option<usize>
    requires { offset + 4 ≤ length bytes.now }
    ensures { MatchOption result (goes_on order bytes.now offset ≡ false)
        (λ next. (goes_on order bytes.now offset ≡ true) × (next ≡ next_at order bytes.now offset)) }
{
    let next = usize::from(order.u16_at(bytes, offset + 2));
    if next < offset + 4 || bytes.len() < next + 4 {
        return None;
    }
    let head = if order.u16_at(bytes, next) == 1001 {
        8
    } else {
        4
    };
    if bytes.len() < next + head {
        return None;
    }
    Some(next)
}
