//! Command lines out of a stream that comes in any pieces.
ghost use Rattle.std.specs.Prelude.{◌≡◌, ◌<◌, ◌≤◌, ◌++◌, ◌∷◌, List, ℕ, [], true, false, length, take};
ghost use Rattle.slink_wire.specs.declared.lines.TheConstants.{LONGEST};
ghost use Rattle.slink_wire.specs.Lines.{Held, IsHeld, YieldsNothing};
ghost use Rattle.slink_wire.specs.private.Steps.{Leads};
ghost use Rattle.slink_wire.specs.Taking.{Yields};

use arrayvec::ArrayVec;
use std::marker::Model;

/// The most bytes of a line, without its CR.
const LONGEST: usize = 255;

/// What the bytes that a call accepted say.
#[derive(Debug, Drop)]
pub enum LineOutcome {
    /// No line ended.
    More,
    /// A line, without its CR.
    Line(ArrayVec<u8, LONGEST>),
    /// A line has more than 255 bytes: the stream has ended.
    TooLong,
}

/// How many bytes a call accepted, and what they say.
#[derive(Debug, Drop)]
pub struct Took {
    /// The number of bytes that were taken.
    pub used: usize,
    /// What they say.
    pub what: LineOutcome,
}

/// What is held of a stream of command lines, as it is taken piece by piece.
#[derive(Debug, Drop)]
pub struct Lines {
    begun: ArrayVec<u8, LONGEST>,
    is_too_long: bool,
}

impl Model for Lines {
    ghost Value = { Held };

    ghost view = { λ l. record { begun = l.begun.items; is_too_long = l.is_too_long } };

    ghost invariant = { λ l. length l.begun.items ≤ LONGEST };
}

impl Lines {
    /// Returns what is held before the first byte of a stream: nothing.
    #[tactic(auto, unfolding(crate::specs::Lines::lines_of))]
    pub fn new() -> Lines
        ensures { IsHeld result [] }
    {
        Lines {
            begun: ArrayVec::new(),
            is_too_long: false,
        }
    }

    /// Takes one byte.
    #[tactic(auto, using(crate::proofs::Stepped::byte_taken))]
    fn take_byte(&mut self, byte: u8) -> LineOutcome
        requires { self.old.is_too_long ≡ false }
        ensures leads { Leads self.old (byte ∷ []) self.new result }
        ensures goes_on { result ≡ LineOutcome.More → self.new.is_too_long ≡ false }
    {
        if byte == b'\r' {
            if self.begun.is_empty() {
                return LineOutcome::More;
            }
            return LineOutcome::Line(self.begun.take());
        }
        if byte == b'\n' && self.begun.is_empty() {
            return LineOutcome::More;
        }
        if self.begun.is_full() {
            self.begun.clear();
            self.is_too_long = true;
            return LineOutcome::TooLong;
        }
        self.begun.push(byte);
        LineOutcome::More
    }

    /// Takes bytes of a stream up to the end of a line, or to the byte that is too many in one, or all. Once a line was
    /// too long, nothing is taken.
    ///
    /// The clauses hold of every stream whose bytes were taken so far, in whatever pieces. A stream spells one list of
    /// lines, so that the pieces make no difference.
    pub fn take(&mut self, piece: &[u8]) -> Took
        // What is held goes on to stand for the bytes taken.
        ensures held { (stream : List ℕ) → IsHeld self.old stream
            → IsHeld self.new (stream ++ take result.used piece.now) }
        // The answer is what these bytes add to what the stream spells.
        ensures reported { (stream : List ℕ) → IsHeld self.old stream
            → Yields result.what stream (stream ++ take result.used piece.now) }
        // Fewer of them add nothing, so that it stops where there is something to say.
        ensures first { (stream : List ℕ) (k : ℕ) → IsHeld self.old stream → k < result.used
            → YieldsNothing stream (stream ++ take k piece.now) }
        ensures whole { result.what ≡ LineOutcome.More → result.used ≡ length piece.now }
        ensures bound { result.used ≤ length piece.now }
        ensures repeats { self.old.is_too_long ≡ true
            → (result ≡ record { used = 0; what = LineOutcome.TooLong }) × (self.new ≡ self.old) }
    {
        if self.is_too_long {
            return Took {
                used: 0,
                what: LineOutcome::TooLong,
            };
        }
        for (i, byte) in piece.iter().enumerate() {
            match self.take_byte(*byte) {
                LineOutcome::More => {}
                what => return Took { used: i + 1, what },
            }
        }
        Took {
            used: piece.len(),
            what: LineOutcome::More,
        }
    }
}
