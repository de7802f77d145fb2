//! The words of a line.
ghost use Rattle.std.specs.Prelude.{◌≡◌, ◌∷◌, [], MatchOption};
ghost use Rattle.slink_wire.specs.Command.{words};
ghost use Rattle.slink_wire.specs.private.Parsing.{AreWords};

use crate::cut::{first, first_other};

/// The words of a line, as far as a command may have them.
pub(crate) enum Words<'a> {
    One(&'a [u8]),
    Two(&'a [u8], &'a [u8]),
    Three(&'a [u8], &'a [u8], &'a [u8]),
    Others,
}

/// The first word of a line, and what stands after it.
fn first_word(line: &[u8]) -> Option<(&[u8], &[u8])>
    ensures { MatchOption result (words line.now ≡ []) (λ p. words line.now ≡ p.0.now ∷ words p.1.now) }
{
    let start = first_other(line, b' ');
    if start == line.len() {
        return None;
    }
    let rest = &line[start..];
    let end = first(rest, b' ');
    Some((&rest[..end], &rest[end..]))
}

/// The words of a line.
pub(crate) fn words_of(line: &[u8]) -> Words<'_>
    ensures { AreWords result (words line.now) }
{
    let Some((first, rest)) = first_word(line) else {
        return Words::Others;
    };
    let Some((second, rest)) = first_word(rest) else {
        return Words::One(first);
    };
    let Some((third, rest)) = first_word(rest) else {
        return Words::Two(first, second);
    };
    match first_word(rest) {
        None => Words::Three(first, second, third),
        Some(_) => Words::Others,
    }
}
