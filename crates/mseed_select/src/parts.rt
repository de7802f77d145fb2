//! The parts of a text between separators.
ghost use Rattle.std.specs.Prelude.{◌≡◌, ◌==◌, ◌∷◌, [], MatchOption, position};
ghost use Rattle.std.specs.List.{slice_split};
ghost use Rattle.mseed_select.specs.private.Parts.{AreParts};

/// The parts of a text between its separators, up to three.
#[derive(Clone, Copy)]
pub(crate) enum Parts<'a> {
    /// There is no separator.
    One(&'a [u8]),
    /// There is one.
    Two(&'a [u8], &'a [u8]),
    /// There are two.
    Three(&'a [u8], &'a [u8], &'a [u8]),
    /// There are more.
    More,
}

/// Returns the index of the first separator, in bytes.
fn index_of(text: &[u8], separator: u8) -> Option<usize>
    ensures { result ≡ position (λ c. c == separator) text.now }
{
    text.iter().position(|c| *c == separator)
}

/// Returns what stands before the first separator, and what stands after it, if there is one.
pub(crate) fn first_part(text: &[u8], separator: u8) -> (&[u8], Option<&[u8]>)
    ensures { MatchOption result.1 (slice_split (λ c. c == separator) text.now ≡ result.0.now ∷ [])
        (λ rest. slice_split (λ c. c == separator) text.now
        ≡ result.0.now ∷ slice_split (λ c. c == separator) rest.now) }
{
    match index_of(text, separator) {
        Some(index) => (&text[..index], Some(&text[index + 1..])),
        None => (text, None),
    }
}

/// Returns the parts of a text between its separators.
pub(crate) fn parts_of(text: &[u8], separator: u8) -> Parts<'_>
    ensures { AreParts result (slice_split (λ c. c == separator) text.now) }
{
    let (first, rest) = first_part(text, separator);
    let Some(rest) = rest else {
        return Parts::One(first);
    };
    let (second, rest) = first_part(rest, separator);
    let Some(rest) = rest else {
        return Parts::Two(first, second);
    };
    let (third, rest) = first_part(rest, separator);
    match rest {
        None => Parts::Three(first, second, third),
        Some(_) => Parts::More,
    }
}
