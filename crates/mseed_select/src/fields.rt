//! The fields of a pattern.
ghost use Rattle.std.specs.Prelude.{◌≡◌, ◌≢◌, ◌∷◌, [], MatchOption, length};
ghost use Rattle.std.specs.List.{list_all};
ghost use Rattle.mseed_record.specs.Pattern.{fields_in, is_character, is_pattern};

use crate::parts::first_part;

/// The four fields of a pattern.
#[derive(Clone, Copy)]
pub(crate) struct Fields<'a> {
    pub(crate) network: &'a [u8],
    pub(crate) station: &'a [u8],
    pub(crate) location: &'a [u8],
    pub(crate) channel: &'a [u8],
}

/// Returns the four fields of a pattern, between which `_` stands; `None` where there is another number of them.
pub(crate) fn fields_of(pattern: &[u8]) -> Option<Fields<'_>>
    ensures { MatchOption result (length (fields_in pattern.now) ≢ 4) (λ f. fields_in pattern.now
        ≡ f.network.now ∷ f.station.now ∷ f.location.now ∷ f.channel.now ∷ []) }
{
    let (network, rest) = first_part(pattern, b'_');
    let (station, rest) = first_part(rest?, b'_');
    let (location, rest) = first_part(rest?, b'_');
    let (channel, rest) = first_part(rest?, b'_');
    match rest {
        Some(_) => None,
        None => Some(Fields {
            network,
            station,
            location,
            channel,
        }),
    }
}

/// Returns whether a text is a pattern: four fields, of characters that a pattern may have.
pub(crate) fn is_pattern(pattern: &[u8]) -> bool
    ensures { result ≡ is_pattern pattern.now }
{
    are_characters(pattern) && fields_of(pattern).is_some()
}

/// Returns whether a text has no characters but those that a pattern may have.
fn are_characters(text: &[u8]) -> bool
    ensures { result ≡ list_all is_character text.now }
{
    text.iter().all(|c| is_character(*c))
}

/// Returns whether a pattern may have a character: a letter, a digit, `-`, `*`, `?`, or the `_` between two fields.
fn is_character(c: u8) -> bool
    ensures { result ≡ is_character c }
{
    c.is_ascii_alphanumeric() || matches!(c, b'-' | b'*' | b'?' | b'_')
}
