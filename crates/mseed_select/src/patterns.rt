//! Patterns of channels.
ghost use Rattle.std.specs.Prelude.{◌≡◌, ◌↔◌, IsOk, IfOk, IsTrue, Some};
ghost use Rattle.mseed_record.specs.Pattern.{IsOfChannels, are_patterns, is_of_channels};

use crate::fault::BadPatterns;
use crate::fields::is_pattern;
use crate::matching::matches;
use mseed_record::Codes;

/// Patterns of channels, borrowed from their text.
#[derive(Clone, Copy, Debug)]
pub struct Patterns<'a> {
    text: &'a [u8],
}

impl<'a> Patterns<'a> {
    /// Reads patterns, separated by commas. A pattern is four fields, separated by `_`: network, station, location and
    /// channel. In a field `*` takes any characters, none too, `?` takes one; letters, digits and `-` are themselves,
    /// and case counts; `--` as location is the empty one too.
    ///
    /// # Errors
    ///
    /// `BadPatterns` exactly where a pattern has another character or another number of fields. An empty text has one
    /// pattern, of one field, and so is refused.
    pub fn read(text: &'a [u8]) -> Result<Patterns<'a>, BadPatterns>
        ensures ok { IsOk result ↔ IsTrue (are_patterns text.now) }
        ensures value { IfOk result (λ p. p.text.now ≡ text.now) }
    {
        if are_patterns(text) {
            Ok(Patterns { text })
        } else {
            Err(BadPatterns)
        }
    }

    /// Returns whether one of them matches a channel: each of its four fields fits the channel's code, without its
    /// trailing spaces and NULs.
    pub(crate) fn are_of(&self, codes: &Codes) -> bool
        ensures value { result ≡ is_of_channels (Some self.now.text.now) codes.now }
        ensures exactly { IsTrue result ↔ IsOfChannels (Some self.now.text.now) codes.now }
    {
        self.text
            .split(|c| *c == b',')
            .any(|pattern| matches(pattern, codes))
    }
}

/// Returns whether each part of a text between its commas is a pattern.
fn are_patterns(text: &[u8]) -> bool
    ensures { result ≡ are_patterns text.now }
{
    text.split(|c| *c == b',').all(is_pattern)
}
