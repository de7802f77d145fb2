//! Whether a pattern matches a channel.
ghost use Rattle.std.specs.Prelude.{◌≡◌, ◌==◌, ◌||◌, ◌∷◌};
ghost use Rattle.mseed_record.specs.Pattern.{fits, fits_location, matches};
ghost use Rattle.mseed_select.specs.private.Pieces.{IsPiece};

use crate::fields::fields_of;
use mseed_record::{Codes, trimmed};

/// What is left of a field and of a code, where they go on at the field's first `*`.
#[derive(Clone, Copy)]
pub(crate) enum Piece<'a> {
    /// The field has no `*`, and fits the code.
    Whole,
    /// The field doesn't fit the code.
    Fails,
    /// What stands after the `*`, and the characters that are left for the `*` and for that.
    Star(&'a [u8], &'a [u8]),
}

/// Returns whether a pattern matches a channel: each of its four fields fits the channel's code.
pub(crate) fn matches(pattern: &[u8], codes: &Codes) -> bool
    ensures { result ≡ matches pattern.now codes.now }
{
    match fields_of(pattern) {
        Some(fields) => {
            fits(fields.network, trimmed(codes.network()))
                && fits(fields.station, trimmed(codes.station()))
                && fits_location(fields.location, trimmed(codes.location()))
                && fits(fields.channel, trimmed(codes.channel()))
        }
        None => false,
    }
}

/// Returns whether a field fits a location code: `--` fits the empty one too.
fn fits_location(field: &[u8], code: &[u8]) -> bool
    ensures { result ≡ fits_location field.now code.now }
{
    match field {
        [b'-', b'-'] if code.is_empty() => true,
        _ => fits(field, code),
    }
}

/// Returns whether a field fits a code: `*` takes any characters, none too, `?` takes one, and any other character
/// takes itself.
fn fits(field: &[u8], code: &[u8]) -> bool
    ensures { result ≡ fits field.now code.now }
{
    match piece_of(field, code) {
        Piece::Whole => true,
        Piece::Fails => false,
        Piece::Star(after, left) => fits_after(after, left),
    }
}

/// Returns whether a `*` and the field after it fit a code. Each `*` takes as few characters as the next piece of the
/// field lets it: whatever fits after a later place of the piece fits after its first one too, with more for the next
/// `*`. So no `*` is tried again once the next one is reached.
fn fits_after(field: &[u8], code: &[u8]) -> bool
    ensures { result ≡ fits (42 ∷ field.now) code.now }
{
    let mut after = field;
    let mut left = code;
    'pieces: loop {
        match piece_of(after, left) {
            Piece::Whole => return true,
            Piece::Star(next, others) => {
                after = next;
                left = others;
            }
            Piece::Fails => match left {
                [] => return false,
                [_, others @ ..] => left = others,
            },
        }
    }
}

/// Takes the characters before a field's first `*` off a code, and returns what is left of both.
fn piece_of<'a>(field: &'a [u8], code: &'a [u8]) -> Piece<'a>
    ensures { IsPiece result field.now code.now }
{
    let [c, after @ ..] = field else {
        return if code.is_empty() {
            Piece::Whole
        } else {
            Piece::Fails
        };
    };
    if *c == b'*' {
        return Piece::Star(after, code);
    }
    match code {
        [x, others @ ..] if takes(*c, *x) => piece_of(after, others),
        _ => Piece::Fails,
    }
}

/// Returns whether a character of a pattern that is no `*` takes a character.
fn takes(c: u8, x: u8) -> bool
    ensures { result ≡ (c == 63 || c == x) }
{
    c == b'?' || c == x
}
