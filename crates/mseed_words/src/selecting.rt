//! Which records the words of a command line ask for.
ghost use Rattle.std.specs.Prelude.{◌≡◌, ◌≤◌, Some, option_map};
ghost use Rattle.clap.specs.Matches.{found_of};
ghost use Rattle.clap.specs.Walk.{rows_of};
ghost use Rattle.mseed_select.specs.Selecting.{selection_of, text_of};
ghost use Rattle.mseed_words.specs.Mistakes.{mapped};
ghost use Rattle.mseed_words.specs.Selecting.{asked_of, channels_of, instant_of, is_dated, is_month_and_day};
ghost use Rattle.mseed_words.specs.Selecting.{is_number_of, option_given, selection_by, takes_selection, wanted_time};

use crate::found::{is_given, text_of};
use crate::halves::cut;
use crate::mistake::{Mistake, Valued, Wanted};
use crate::numbers::number_within;
use crate::request::Request;
use clap::ArgMatches;
use mseed_select::{Patterns, Selector, read_time};
use mseed_time::Micros;

/// Which records something is requested of, where the words say.
///
/// # Errors
///
/// What is wrong with the first of the three options with which something is wrong.
pub(crate) fn asked_of<'a>(
    request: &Request,
    matches: &ArgMatches<'a>,
) -> Result<Option<Selector<'a>>, Mistake>
    ensures { mapped (λ asked. option_map selection_of asked) result
        ≡ asked_of request.now (rows_of (found_of matches.now)) }
{
    if !takes_selection(request) || option_given(matches).is_none() {
        return Ok(None);
    }
    let channels = match channels_of(matches) {
        Ok(channels) => channels,
        Err(mistake) => return Err(mistake),
    };
    let from = instant_of(Valued::From, matches)?;
    let until = instant_of(Valued::Until, matches)?;
    selector_by(channels, from, until)
}

/// Whether a request can be met with some of the records alone.
fn takes_selection(request: &Request) -> bool
    ensures { result ≡ takes_selection request.now }
{
    matches!(
        request,
        Request::Audit
            | Request::AuditEach
            | Request::Show
            | Request::Select
            | Request::Repack(_)
            | Request::RepackStretches { .. }
    )
}

/// The first that is given of the options that say which records are asked for.
pub(crate) fn option_given(matches: &ArgMatches<'_>) -> Option<Valued>
    ensures { result ≡ option_given (rows_of (found_of matches.now)) }
{
    if is_given(matches, "channels") {
        Some(Valued::Channels)
    } else if is_given(matches, "from") {
        Some(Valued::From)
    } else if is_given(matches, "until") {
        Some(Valued::Until)
    } else {
        None
    }
}

/// What asks for some channels and a window.
///
/// # Errors
///
/// Where the window's end isn't after its begin.
fn selector_by<'a>(
    channels: Option<Patterns<'a>>,
    from: Option<Micros>,
    until: Option<Micros>,
) -> Result<Option<Selector<'a>>, Mistake>
    ensures { mapped (λ asked. option_map selection_of asked) result
        ≡ mapped Some (selection_by (text_of channels.entry) from until) }
{
    match Selector::new(channels, from, until) {
        Ok(selector) => Ok(Some(selector)),
        Err(_) => Err(Mistake::Value(Valued::Until, Wanted::Later)),
    }
}

/// The patterns of channels, where they are given.
///
/// # Errors
///
/// Where they are none.
fn channels_of<'a>(matches: &ArgMatches<'a>) -> Result<Option<Patterns<'a>>, Mistake>
    ensures { mapped (λ channels. text_of channels) result ≡ channels_of (rows_of (found_of matches.now)) }
{
    match text_of(matches, "channels") {
        None => Ok(None),
        Some(text) => match Patterns::read(text.as_bytes()) {
            Ok(patterns) => Ok(Some(patterns)),
            Err(_) => Err(Mistake::Value(Valued::Channels, Wanted::Patterns)),
        },
    }
}

/// The instant that an option gives, where it is given.
///
/// # Errors
///
/// Where its value is no time.
fn instant_of(option: Valued, matches: &ArgMatches<'_>) -> Result<Option<Micros>, Mistake>
    ensures { result ≡ instant_of option (rows_of (found_of matches.now)) }
{
    match text_of(matches, option.name()) {
        None => Ok(None),
        Some(word) => match read_time(word.as_bytes()) {
            Ok(instant) => Ok(Some(instant)),
            Err(_) => Err(Mistake::Value(option, wanted_time(word))),
        },
    }
}

/// What a word lacks that is no time: its form, a day that there is, or a time of day.
fn wanted_time(word: &str) -> Wanted
    ensures { result ≡ wanted_time word.now }
{
    let (date, _) = cut(word, 'T');
    if read_time(date.as_bytes()).is_ok() {
        Wanted::Clock
    } else if is_dated(date) {
        Wanted::Day
    } else {
        Wanted::Time
    }
}

/// Whether a text has the form of a date: a year, and a month and its day, or a day of the year.
fn is_dated(date: &str) -> bool
    ensures { result ≡ is_dated date.now }
{
    let (year, day) = cut(date, '-');
    is_number_of(4, year) && (is_number_of(3, day) || is_month_and_day(day))
}

/// Whether a text has the form of a month and its day.
fn is_month_and_day(text: &str) -> bool
    ensures { result ≡ is_month_and_day text.now }
{
    let (month, day) = cut(text, '-');
    is_number_of(2, month) && is_number_of(2, day)
}

/// Whether a text is a number of `digits` digits.
fn is_number_of(digits: usize, text: &str) -> bool
    requires { digits ≤ 9 }
    ensures { result ≡ is_number_of digits text.now }
{
    text.len() == digits && number_within(digits, text).is_some()
}
