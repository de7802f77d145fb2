//! What `clap` found among the words behind a command.
ghost use Rattle.std.specs.Prelude.{◌≡◌, is_some, map, option_map};
ghost use Rattle.std.specs.List.{list_any};
ghost use Rattle.std.specs.Str.{bytes_eq};
ghost use Rattle.clap.specs.Matches.{found_of};
ghost use Rattle.clap.specs.Walk.{first_of, rows_of};
ghost use Rattle.mseed_words.specs.Found.{further_in, is_set, text_or};

use clap::ArgMatches;

/// The first value of an option.
pub(crate) fn text_of<'a>(matches: &ArgMatches<'a>, name: &str) -> Option<&'a str>
    ensures { option_map (λ t. t.now) result ≡ first_of name.now (rows_of (found_of matches.now)) }
{
    matches.get_str(name)
}

/// The first value of an option, and this one where none is given.
pub(crate) fn text_or<'a>(matches: &ArgMatches<'a>, name: &str, default: &'a str) -> &'a str
    ensures { result.now ≡ text_or name.now default.now (rows_of (found_of matches.now)) }
{
    text_of(matches, name).unwrap_or(default)
}

/// Whether an option is given.
pub(crate) fn is_given(matches: &ArgMatches<'_>, name: &str) -> bool
    ensures { result ≡ is_some (first_of name.now (rows_of (found_of matches.now))) }
{
    text_of(matches, name).is_some()
}

/// Whether a flag is set.
pub(crate) fn is_set(matches: &ArgMatches<'_>, name: &str) -> bool
    ensures { result ≡ is_set name.now (rows_of (found_of matches.now)) }
{
    text_of(matches, name) == Some("true")
}

/// The further words, in their order.
pub(crate) fn further_in<'m, 'a: 'm>(matches: &'m ArgMatches<'a>) -> &'m [&'a str]
    ensures { map (λ word. word.now) result.now ≡ further_in (rows_of (found_of matches.entry.now)) }
{
    matches.get_raw("place").unwrap_or_default()
}

/// Whether a name is one of these.
pub(crate) fn is_among(id: &str, names: &[&str]) -> bool
    ensures { result ≡ list_any (λ name. bytes_eq name.now id.now) names.now }
{
    names.iter().any(|name| *name == id)
}
