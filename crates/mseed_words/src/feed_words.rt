//! What the words of the two commands of a feed ask for.
ghost use Rattle.std.specs.Prelude.{◌≡◌, ◌≤◌, ◌<◌, ◌^◌, ◌∷◌, [], IfOk, IfSome, map, option_map};
ghost use Rattle.std.specs.Char.{is_ascii_alphanumeric};
ghost use Rattle.std.specs.List.{list_all};
ghost use Rattle.clap.specs.Matches.{found_of};
ghost use Rattle.clap.specs.Walk.{rows_of};
ghost use Rattle.mseed_words.specs.Places.{ArePlaces};
ghost use Rattle.mseed_words.specs.FeedWords.{CanFetch, CanServe, CanServeLive, IsCount, IsEndpoint, called_in};
ghost use Rattle.mseed_words.specs.FeedWords.{capacity_of, code_mistake, count_of, endpoint_of, fetching_of};
ghost use Rattle.mseed_words.specs.FeedWords.{first_place, gathered, is_code, live_serving_of, number_of, place_in};
ghost use Rattle.mseed_words.specs.FeedWords.{place_of, places_in, serving_in, serving_of, unnamed};

use crate::found::{further_in, is_given, is_set, text_of, text_or};
use crate::host_words::{address_in, host_in, timeout_in};
use crate::mistake::{Mistake, PlaceFault, Valued, Wanted};
use crate::numbers::{counted_in, hexadecimal_in, number_in};
use crate::places::Places;
use crate::request::{Endpoint, Fetching, LiveServing, Serving};
use clap::ArgMatches;
use slink_wire::{Address, Host, Place, Timeout};

/// The address that stands for this machine.
const HERE: &str = "127.0.0.1";

/// How further places are named.
#[derive(Clone, Copy)]
pub(crate) enum Naming {
    /// `NET_STA`: by the codes of a network and a station.
    Plain,
    /// So, or `NET_STA:HEX`, with the number of the record that is wanted first.
    Numbered,
}

/// What is requested of serving, by its options and places. The number of clients is of serving while records come.
///
/// # Errors
///
/// What is wrong first.
pub(crate) fn serving_of(matches: &ArgMatches<'_>) -> Result<Serving, Mistake>
    ensures value { result ≡ serving_of (rows_of (found_of matches.now)) }
    ensures range { IfOk result CanServe }
{
    if is_given(matches, "clients") {
        return Err(Mistake::Value(Valued::Clients, Wanted::Live));
    }
    serving_in(matches)
}

/// What is requested of serving, whether or not records come: where nothing is given, one connection, and rings of a
/// thousand records, of which the first has the number 0.
///
/// # Errors
///
/// What is wrong first.
fn serving_in(matches: &ArgMatches<'_>) -> Result<Serving, Mistake>
    ensures value { result ≡ serving_in (rows_of (found_of matches.now)) }
    ensures range { IfOk result CanServe }
{
    let address = address_in(text_or(matches, "address", HERE)).ok_or(Mistake::Value(
        Valued::Address,
        Wanted::Address,
    ))?;
    let listener = endpoint_of(address, matches)?;
    let connections = count_of(Valued::Connections, 1_000_000, "1", matches)?;
    let capacity = capacity_of(matches)?;
    let first = number_of(Valued::First, text_or(matches, "first", "0"))?;
    let places = places_in(Naming::Plain, None, matches)?;
    Ok(Serving {
        listener,
        connections,
        capacity,
        first,
        places,
    })
}

/// What is requested of serving while records come: of 64 clients at once where no number is given. It has no number
/// of connections.
///
/// # Errors
///
/// What is wrong first.
pub(crate) fn live_serving_of(matches: &ArgMatches<'_>) -> Result<LiveServing, Mistake>
    ensures value { result ≡ live_serving_of (rows_of (found_of matches.now)) }
    ensures range { IfOk result CanServeLive }
{
    if is_given(matches, "connections") {
        return Err(Mistake::Value(Valued::Connections, Wanted::NotLive));
    }
    let serving = serving_in(matches)?;
    let clients = count_of(Valued::Clients, 1_024, "64", matches)?;
    Ok(LiveServing { serving, clients })
}

/// A machine, with the port and the time-out that the options give: ten minutes where no time-out is given.
///
/// # Errors
///
/// What is wrong first.
fn endpoint_of<H: Copy>(host: H, matches: &ArgMatches<'_>) -> Result<Endpoint<H>, Mistake>
    ensures value { result ≡ endpoint_of host (rows_of (found_of matches.now)) }
    ensures range { IfOk result IsEndpoint }
{
    let port = count_of(Valued::Port, 65_535, "", matches)? as u16;
    match timeout_in(text_or(matches, "timeout", "600")) {
        Some(timeout) => Ok(Endpoint {
            host,
            port,
            timeout,
        }),
        None => Err(Mistake::Value(Valued::Timeout, Wanted::Seconds)),
    }
}

/// What is requested of fetching, by its options and places: of one try where no number is given.
///
/// # Errors
///
/// What is wrong first.
pub(crate) fn fetching_of(matches: &ArgMatches<'_>) -> Result<Fetching, Mistake>
    ensures value { result ≡ fetching_of (rows_of (found_of matches.now)) }
    ensures range { IfOk result CanFetch }
{
    let host = host_in(text_or(matches, "address", HERE)).ok_or(Mistake::Value(
        Valued::Address,
        Wanted::Host,
    ))?;
    let server = endpoint_of(host, matches)?;
    let tries = count_of(Valued::Tries, 1_000_000, "1", matches)?;
    let places = places_in(Naming::Numbered, text_of(matches, "from"), matches)?;
    Ok(Fetching {
        server,
        tries,
        places,
        report_next: is_set(matches, "tell-next"),
        holes: is_set(matches, "holes"),
    })
}

/// The number from 1 to `most` that an option gives, or that this text says where none is given.
///
/// # Errors
///
/// Where it is no such number.
fn count_of(
    option: Valued,
    most: u32,
    default: &'static str,
    matches: &ArgMatches<'_>,
) -> Result<u32, Mistake>
    ensures value { result ≡ count_of option most default.now (rows_of (found_of matches.now)) }
    ensures range { IfOk result (λ n. (1 ≤ n) × (n ≤ most)) }
{
    match counted_in(most, text_or(matches, option.name(), default)) {
        Some(count) => Ok(count),
        None => Err(Mistake::Value(option, Wanted::Count)),
    }
}

/// How many records a ring keeps, from one to a million: a thousand where nothing is given.
///
/// # Errors
///
/// Where it is no such number.
fn capacity_of(matches: &ArgMatches<'_>) -> Result<u32, Mistake>
    ensures value { result ≡ capacity_of (rows_of (found_of matches.now)) }
    ensures range { IfOk result IsCount }
{
    match number_in(text_or(matches, "capacity", "1000")) {
        Some(capacity) if 1 <= capacity && capacity <= 1_000_000 => Ok(capacity),
        _ => Err(Mistake::Value(Valued::Capacity, Wanted::Capacity)),
    }
}

/// The number of a record, as an option gives it.
///
/// # Errors
///
/// Where it is none.
fn number_of(option: Valued, digits: &str) -> Result<u32, Mistake>
    ensures value { result ≡ number_of option digits.now }
    ensures range { IfOk result (λ n. n < 2 ^ 24) }
{
    hexadecimal_in(digits).ok_or(Mistake::Value(option, Wanted::Hexadecimal))
}

/// The place of the two options, with the number that is given of it, and the further ones.
///
/// # Errors
///
/// What is wrong first.
fn places_in(
    naming: Naming,
    from: Option<&str>,
    matches: &ArgMatches<'_>,
) -> Result<Places, Mistake>
    ensures value { result
        ≡ places_in naming (option_map (λ t. t.now) from.entry) (rows_of (found_of matches.now)) }
    ensures range { IfOk result ArePlaces }
{
    let first = first_place(from, matches)?;
    gather(naming, first, further_in(matches))
}

/// The place of the two options, with the number that is given of it, if one is.
///
/// # Errors
///
/// What is wrong first.
fn first_place(
    from: Option<&str>,
    matches: &ArgMatches<'_>,
) -> Result<(Place, Option<u32>), Mistake>
    ensures value { result ≡ first_place (option_map (λ t. t.now) from.entry) (rows_of (found_of matches.now)) }
    ensures range { IfOk result (λ p. IfSome p.1 (λ n. n < 2 ^ 24)) }
{
    let place = place_of(matches)?;
    match from {
        None => Ok((place, None)),
        Some(digits) => Ok((place, Some(number_of(Valued::From, digits)?))),
    }
}

/// The place that the two options name.
///
/// # Errors
///
/// Which of them names none.
fn place_of(matches: &ArgMatches<'_>) -> Result<Place, Mistake>
    ensures { result ≡ place_of (rows_of (found_of matches.now)) }
{
    let station = text_or(matches, "station", "");
    let network = text_or(matches, "network", "");
    match Place::new(station.as_bytes(), network.as_bytes()) {
        Ok(place) => Ok(place),
        Err(_) => Err(code_mistake(station)),
    }
}

/// What is wrong with the codes of a station and its network, one of which is none: the network's where the station's
/// is one.
fn code_mistake(station: &str) -> Mistake
    ensures { result ≡ code_mistake station.now }
{
    if is_code(5, station) {
        Mistake::Value(Valued::Network, Wanted::Network)
    } else {
        Mistake::Value(Valued::Station, Wanted::Station)
    }
}

/// Whether a text is a code: 1 to `width` ASCII letters or digits.
fn is_code(width: usize, text: &str) -> bool
    ensures { result ≡ is_code width text.now }
{
    1 <= text.len() && text.len() <= width && are_alphanumeric(text.as_bytes())
}

/// Whether all bytes are ASCII letters or digits.
fn are_alphanumeric(bytes: &[u8]) -> bool
    ensures { result ≡ list_all is_ascii_alphanumeric bytes.now }
{
    bytes.iter().all(|byte| byte.is_ascii_alphanumeric())
}

/// The first place and the further ones.
///
/// # Errors
///
/// What is wrong with the first word that names no place, or one that is there already, or one too many.
fn gather(naming: Naming, first: (Place, Option<u32>), words: &[&str]) -> Result<Places, Mistake>
    requires { IfSome first.1 (λ n. n < 2 ^ 24) }
    ensures value { result ≡ gathered naming (first ∷ []) (map (λ w. w.now) words.now) }
    ensures range { IfOk result ArePlaces }
{
    let mut places = Places::of(first);
    for word in words {
        let called = called_in(naming, word);
        let Some(place) = called else {
            return Err(Mistake::Place(places.len() - 1, unnamed(naming)));
        };
        if places.len() == 16 {
            return Err(Mistake::Place(places.len() - 1, PlaceFault::Many));
        }
        if places.has(place.0) {
            return Err(Mistake::Place(places.len() - 1, PlaceFault::Again));
        }
        places.push(place);
    }
    Ok(places)
}

/// What a word lacks that names no place.
fn unnamed(naming: Naming) -> PlaceFault
    ensures { result ≡ unnamed naming }
{
    match naming {
        Naming::Plain => PlaceFault::Plain,
        Naming::Numbered => PlaceFault::Numbered,
    }
}

/// The further place that a word names, with the number after its first colon, where it can have one.
fn called_in(naming: Naming, word: &str) -> Option<(Place, Option<u32>)>
    ensures value { result ≡ called_in naming word.now }
    ensures range { IfSome result (λ p. IfSome p.1 (λ n. n < 2 ^ 24)) }
{
    match (naming, word.split_once(':')) {
        (Naming::Numbered, Some((place, digits))) => {
            Some((place_in(place)?, Some(hexadecimal_in(digits)?)))
        }
        _ => Some((place_in(word)?, None)),
    }
}

/// The place that a word names: the network's code, an underscore, and the station's code.
fn place_in(word: &str) -> Option<Place>
    ensures { result ≡ place_in word.now }
{
    Place::read(word.as_bytes()).ok()
}
