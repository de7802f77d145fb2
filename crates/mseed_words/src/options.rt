//! The program and its commands as `clap` reads them.
ghost use Rattle.std.specs.Prelude.{◌≡◌, IfOk, false, map, pos};
ghost use Rattle.clap.specs.Simple.{app_of, with_rule};
ghost use Rattle.clap.specs.Walk.{rule_of};
ghost use Rattle.clap.specs.declared.builder.value_parser.ValueParser.TheVariants.{Signed};
ghost use Rattle.mseed_words.specs.Options.{bare_command, option_rules, places_rule, the_command, the_program};
ghost use Rattle.mseed_words.specs.Options.{title_of, with_rules};
ghost use Rattle.mseed_words.specs.private.Named.{rule_named};

use crate::command_name::CommandName;
use crate::help::{ABOUT, COMMANDS, USAGE, VERSION, about, notes, place_help, place_title, usage};
use clap::builder::ValueParser;
use clap::{Arg, ArgAction, Command, value_parser};
use std::alloc::{AllocError, Global};

/// What is to be read after an option's name, by what the help calls it: nothing, a text, or a number from 1 to this
/// one.
#[derive(Clone, Copy)]
enum Kind {
    Flag,
    Text(&'static str),
    Number(&'static str, u32),
}

/// An option of a command.
#[derive(Clone, Copy)]
struct Named {
    name: &'static str,
    kind: Kind,
    // Whether the command can't do without it.
    is_needed: bool,
    help: &'static str,
}

/// An option that the command can do without.
macro_rules! optional {
    ($name:literal, $kind:expr => $help:literal) => {
        Named {
            name: $name,
            kind: $kind,
            is_needed: false,
            help: $help,
        }
    };
}

/// One that it can't do without.
macro_rules! needed {
    ($name:literal, $kind:expr => $help:literal) => {
        Named {
            is_needed: true,
            ..optional!($name, $kind => $help)
        }
    };
}

const CHANNELS: Named = optional!("channels", Kind::Text("LIST") =>
    "only channels as NET_STA_LOC_CHA, with commas between\n\
     several; * is any characters, ? one, -- no location");

const FROM: Named = optional!("from", Kind::Text("TIME") =>
    "only records that end at this time or after it; as\n\
     2024-05-14, 2024-135 or 2024-05-14T03:20:00.5");

const UNTIL: Named = optional!("until", Kind::Text("TIME") =>
    "only records that begin before this time");

/// What `audit` takes.
static AUDIT: [Named; 5] = [
    optional!("each", Kind::Flag => "before the audit a line for each record with a finding"),
    optional!("part", Kind::Flag => "instead of the audit a part, which join reads"),
    CHANNELS,
    FROM,
    UNTIL,
];

/// What `join` takes.
static JOIN: [Named; 4] = [
    optional!("each", Kind::Flag => "before the audit a line for each border with a finding"),
    optional!("part", Kind::Flag => "instead of the audit the joint part; not with --each"),
    optional!("past-faults", Kind::Flag =>
        "go on after a part that ends with a fault, report each\n\
         fault and count it: status 2"),
    optional!("expect", Kind::Text("PARTS") => "how many parts there have to be, 1 to 999999999"),
];

/// What `show` and `select` take.
static SELECTING: [Named; 3] = [CHANNELS, FROM, UNTIL];

/// What `repack` takes.
static REPACK: [Named; 7] = [
    optional!("length", Kind::Text("BYTES") => "128, 256, 512, 1024, 2048 or 4096; by default 512"),
    optional!("encoding", Kind::Text("NAME") =>
        "int16, int32, steim1 or steim2; by default steim2"),
    optional!("stretches", Kind::Flag =>
        "pack each channel in stretches, each from its own\n\
         start, so that it may have gaps and its clock may drift"),
    optional!("leave", Kind::Flag =>
        "with --stretches: leave out, and report, the channels\n\
         that can't be packed: status 1 or 2"),
    CHANNELS,
    FROM,
    UNTIL,
];

const PORT: Named = needed!("port", Kind::Number("PORT", 65_535) => "1 to 65535");

const STATION: Named = needed!("station", Kind::Text("STATION") =>
    "the first station, 1 to 5 letters or digits");

const NETWORK: Named = needed!("network", Kind::Text("NETWORK") =>
    "its network, 1 or 2 letters or digits");

const TIMEOUT: Named = optional!("timeout", Kind::Text("SECONDS") =>
    "how long to wait, 0 to 86400, 0 for ever;\n\
     by default 600");

/// What `serve` takes.
static SERVE: [Named; 10] = [
    PORT,
    STATION,
    NETWORK,
    optional!("address", Kind::Text("ADDRESS") =>
        "the IPv4 address to listen at; by default 127.0.0.1"),
    TIMEOUT,
    optional!("capacity", Kind::Text("RECORDS") =>
        "how many to keep of each station, 1 to 1000000; by\n\
         default 1000"),
    optional!("first", Kind::Text("HEX") =>
        "the number of each first record, 0 to FFFFFF;\n\
         by default 0"),
    optional!("connections", Kind::Number("COUNT", 1_000_000) =>
        "how many to serve, 1 to 1000000; by default 1"),
    optional!("live", Kind::Flag =>
        "read the input while many clients are served at\n\
         once; not with --connections"),
    optional!("clients", Kind::Number("COUNT", 1_024) =>
        "with --live: how many at once, 1 to 1024;\n\
         by default 64"),
];

/// What `fetch` takes.
static FETCH: [Named; 9] = [
    PORT,
    STATION,
    NETWORK,
    optional!("address", Kind::Text("HOST") =>
        "the IPv4 address of the server, or its name;\n\
         by default 127.0.0.1"),
    TIMEOUT,
    optional!("from", Kind::Text("HEX") =>
        "the number to begin with at the first station, 0 to\n\
         FFFFFF; by default the oldest of an mseed serve;\n\
         another server may begin with the next one to come"),
    optional!("tries", Kind::Number("COUNT", 1_000_000) =>
        "how many times to connect, 1 to 1000000; by default 1"),
    optional!("tell-next", Kind::Flag =>
        "report each first number and, at the end, how to\n\
         go on"),
    optional!("holes", Kind::Flag =>
        "take records whose numbers are ahead, and report each\n\
         hole before them"),
];

/// The program without a command.
pub(crate) fn program<'a>(alloc: Global) -> Command<'a>
    ensures { app_of result ≡ the_program }
{
    Command::new(alloc, "mseed")
        .about(ABOUT)
        .override_usage(USAGE)
        .after_help(COMMANDS)
        .version(VERSION)
        .no_binary_name(true)
        .arg_required_else_help(true)
}

/// A command, with its places and options.
pub(crate) fn command<'a>(alloc: Global, name: CommandName) -> Result<Command<'a>, AllocError>
    ensures { IfOk result (λ c. app_of c ≡ the_command name) }
{
    let command = with_places(alloc, name, bare_command(alloc, name))?;
    with_all(alloc, command, options_of(name))
}

/// The options of a command, in their order.
fn options_of(name: CommandName) -> &'static [Named]
    ensures { map rule_named result.now ≡ option_rules name }
{
    match name {
        CommandName::Audit => &AUDIT,
        CommandName::Join => &JOIN,
        CommandName::Show => &SELECTING,
        CommandName::Select => &SELECTING,
        CommandName::Repack => &REPACK,
        CommandName::Serve => &SERVE,
        CommandName::Fetch => &FETCH,
    }
}

/// A command without places and options. Its name isn't among the words behind it.
fn bare_command<'a>(alloc: Global, name: CommandName) -> Command<'a>
    ensures { app_of result ≡ bare_command name }
{
    Command::new(alloc, title_of(name))
        .about(about(name))
        .override_usage(usage(name))
        .after_help(notes(name))
        .no_binary_name(true)
}

/// What the help calls a command.
fn title_of<'a>(name: CommandName) -> &'a str
    ensures { result.now ≡ title_of name }
{
    match name {
        CommandName::Audit => "mseed audit",
        CommandName::Join => "mseed join",
        CommandName::Show => "mseed show",
        CommandName::Select => "mseed select",
        CommandName::Repack => "mseed repack",
        CommandName::Serve => "mseed serve",
        CommandName::Fetch => "mseed fetch",
    }
}

/// A command with its files, or its further places, which have no names.
fn with_places<'a>(
    alloc: Global,
    name: CommandName,
    command: Command<'a>,
) -> Result<Command<'a>, AllocError>
    ensures { IfOk result (λ c. app_of c ≡ with_rule (app_of command.entry) places_rule) }
{
    let places = Arg::new(alloc, "place")
        .value_name(place_title(name))
        .action(ArgAction::Append)
        .help(place_help(name));
    command.arg(places)
}

/// A command with these options, in their order.
fn with_all<'a>(
    alloc: Global,
    command: Command<'a>,
    all: &[Named],
) -> Result<Command<'a>, AllocError>
    ensures { IfOk result (λ c. app_of c ≡ with_rules (app_of command.entry) (map rule_named all.now)) }
{
    let mut command = command;
    for named in all {
        command = command.arg(argument(alloc, named))?;
    }
    Ok(command)
}

/// An option.
fn argument<'a>(alloc: Global, named: &Named) -> Arg<'a>
    ensures rule { rule_of result ≡ rule_named named.now }
    ensures global { result.global ≡ false }
{
    let argument = Arg::new(alloc, named.name)
        .long(named.name)
        .help(named.help)
        .required(named.is_needed);
    match named.kind {
        Kind::Flag => argument.action(ArgAction::SetTrue),
        Kind::Text(value) => argument.value_name(value),
        Kind::Number(value, most) => argument.value_name(value).value_parser(numbers(most)),
    }
}

/// A parser of the numbers from 1 to the greatest that can be given.
fn numbers<'a>(most: u32) -> ValueParser<'a>
    ensures { result ≡ Signed (pos 1) (pos most) }
{
    value_parser!(u32).range(1..=i64::from(most))
}
