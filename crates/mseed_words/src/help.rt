//! What the help says beside the lists of the options, of the program and of each command.
use crate::command_name::CommandName;

/// The number of the release, as in the file `VERSION`.
pub(crate) const VERSION: &str = "0.1.0";

/// What the program does, and how files are named.
pub(crate) const ABOUT: &str =
    "Audits, joins audits, lists, selects, repacks, serves and fetches seismic
waveforms in miniSEED. Files are named after the command: mseed audit my.mseed";

/// How the program is called.
pub(crate) const USAGE: &str = "mseed <COMMAND> [OPTIONS] [FILES OR STATIONS]";

/// The commands, and how to get at the help of each.
pub(crate) const COMMANDS: &str = "Commands:
  audit   says which channels are continuous, and where the others break
  join    joins the parts that audit --part wrote to the audit of all
  show    lists the records
  select  copies the records of some channels and of a window of time
  repack  packs each channel anew, in records of one length and one encoding
  serve   sends the records of stations to clients, over SeedLink 3
  fetch   asks a server for the records of stations, over SeedLink 3

The options of a command, its statuses and an example: mseed audit --help";

/// How a command is called. What `serve` and `fetch` can't do without is on a line of its own, so that no line is wider
/// than a screen of 80 columns.
pub(crate) fn usage<'a>(name: CommandName) -> &'a str {
    match name {
        CommandName::Audit => "mseed audit [OPTIONS] [FILE]...",
        CommandName::Join => "mseed join [OPTIONS] [FILE]...",
        CommandName::Show => "mseed show [OPTIONS] [FILE]...",
        CommandName::Select => "mseed select [OPTIONS] [FILE]...",
        CommandName::Repack => "mseed repack [OPTIONS] [FILE]...",
        CommandName::Serve => {
            "mseed serve --port <PORT> --station <STATION> --network <NETWORK>
                   [OPTIONS] [NET_STA]..."
        }
        CommandName::Fetch => {
            "mseed fetch --port <PORT> --station <STATION> --network <NETWORK>
                   [OPTIONS] [NET_STA:HEX]..."
        }
    }
}

/// What a command does.
pub(crate) fn about<'a>(name: CommandName) -> &'a str {
    match name {
        CommandName::Audit => "Says which channels are continuous, and where the others break.",
        CommandName::Join => "Joins the parts that audit --part wrote to the audit of all.",
        CommandName::Show => "Lists the records, a line for each.",
        CommandName::Select => {
            "Copies the records of some channels and of a window of time, byte for byte."
        }
        CommandName::Repack => {
            "Packs each channel anew, in records of one length and one encoding."
        }
        CommandName::Serve => {
            "Sends the records on standard input to clients, over SeedLink 3. Each has 512
bytes, and is of one of the stations."
        }
        CommandName::Fetch => {
            "Asks a server for the records of stations, over SeedLink 3, and writes each
record, of 512 bytes, as soon as it is whole."
        }
    }
}

/// What the words after a command's options are called.
pub(crate) fn place_title<'a>(name: CommandName) -> &'a str {
    match name {
        CommandName::Serve => "NET_STA",
        CommandName::Fetch => "NET_STA:HEX",
        _ => "FILE",
    }
}

/// What the words after a command's options are.
pub(crate) fn place_help<'a>(name: CommandName) -> &'a str {
    match name {
        CommandName::Serve => "further stations, up to 15",
        CommandName::Fetch => "further stations, up to 15; HEX is the number to begin with",
        CommandName::Join => "the parts, in the order of their archives, as one input",
        _ => "the archive: files, one after another, as one input",
    }
}

/// What the help of a command says at its end: what is particular about it, its statuses, and an example.
pub(crate) fn notes<'a>(name: CommandName) -> &'a str {
    match name {
        CommandName::Audit => AUDIT,
        CommandName::Join => JOIN,
        CommandName::Show => SHOW,
        CommandName::Select => SELECT,
        CommandName::Repack => REPACK,
        CommandName::Serve => SERVE,
        CommandName::Fetch => FETCH,
    }
}

const AUDIT: &str = "A file named - is standard input, which is read where no file is named. A part
is of all records: --channels, --from and --until don't go with --part. With
them the audit is of the records asked for, as if no others were there: a
window's audit says nothing of its borders, nor of records without a time.

Statuses: 0 each channel is continuous, 1 a channel is broken, 2 a fault of the
input or the output, 3 a bad command line or this help

  mseed audit my.mseed";

const JOIN: &str = "A file named - is standard input, which is read where no file is named. With a
bad line, or another number of parts than expected, no audit is written.

Statuses: 0 each channel is continuous, 1 a channel is broken, 2 a fault of an
archive, the input or the output, 3 a bad command line or this help

  mseed audit --part 2024-05.mseed > 2024-05.part
  mseed join --expect 12 2024-*.part";

const SHOW: &str = "A file named - is standard input, which is read where no file is named.

Statuses: 0 done, 2 a fault of the input or the output, 3 a bad command line or
this help

  mseed show --channels 'IU_ANMO_00_BH?' my.mseed";

const SELECT: &str =
    "A file named - is standard input, which is read where no file is named. Records
that reach into the window are written whole; those without a valid start are
in no window, and how many there are is reported.

Statuses: 0 done, also for no record, 2 a fault of the input or the output, 3 a
bad command line or this help

  mseed select --from 2024-05-14 --until 2024-05-15 my.mseed > day.mseed";

const REPACK: &str =
    "A file named - is standard input, which is read where no file is named. Nothing
is written where the input has a fault, or a channel can't be packed.

Statuses: 0 done, 1 a channel is broken, 2 a fault of the input or the output,
or a channel that can't be packed, 3 a bad command line or this help

  mseed repack --length 4096 --encoding steim1 my.mseed > packed.mseed";

const SERVE: &str = "With --live, over a file that is appended to, each record has the same number
after a restart.

Statuses: 0 done, 2 a fault of the input, or of a connection or the port, 3 a
bad command line or this help

  mseed serve --port 18000 --station ANMO --network IU < my.mseed
  tail -c +1 -f my.mseed | mseed serve --live --port 18000 \\
    --station ANMO --network IU";

const FETCH: &str = "With --holes a server may number all its stations together: records in a hole
may be lost unseen.

Statuses: 0 done, 2 a fault of the server or the output, or all tries used up,
3 a bad command line or this help

  mseed fetch --port 18000 --station ANMO --network IU > my.mseed";
