//! Why arguments that a command takes request nothing that there is.
ghost use Rattle.std.specs.Prelude.{◌≡◌, ◌≤◌, length};
ghost use Rattle.mseed_words.specs.Mistakes.{after_text, before_text, name_text, near_text, option_text};
ghost use Rattle.mseed_words.specs.Mistakes.{place_text, wanted_text};

use crate::command_name::CommandName;

/// An option that has a value.
#[derive(Clone, Copy, Debug, PartialEq, Eq)]
pub enum Valued {
    /// `--channels`.
    Channels,
    /// `--from`, of records that are asked for.
    From,
    /// `--until`.
    Until,
    /// `--length`.
    Length,
    /// `--encoding`.
    Encoding,
    /// `--expect`.
    Expect,
    /// `--port`.
    Port,
    /// `--station`.
    Station,
    /// `--network`.
    Network,
    /// `--address`.
    Address,
    /// `--timeout`.
    Timeout,
    /// `--capacity`.
    Capacity,
    /// `--first`.
    First,
    /// `--connections`.
    Connections,
    /// `--clients`.
    Clients,
    /// `--tries`.
    Tries,
}

/// What the value of an option has to be, where it isn't, or which other option decides whether it is there.
#[derive(Clone, Copy, Debug, PartialEq, Eq)]
pub enum Wanted {
    /// Patterns of channels.
    Patterns,
    /// A time: what is there has another form than one.
    Time,
    /// A day that there is.
    Day,
    /// A time of day that there is.
    Clock,
    /// A time after that of `--from`.
    Later,
    /// No selection, since a part is of all records.
    AllOfPart,
    /// A record's length.
    Length,
    /// An encoding.
    Encoding,
    /// A number of parts.
    Parts,
    /// A number in its range. Never of what `clap` has let pass, which refuses every other value itself.
    Count,
    /// A station's code.
    Station,
    /// A network's code.
    Network,
    /// An address.
    Address,
    /// An address, or a name.
    Host,
    /// A number of seconds.
    Seconds,
    /// How many records a ring keeps.
    Capacity,
    /// A record's number.
    Hexadecimal,
    /// No number of connections, since `--live` serves while records come.
    NotLive,
    /// `--live`, of which the number of clients is.
    Live,
}

/// Why a word is no further place.
#[derive(Clone, Copy, Debug, PartialEq, Eq)]
pub enum PlaceFault {
    /// It isn't `NET_STA`.
    Plain,
    /// It is neither `NET_STA` nor `NET_STA:HEX`.
    Numbered,
    /// The place is there already.
    Again,
    /// There are sixteen places already.
    Many,
}

/// Why arguments that a command takes request nothing that there is.
#[derive(Clone, Copy, Debug, PartialEq, Eq)]
pub enum Mistake {
    /// The first one names no command; this one is near, if one is.
    Command(Option<CommandName>),
    /// An option has a value that it can't have, or isn't to be there.
    Value(Valued, Wanted),
    /// `--leave` is there without `--stretches`.
    Leave,
    /// `--each` and `--part` are both there, of which joining takes one.
    EachPart,
    /// The further place of this number, from 0, is none.
    Place(usize, PlaceFault),
    /// An empty argument is to be a file.
    EmptyFile,
    /// Standard input is named again.
    InputAgain,
}

impl Valued {
    /// The option's name.
    pub(crate) fn name(self) -> &'static str
        ensures { result.now ≡ name_text self }
    {
        let option = self.before();
        &option[2..option.len() - 1]
    }

    /// The option as it stands before its value.
    fn before(self) -> &'static str
        ensures { result.now ≡ option_text self }
    {
        match self {
            Valued::Channels => "--channels ",
            Valued::From => "--from ",
            Valued::Until => "--until ",
            Valued::Length => "--length ",
            Valued::Encoding => "--encoding ",
            Valued::Expect => "--expect ",
            Valued::Port => "--port ",
            Valued::Station => "--station ",
            Valued::Network => "--network ",
            Valued::Address => "--address ",
            Valued::Timeout => "--timeout ",
            Valued::Capacity => "--capacity ",
            Valued::First => "--first ",
            Valued::Connections => "--connections ",
            Valued::Clients => "--clients ",
            Valued::Tries => "--tries ",
        }
    }
}

impl Wanted {
    /// What is wrong with the value, and what would be right.
    fn text(self) -> &'static str
        ensures { result.now ≡ wanted_text self }
    {
        match self {
            Wanted::Patterns => {
                ": no patterns; one is NET_STA_LOC_CHA, as IU_ANMO_00_BH?, with commas between several"
            }
            Wanted::Time => ": no time; a time is as 2024-05-14T03:20 or 2024-135",
            Wanted::Day => ": no such day; a time is as 2024-05-14T03:20 or 2024-135",
            Wanted::Clock => ": no such time of day; a time is as 2024-05-14T03:20 or 2024-135",
            Wanted::Later => ": not after --from; records are asked for from --from up to --until",
            Wanted::AllOfPart => ": not with --part, which is of all records",
            Wanted::Length => ": no length; it is 128, 256, 512, 1024, 2048 or 4096 bytes",
            Wanted::Encoding => ": no encoding; it is int16, int32, steim1 or steim2",
            Wanted::Parts => ": no number of parts; it is 1 to 999999999, in 1 to 9 digits",
            Wanted::Count => ": no number in its range, which the help of the command gives",
            Wanted::Station => ": no station; it is 1 to 5 letters or digits, as ANMO",
            Wanted::Network => ": no network; it is 1 or 2 letters or digits, as IU",
            Wanted::Address => ": no address; it is as 127.0.0.1",
            Wanted::Host => ": no host; it is an address, as 127.0.0.1, or a name, as localhost",
            Wanted::Seconds => ": no time to wait; it is 0 to 86400 seconds, in 1 to 5 digits",
            Wanted::Capacity => ": no capacity; it is 1 to 1000000 records, in 1 to 7 digits",
            Wanted::Hexadecimal => {
                ": no number of a record; it is 0 to FFFFFF, in 1 to 6 hexadecimal digits"
            }
            Wanted::NotLive => ": not with --live, which has --clients",
            Wanted::Live => ": only with --live; without it there is --connections",
        }
    }
}

impl PlaceFault {
    /// What is wrong with the word, and what would be right.
    fn text(self) -> &'static str
        ensures { result.now ≡ place_text self }
    {
        match self {
            PlaceFault::Plain => ": no station; it is NET_STA, as IU_ANMO",
            PlaceFault::Numbered => {
                ": no station; it is NET_STA or NET_STA:HEX, as IU_ANMO or IU_ANMO:00001F"
            }
            PlaceFault::Again => ": given twice; each station is given once",
            PlaceFault::Many => ": one too many; there are at most 16 stations",
        }
    }
}

/// What is said of a word that names no command, and which ones there are.
fn near_text(near: Option<CommandName>) -> &'static str
    ensures { result.now ≡ near_text near }
{
    macro_rules! text {
        ($near:literal) => {
            concat!(
                ": no command",
                $near,
                "; there are audit, join, show, select, repack, serve and fetch"
            )
        };
    }
    match near {
        None => text!(""),
        Some(CommandName::Audit) => text!(", but audit is one"),
        Some(CommandName::Join) => text!(", but join is one"),
        Some(CommandName::Show) => text!(", but show is one"),
        Some(CommandName::Select) => text!(", but select is one"),
        Some(CommandName::Repack) => text!(", but repack is one"),
        Some(CommandName::Serve) => text!(", but serve is one"),
        Some(CommandName::Fetch) => text!(", but fetch is one"),
    }
}

impl Mistake {
    /// The words of the line that says what is wrong, up to what was given.
    pub fn before(self) -> &'static str
        ensures text { result.now ≡ before_text self }
        ensures most { length result.now ≤ 40 }
    {
        match self {
            Mistake::Value(option, _) => option.before(),
            Mistake::Leave => "--leave",
            Mistake::EachPart => "--each",
            Mistake::EmptyFile => "an empty argument",
            Mistake::InputAgain => "-",
            Mistake::Command(_) | Mistake::Place(_, _) => "",
        }
    }

    /// The words of that line after what was given: what is wrong with it, and what would be right.
    pub fn after(self) -> &'static str
        ensures text { result.now ≡ after_text self }
        ensures most { length result.now ≤ 120 }
    {
        match self {
            Mistake::Command(near) => near_text(near),
            Mistake::Value(_, wanted) => wanted.text(),
            Mistake::Leave => ": only with --stretches",
            Mistake::EachPart => ": not with --part; of the two join takes one",
            Mistake::Place(_, fault) => fault.text(),
            Mistake::EmptyFile => ": it names no file",
            Mistake::InputAgain => ": given twice; standard input is read once",
        }
    }
}
