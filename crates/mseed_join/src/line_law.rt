//! Laws: a line is one thing at most, and has one first bad field at most.
ghost use Rattle.std.specs.Prelude.{◌≡◌, List, ℕ};
ghost use Rattle.mseed_audit.specs.declared.channel.Channel.{Channel};
ghost use Rattle.mseed_join.specs.Fields.{IsFirstBad};
ghost use Rattle.mseed_join.specs.declared.bad_field.Field.{Field};
ghost use Rattle.mseed_join.specs.Lines.{channel_line, HasChannelLine, Line, text_of_line, IsLine};

/// A line is of one channel at most.
pub fn one_channel()
    ensures { (key other : List ℕ) (c d : Channel) → HasChannelLine key c → HasChannelLine other d
        → channel_line key c ≡ channel_line other d → (key ≡ other) × (c ≡ d) }
{}

/// A line is of one kind at most, and says one thing.
pub fn one_line()
    ensures { (x y : Line) → IsLine x → IsLine y → text_of_line x ≡ text_of_line y → x ≡ y }
{}

/// One field of a line is the first bad one at most.
pub fn one_bad_field()
    ensures { (field other : Field) (line : List ℕ) → IsFirstBad field line → IsFirstBad other line → field ≡ other }
{}
