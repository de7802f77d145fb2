//! Laws of what an input comes to.
ghost use Rattle.std.specs.Prelude.{◌≡◌, ℕ, List, Result};
ghost use Rattle.mseed_stream.specs.Device.{BytesRead};
ghost use Rattle.mseed_feed.specs.Filling.{IsFilling, IsOneFilling, feed_of, served};
ghost use Rattle.mseed_feed.specs.Plans.{keeps_lines, lines_by_records};
ghost use Rattle.mseed_words.specs.declared.request.Serving.{Serving};
ghost use Rattle.slink_feed.specs.Window.{Window};
ghost use Rattle.slink_feed.specs.declared.input.InputFault.{InputFault};

/// What was read of an input comes to one filling of a feed, but where memory was refused.
pub fn one_filling()
    ensures { (serving : Serving) (read : BytesRead) (outcome : Result (List Window) InputFault)
        → IsFilling serving outcome read → IsOneFilling serving outcome read }
{}

/// The lines of the rings that records have filled are those of the stations of which more of the records are than a
/// ring keeps: in the order of the stations, each with the number of its records.
pub fn kept_by_records()
    ensures { (serving : Serving) (records : List (List ℕ))
        → keeps_lines serving (feed_of serving records) ≡ lines_by_records serving records (served serving) }
{}
