//! Calls of `mseed_select`.
ghost use Rattle.std.specs.Prelude.{◌≡◌};
ghost use Rattle.mseed_stream.specs.Device.{nothing_read};

use mseed_record::RecordView;
use mseed_select::{
    All, Answer, BadTime, BadWindow, Choice, Counts, Format, Patterns, SelectFault, Selected,
    Selector, read_time, select, write_selected,
};
use mseed_stream::{Counted, Sink, Source};
use mseed_time::Micros;
use std::alloc::{AllocError, Global};

/// Whether a text is patterns of channels, such as `XX_STA__BH?,IU_ANMO_00_*`.
pub fn are_patterns(text: &[u8]) -> bool {
    Patterns::read(text).is_ok()
}

/// The microseconds from 1970-01-01T00:00:00 to a time, such as `2024-05-14T03:20`.
pub fn micros_of(word: &[u8]) -> Result<i64, BadTime> {
    Ok(read_time(word)?.get())
}

/// What asks for the records of some channels from a time on.
pub fn from_on(patterns: Patterns<'_>, from: Micros) -> Result<Selector<'_>, BadWindow> {
    Selector::new(Some(patterns), Some(from), None)
}

/// Whether a record is asked for.
pub fn is_wanted(selector: &Selector, view: &RecordView) -> bool {
    selector.asks_for(view) == Answer::AskedFor
}

/// What is counted of one record, by a choice.
pub fn counts_of_one<C: Choice>(choice: &C, view: &RecordView) -> Counts {
    let mut counts = Counts::none();
    counts.add(choice.answer(view));
    counts
}

/// The records of a slice that are asked for, one after another.
pub fn selected_of(
    alloc: Global,
    selector: &Selector,
    bytes: &[u8],
) -> Result<Vec<u8>, SelectFault> {
    let mut source = Counted::new(bytes);
    let mut sink = Counted::new(Vec::new(alloc));
    select(alloc, selector, &mut source, &mut sink)?;
    Ok(sink.into_inner())
}

/// Writes the records of an archive that are asked for, and answers how many of the channels lack a time.
pub fn without_time<R: Source, W: Sink>(
    alloc: Global,
    selector: &Selector,
    source: &mut R,
    sink: &mut W,
) -> Result<u64, SelectFault>
    requires { R.read source.old ≡ nothing_read }
{
    let selected: Selected = select(alloc, selector, source, sink)?;
    Ok(selected.without_time)
}

/// Writes all records of a source in a format, and answers how many there were.
pub fn written_in<F: Format<Global>, R: Source, W: Sink>(
    alloc: Global,
    format: &F,
    source: &mut R,
    sink: &mut W,
) -> Result<u64, SelectFault>
    requires { R.read source.old ≡ nothing_read }
{
    let selected = write_selected(alloc, &All, format, source, sink)?;
    Ok(selected.written)
}

/// What a format writes of an archive of one record.
pub fn text_of_one<F: Format<Global>>(
    alloc: Global,
    format: &F,
    view: &RecordView,
) -> Result<Vec<u8>, AllocError> {
    let mut text = Vec::new(alloc);
    format.push_record(0, view, &mut text)?;
    let found = Selected {
        records: 1,
        written: 1,
        without_time: 0,
        end: None,
    };
    format.push_end(&found, &mut text)?;
    Ok(text)
}
