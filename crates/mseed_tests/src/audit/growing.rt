//! Texts that grow: how much room they have, by hand.

use mseed_text::push_line;
use std::alloc::Global;
use std::process::Abort;

/// A line, how often it is added to a text, and the room of the text then: as many bytes as the first word has, at
/// least 8, doubled as often as it takes.
static ROWS: [(&str, u32, usize); 4] = [
    ("records 0 channels 0\n", 1, 32),
    (
        "0 XX_STA__BHZ D length 128 samples 16 start 2024-01-01T00:00:00.000000 rate 20/1 encoding 3 big\n",
        600,
        8 << 13,
    ),
    (
        "XX_S0000__BHZ continuous 2024-01-01T00:00:00.000000 rate 20/1 records 1 samples 16\n",
        9000,
        13 << 16,
    ),
    ("of_one_word_alone\n", 3, 18 << 2),
];

/// The room of a text to which a line is added so often.
fn room_of(rt: &impl Abort, alloc: Global, line: &str, times: u32) -> usize {
    let mut text = Vec::new(alloc);
    for _ in 0..times {
        push_line(&mut text, line.as_bytes()).expect(rt, "memory");
    }
    text.capacity()
}

#[test]
fn texts_double_from_their_first_word(rt: HostRuntime) {
    for (line, times, room) in &ROWS {
        assert!(rt; room_of(&rt, rt.alloc(), line, *times) == *room);
    }
}
