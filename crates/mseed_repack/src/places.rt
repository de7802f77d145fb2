//! Where records that are packed stand in what was read.
ghost use Rattle.std.specs.Prelude.{◌≡◌, ◌<◌, ◌+◌, ℕ, List, length};
ghost use Rattle.mseed_record.specs.View.{View};
ghost use Rattle.mseed_record.specs.Viewing.{view_of};
ghost use Rattle.mseed_record.specs.Selection.{asks_for};
ghost use Rattle.mseed_audit.specs.Channels.{Placed};
ghost use Rattle.mseed_audit.specs.Scope.{asked_of, placed_of};
ghost use Rattle.mseed_repack.specs.private.Places.{AreAllOf, ArePlaces, StandsAt};

use mseed_audit::Finding;
use mseed_record::{Answer, Choice, RecordView};

/// Where records that are packed stand in what was read: they are those that are asked for of the records that these
/// bytes are.
#[derive(Drop)]
pub(crate) struct Places<'p, C> {
    pub(crate) bytes: &'p [u8],
    pub(crate) choice: &'p C,
}

impl<C: Choice> Places<'_, C> {
    /// Returns what was found of a record that is packed, with its number and offset in what was read; so far the
    /// number, from 1, and the offset are those among the records that are packed.
    pub(crate) fn placed(&self, finding: Finding) -> Finding
        requires { 0 < finding.number }
        ensures placed { (vs : List View) (ps : List Placed) (index : ℕ)
            → ArePlaces (C.selection self.now.choice.now) self.now.bytes.now vs ps
            → StandsAt (placed_of vs) index finding → StandsAt ps index result }
        ensures why { result.why ≡ finding.why }
    {
        place_asked(self.bytes, self.choice, finding)
    }
}

/// Returns the same by bytes and what is asked for. It takes no memory.
#[cold]
#[inline(never)]
fn place_asked<C: Choice>(bytes: &[u8], choice: &C, finding: Finding) -> Finding
    requires { 0 < finding.number }
    ensures placed { (views : List View) (index : ℕ) → AreAllOf bytes.now views
        → index < length (asked_of (C.selection choice.now) views) → finding.number ≡ index + 1
        → StandsAt (asked_of (C.selection choice.now) views) index result }
    ensures why { result.why ≡ finding.why }
{
    let mut asked = 0;
    let mut number = 0;
    let mut offset = 0;
    while offset < bytes.len() {
        let view = match RecordView::of(&bytes[offset..]) {
            Ok(view) => view,
            Err(_) => return finding,
        };
        number += 1;
        if is_asked(&view, choice) {
            asked += 1;
            if asked == finding.number {
                return Finding {
                    number,
                    offset: offset as u64,
                    why: finding.why,
                };
            }
        }
        offset += view.bytes().len();
    }
    finding
}

/// Returns whether a record is asked for.
fn is_asked<C: Choice>(view: &RecordView, choice: &C) -> bool
    ensures { result ≡ asks_for (C.selection choice.now) (view_of view.now) }
{
    match choice.answer(view) {
        Answer::AskedFor => true,
        Answer::Left | Answer::NoTime => false,
    }
}
