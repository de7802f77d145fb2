//! An archive: its records, its channels, and which records each channel has.
ghost use Rattle.std.specs.Prelude.{◌≡◌, ◌<◌, length};
ghost use Rattle.mseed_repack.specs.private.Archives.{IsAudited, IsLed, IsWalkOf, records_on};

use crate::walk::Walk;
use mseed_audit::Verdict;
use mseed_record::{Codes, RecordView};

/// The records of an archive, its channels with what the audit says of each, and the links of these: the index of each
/// channel's first record, and, for each record with samples, the index of its channel's next one.
#[derive(Clone, Copy)]
pub(crate) struct Archive<'r, 'a> {
    pub(crate) views: &'r [RecordView<'a>],
    pub(crate) channels: &'r [(Codes, Verdict)],
    pub(crate) firsts: &'r [usize],
    pub(crate) nexts: &'r [usize],
}

impl<'r, 'a> Archive<'r, 'a> {
    /// Returns the records of the channel with this number, in their order.
    pub(crate) fn channel_walk(&self, number: usize) -> ChannelWalk<'r, 'a>
        requires audited { IsAudited self.now }
        requires inside { number < length self.now.channels.now }
        ensures channel_walk { IsWalkOf self.now number result }
        ensures views { result.views.now ≡ self.now.views.now }
    {
        let channels = self.channels;
        let channel = &channels[number];
        ChannelWalk {
            codes: &channel.0,
            views: self.views,
            nexts: self.nexts,
            index: self.firsts[number],
        }
    }
}

/// The records of one channel of an archive, from an index on.
#[derive(Clone, Copy)]
pub(crate) struct ChannelWalk<'r, 'a> {
    pub(crate) codes: &'r Codes,
    pub(crate) views: &'r [RecordView<'a>],
    pub(crate) nexts: &'r [usize],
    pub(crate) index: usize,
}

impl<'r, 'a> Walk<'a> for ChannelWalk<'r, 'a> {
    ghost left = { records_on };

    ghost leads = { IsLed };

    fn next(&mut self) -> Option<RecordView<'a>> {
        if self.index >= self.views.len() {
            return None;
        }
        let view = self.views[self.index];
        self.index = self.nexts[self.index];
        Some(view)
    }
}
