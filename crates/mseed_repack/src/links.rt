//! Which records of an archive each channel has.
ghost use Rattle.std.specs.Prelude.{◌≡◌, ◌<◌, ◌≤◌, ◌+◌, ◌^◌, All, IfNone, IfSome, IfOk, List, false, length, map};
ghost use Rattle.std.specs.Map.{keys_of};
ghost use Rattle.std.specs.Ordering.{nat_cmp};
ghost use Rattle.std.specs.Cmp.Lexicographic.{slice_cmp};
ghost use Rattle.std.specs.Prelude.{slice_index_or, true};
ghost use Rattle.std.specs.Bool.{OnTrue};
ghost use Rattle.std.specs.List.Sorted.{IsStrictlySortedBy};
ghost use Rattle.mseed_record.specs.Viewing.{view_of};
ghost use Rattle.mseed_record.specs.declared.view.RecordView.{RecordView};
ghost use Rattle.mseed_audit.specs.Channels.{added_from, same_key};
ghost use Rattle.mseed_audit.specs.Verdict.{AreVerdicts};
ghost use Rattle.mseed_repack.specs.Repack.{Channel};
ghost use Rattle.mseed_repack.specs.private.Archives.{IsAudited};
ghost use Rattle.mseed_repack.specs.private.Links.{AreLinked, AreLinks, AreLinksFrom};

use crate::archive::Archive;
use mseed_audit::Verdict;
use mseed_record::{Codes, RecordView};
use std::alloc::{AllocError, Allocator};
use std::cmp::Ordering;

/// How many channels' numbers are remembered by the hash of their codes.
const GUESSES: usize = 64;

/// The index of each channel's first record, and, for each record with samples, the index of its channel's next one;
/// or, where there is none, how many records there are.
#[derive(Drop)]
pub(crate) struct ChannelLinks<A: Allocator> {
    pub(crate) firsts: Vec<usize, A>,
    pub(crate) nexts: Vec<usize, A>,
}

impl<A: Allocator> ChannelLinks<A> {
    /// Returns the archive of the records and channels whose links these are.
    pub(crate) fn archive<'r, 'a>(
        &'r self,
        views: &'r [RecordView<'a>],
        channels: &'r [(Codes, Verdict)],
    ) -> Archive<'r, 'a>
        requires few { length views.now ≤ 2 ^ 40 }
        requires verdicts { AreVerdicts (added_from 0 (map view_of views.now)) channels.now }
        requires laid { AreLinked views.now channels.now self.now.firsts.items self.now.nexts.items }
        ensures audited { IsAudited result }
        ensures views { result.views.now ≡ views.now }
        ensures channels { result.channels.now ≡ channels.now }
    {
        Archive {
            views,
            channels,
            firsts: &self.firsts,
            nexts: &self.nexts,
        }
    }
}

/// Returns the links of all channels, whose keys rise.
///
/// # Errors
///
/// `AllocError` where there is no memory for them.
pub(crate) fn link_channels<A: Allocator + Copy>(
    alloc: A,
    views: &[RecordView],
    channels: &[(Codes, Verdict)],
) -> Result<ChannelLinks<A>, AllocError>
    requires { IsStrictlySortedBy (slice_cmp nat_cmp) (keys_of channels.now) }
    ensures { IfOk result (λ links. AreLinked views.now channels.now links.firsts.items links.nexts.items) }
{
    let mut firsts = vec![in alloc; views.len(); channels.len()]?;
    let mut nexts = vec![in alloc; views.len(); views.len()]?;
    link_records(views, channels, &mut firsts, &mut nexts);
    Ok(ChannelLinks { firsts, nexts })
}

/// Notes each channel's first record, and each record's next one, in lists that have room for them and know of no first
/// record yet.
fn link_records(
    views: &[RecordView],
    channels: &[(Codes, Verdict)],
    firsts: &mut [usize],
    nexts: &mut [usize],
)
    requires ascending { IsStrictlySortedBy (slice_cmp nat_cmp) (keys_of channels.now) }
    requires firsts { length firsts.old ≡ length channels.now }
    requires none { All (λ first. first ≡ length views.now) firsts.old }
    requires nexts { length nexts.old ≡ length views.now }
    ensures { AreLinks views.now channels.now firsts.new nexts.new }
{
    let mut guesses = [0; GUESSES];
    for turn in 0..views.len() {
        let index = views.len() - 1 - turn;
        link_record(&views[index], index, channels, &mut guesses, firsts, nexts);
    }
}

/// Puts a record before those of its channel, where it has one.
fn link_record(
    view: &RecordView,
    index: usize,
    channels: &[(Codes, Verdict)],
    guesses: &mut [usize; GUESSES],
    firsts: &mut [usize],
    nexts: &mut [usize],
)
    requires ascending { IsStrictlySortedBy (slice_cmp nat_cmp) (keys_of channels.now) }
    requires firsts { length firsts.old ≡ length channels.now }
    requires inside { index < length nexts.old }
    ensures { (rs : List RecordView) → index < length rs → view.now ≡ slice_index_or rs index view.now
        → AreLinksFrom (index + 1) rs channels.now firsts.old nexts.old
        → AreLinksFrom index rs channels.now firsts.new nexts.new }
{
    if view.samples() == 0 {
        return;
    }
    if let Some(number) = find_channel(channels, view.codes(), guesses) {
        nexts[index] = firsts[number];
        firsts[number] = index;
    }
}

/// Returns the number of the channel with these codes, where there is one. It is looked for first where their hash says
/// that it was found before.
fn find_channel(
    channels: &[(Codes, Verdict)],
    codes: Codes,
    guesses: &mut [usize; GUESSES],
) -> Option<usize>
    requires { IsStrictlySortedBy (slice_cmp nat_cmp) (keys_of channels.now) }
    ensures inside { IfSome result (λ number. number < length channels.now) }
    ensures some { IfSome result (λ number.
        (c : Channel) → same_key (slice_index_or channels.now number c).0 codes ≡ true) }
    ensures none { IfNone result (All (λ c. same_key c.0 codes ≡ false) channels.now) }
{
    let hash = hash_of(&codes) % GUESSES;
    let guess = guesses[hash];
    if has_codes(channels, guess, codes) {
        return Some(guess);
    }
    match channels.binary_search_by_key(&codes, |channel| channel.0) {
        Ok(number) => {
            guesses[hash] = number;
            Some(number)
        }
        Err(_) => None,
    }
}

/// Returns a number by which codes mostly differ.
#[inline(always)]
fn hash_of(codes: &Codes) -> usize {
    let [a, b, c, d, e, f, g, h, i, j, k, l] = *codes.key();
    let front = u64::from_le_bytes([a, b, c, d, e, f, g, h]);
    let back = u32::from_le_bytes([i, j, k, l]);
    ((front ^ u64::from(back)).wrapping_mul(0x9e37_79b9_7f4a_7c15) >> 58) as usize
}

/// Returns whether there is a channel with this number, and it has these codes.
#[inline(always)]
fn has_codes(channels: &[(Codes, Verdict)], number: usize, codes: Codes) -> bool
    ensures inside { OnTrue result (number < length channels.now) }
    ensures same { OnTrue result ((c : Channel) → same_key (slice_index_or channels.now number c).0 codes ≡ true) }
{
    match channels.get(number) {
        // Codes are ordered by two words, which is faster than to compare twelve bytes.
        Some((key, _)) => match key.cmp(&codes) {
            Ordering::Equal => true,
            _ => false,
        },
        None => false,
    }
}
