//! The law of what a client reports over its links.
ghost use Rattle.std.specs.Prelude.{◌≡◌, ◌+◌, ◌^◌, ◌<◌, ◌%◌, ◌++◌, ℕ, Bool, false, List, Some, length};
ghost use Rattle.slink_feed.specs.declared.dialogue.Event.{Event};
ghost use Rattle.slink_feed.specs.Delivered.{Numbered};
ghost use Rattle.slink_feed.specs.Dialogue.{Talk, Wants, next_at};
ghost use Rattle.slink_feed.specs.Listening.{Listening, Reads};
ghost use Rattle.slink_feed.specs.Reported.{HasReported, numbers_at, records_reported};

/// A client reports whole records of its stations, and what a station wants next moves by the records that were
/// reported of it and by nothing else: over one link, whatever this brings, and so over one link after another. Where
/// the client doesn't go past holes, it moves by their number.
#[tactic(auto, using(crate::proofs::ReportedOver::reported_far))]
pub fn wants_move_by_records()
    ensures link { (start : Talk) (stream : List ℕ) (events : List Event) (now : Listening)
        → Reads start stream events now → HasReported start.holes start.wants now.talk.wants (records_reported events) }
    ensures links { (holes : Bool) (old now new : Wants) (some more : List Numbered)
        → HasReported holes old now some → HasReported holes now new more → HasReported holes old new (some ++ more) }
    ensures moved { (old new : Wants) (records : List Numbered) (k n : ℕ)
        → HasReported false old new records → n < 2 ^ 24 → next_at old k ≡ Some n
        → next_at new k ≡ Some ((n + length (numbers_at k records)) % 2 ^ 24) }
{}
