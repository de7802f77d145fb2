//! The laws of what a session sends, and of what a client takes.
ghost use Rattle.std.specs.Prelude.{◌≡◌, ◌+◌, ◌^◌, ◌<◌, ◌≤◌, ◌/◌, ◌%◌, ℕ, false, IfSome, List, None, Some, length};
ghost use Rattle.std.specs.Prelude.{take};
ghost use Rattle.slink_wire.specs.declared.lines.LineOutcome.{LineOutcome};
ghost use Rattle.slink_wire.specs.declared.reply.Reply.{Reply};
ghost use Rattle.slink_feed.specs.declared.dialogue.Event.{Event};
ghost use Rattle.slink_feed.specs.declared.grant.Grant.{Grant};
ghost use Rattle.slink_feed.specs.Delivered.{AreOfPlace, AreWanted, Numbered, all_packets, joined, numbered};
ghost use Rattle.slink_feed.specs.Delivered.{record_events};
ghost use Rattle.slink_feed.specs.Dialogue.{Talk, next_at};
ghost use Rattle.slink_feed.specs.declared.grant.Mode.{Mode};
ghost use Rattle.slink_feed.specs.Grant.{grant_of};
ghost use Rattle.slink_feed.specs.Holding.{AreRising, Arrival, GoOn, numbers_of, talk_past};
ghost use Rattle.slink_feed.specs.Listening.{Listening, Reads};
ghost use Rattle.slink_feed.specs.Sending.{AreCalled, AreShown, Called, IsReadFrom, IsSlice, packets_from, packets_of};
ghost use Rattle.slink_feed.specs.Serving.{IsAnswer};
ghost use Rattle.slink_feed.specs.Session.{State, grant_at};
ghost use Rattle.slink_feed.specs.Window.{Window, oldest_of};

use crate::dialogue::Stage;
use crate::session::Phase;

/// The bytes of a link read as replies, packets and the end in one way: however they are cut into the pieces that a
/// client takes, it reports the same events, and comes to the same.
pub fn one_reading()
    ensures { (start : Talk) (stream : List ℕ) (a b : List Event) (m n : Listening)
        → Reads start stream a m → Reads start stream b n → (a ≡ b) × (m ≡ n) }
{}

/// A client that asks for the record after its last one, and lacks fewer than 2^24 of those that were pushed, is
/// granted this number exactly where its record is still in the ring or is the next one; else it is granted none, and
/// no other.
#[tactic(auto, using(crate::proofs::GrantedAfter::granted_there, crate::proofs::GrantedAfter::granted_lost))]
pub fn granted_after_the_last()
    ensures there { (mode : Mode) (w : Window) (number : ℕ)
        → length w.records ≤ 1000000 → number ≤ w.next → oldest_of w ≤ number
        → grant_of mode (Some (number % 2 ^ 24)) w ≡ Some number }
    ensures lost { (mode : Mode) (w : Window) (number : ℕ)
        → w.next < number + 2 ^ 24 → number < oldest_of w → grant_of mode (Some (number % 2 ^ 24)) w ≡ None }
{}

/// What one session sends of a station is a slice of the records that were pushed there, from its grant on: whatever is
/// pushed, sent and requested meanwhile.
pub fn a_slice_is_sent()
    ensures slice { (k first : ℕ) (pushed : List (List ℕ)) (called : List Called) (s : State) (g : Grant)
        → s.phase ≡ Phase.Streaming → grant_at s.grants k ≡ Some g
        → AreCalled s called → AreShown k first pushed called
        → IsSlice first pushed g.position (packets_of k called) }
    // Lines leave a session that streams as it is, or close it.
    ensures lines { (feed : List Window) (s new : State) (what : LineOutcome) (reply : Reply)
        → s.phase ≡ Phase.Streaming → IsAnswer feed s what new reply → IsReadFrom s new }
{}

/// A client that doesn't go past holes reports each record once and in order, over any links and whatever they bring:
/// the numbers of the records of a station go up one by one, modulo 2^24, from the one that it wants, if any, to the
/// one before the next that it wants.
pub fn each_record_once()
    ensures { (k : ℕ) (t : Talk) (arrivals : List Arrival) → t.holes ≡ false
        → GoOn (next_at t.wants k) (numbers_of k t arrivals) (next_at (talk_past t arrivals).wants k) }
{}

/// A client, also one that goes past holes, reports each record at most once and in rising order, over any links and
/// whatever they bring: the numbers of the records of a station are those of positions that go up from the one that it
/// wants, if any, each by less than half of all numbers.
pub fn no_record_twice()
    ensures { (k : ℕ) (t : Talk) (arrivals : List Arrival) → IfSome (next_at t.wants k) (λ n. n < 2 ^ 24)
        → AreRising (next_at t.wants k) (numbers_of k t arrivals) }
{}

/// Of the packets of a link that is cut off at any byte, a client that wants their records reports those that were
/// delivered whole, one after another, and no other.
#[tactic(auto, using(crate::proofs::Prefixed::prefixes_reported))]
pub fn whole_packets_are_reported()
    ensures { (records : List Numbered) (t : Talk) (delivered : ℕ)
        → t.stage ≡ Stage.Packets → AreWanted t records → delivered ≤ length (all_packets records)
        → (now : Listening) × Reads t (take delivered (all_packets records))
        (record_events (take (delivered / 520) records)) now }
{}

/// A slice of a station's records is wanted where it begins with the number that the station wants, or the station
/// wants none: so of what a session sends to such a client, on a link that is cut off at any byte, the whole packets
/// are reported.
#[tactic(auto, using(crate::proofs::SlicesWanted::slice_wanted, crate::proofs::SlicesWanted::slice_packets))]
pub fn a_slice_is_wanted()
    ensures wanted { (k number : ℕ) (records : List (List ℕ)) (t : Talk)
        → AreOfPlace t.wants k records → IfSome (next_at t.wants k) (λ want. number % 2 ^ 24 ≡ want)
        → AreWanted t (numbered k number records) }
    ensures packets { (k number : ℕ) (records : List (List ℕ))
        → all_packets (numbered k number records) ≡ joined (packets_from number records) }
{}
