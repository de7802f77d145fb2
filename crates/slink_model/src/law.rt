//! The laws of a feed over every schedule.
ghost use Rattle.std.specs.Prelude.{◌≡◌, ℕ, ◌∷◌, ◌++◌, ◌+◌, ◌-◌, ◌*◌, ◌/◌, ◌<◌, ◌≤◌, All, List, [], Some, length};
ghost use Rattle.std.specs.Prelude.{replicate, slice_index_or, take};
ghost use Rattle.slink_feed.specs.declared.dialogue.Stage.{Stage};
ghost use Rattle.slink_model.specs.declared.world.Setup.{Setup};
ghost use Rattle.slink_model.specs.declared.world.Step.{Step};
ghost use Rattle.slink_model.specs.Calling.{AreAnswered};
ghost use Rattle.slink_model.specs.Counted.{ArePackets, AreStreamed, CountedLink, IsCounted, counted_after};
ghost use Rattle.slink_model.specs.Counted.{counted_opening, wholes};
ghost use Rattle.slink_model.specs.Going.{GoesOn};
ghost use Rattle.slink_feed.specs.Listening.{IsLinked};
ghost use Rattle.slink_model.specs.Pushed.{appended};
ghost use Rattle.slink_model.specs.Spared.{AreAskable, IsSpared};
ghost use Rattle.slink_model.specs.Slice.{HoldsSlices, IsCarried, IsSchedule, LackFew, Resumes};
ghost use Rattle.slink_model.specs.Ties.{Accepted, Finished, Item};
ghost use Rattle.slink_model.specs.Whole.{HoldsMore, HoldsWhole, KeepsLink};
ghost use Rattle.slink_model.specs.World.{AllHappen, Happens, IsOf, LinkState, WorldState, opening};

/// After any steps of a schedule, what a client holds of each station is one slice of all records that were pushed of
/// it, in their order and each once; and the number of the record after the last one is wanted next.
///
/// Links may be cut after any byte. At no moment may 2^24 records or more be lacking of a station where one is held.
#[tactic(auto, using(crate::proofs::Worlds::slice_held))]
pub fn holds_one_slice()
    ensures slices { (setup : Setup) (steps : List Step) (now : WorldState) (run : AllHappen (opening setup) steps now)
        → IsSchedule setup steps → LackFew setup.first (opening setup) steps now run
        → HoldsSlices setup.places.items setup.first now }
{}

/// After any steps of a schedule, a client that holds something of a station, and asks for the number that it wants
/// next, is granted the record after the last one held exactly where that is still in the window or is the next one;
/// else it is refused.
#[tactic(auto, using(crate::proofs::Resumed::resume_granted))]
pub fn resumes_after_the_last()
    ensures resumes { (setup : Setup) (steps : List Step) (now : WorldState) (run : AllHappen (opening setup) steps now)
        → IsSchedule setup steps → LackFew setup.first (opening setup) steps now run → Resumes now }
{}

/// After any steps of a schedule, bytes that come to the server answer a client that awaits the grant of a station by
/// the number that it wants at that moment: where something is held of the station, the answer is the grant of the
/// record after the last one held, where that is still in the window or is the next one, and else the refusal. While a
/// client takes from its link, a station comes to have a grant by no other way.
#[tactic(auto, using(crate::proofs::Calling::answered_after))]
pub fn answers_the_number_wanted()
    ensures answered { (setup : Setup) (steps : List Step) (now : WorldState)
        (run : AllHappen (opening setup) steps now) → IsSchedule setup steps → AreAskable setup.places.items
        → LackFew setup.first (opening setup) steps now run
        → (n : ℕ) (next : WorldState) (l m : LinkState) → Happens now (Step.ToServer n) next → now.link ≡ Some l
        → next.link ≡ Some m → AreAnswered now l m }
{}

/// After any steps of a schedule, while a client takes from its link, what is on its way to it are replies and packets,
/// and the packets of a station are a slice of its records, up to the position of its grant.
#[tactic(auto, using(crate::proofs::Resumed::slice_carried))]
pub fn carries_a_slice()
    ensures carried { (setup : Setup) (steps : List Step) (now : WorldState) (run : AllHappen (opening setup) steps now)
        → IsSchedule setup steps → LackFew setup.first (opening setup) steps now run
        → (l : LinkState) → now.link ≡ Some l → IsCarried setup.places.items setup.first now l }
{}

/// After any steps of a schedule, the link of a client has ended only where all that was requested was sent or a
/// station was refused: it is informed of no gap, of no record of another station, and of no bytes that are neither a
/// reply, a packet nor the end.
#[tactic(auto, using(crate::proofs::CountedWorld::client_spared))]
pub fn spares_the_client()
    ensures spared { (setup : Setup) (steps : List Step) (now : WorldState) → AllHappen (opening setup) steps now
        → IsSchedule setup steps → AreAskable setup.places.items → IsSpared now.client.talk.stage }
{}

/// What was pushed of each station is what the steps append to it, in their order.
#[tactic(auto, using(crate::proofs::Pushed::pushes))]
pub fn pushes_what_is_appended()
    ensures pushed { (setup : Setup) (steps : List Step) (now : WorldState) → AllHappen (opening setup) steps now
        → All (IsOf setup.places.items) steps → (k : ℕ) → slice_index_or now.pushed k [] ≡ appended k steps }
{}

/// The steps of a schedule lead to one world: however the bytes that come to an end are cut into the pieces that it
/// takes, and wherever these end, it comes to the same.
#[tactic(auto, using(crate::proofs::OneWorld::one_world))]
pub fn one_world()
    ensures one { (setup : Setup) (steps : List Step) (a b : WorldState) → AllHappen (opening setup) steps a
        → AllHappen (opening setup) steps b → IsSchedule setup steps → AreAskable setup.places.items → a ≡ b }
{}

/// After any steps of a schedule, while a client takes from its link, and where something is held of a station, the
/// first packet of it that is on its way is that of the record after the last one held.
#[tactic(auto, using(crate::proofs::Going::goes_on_after))]
pub fn goes_on_after_the_last()
    ensures next { (setup : Setup) (steps : List Step) (now : WorldState) (run : AllHappen (opening setup) steps now)
        → IsSchedule setup steps → AreAskable setup.places.items → LackFew setup.first (opening setup) steps now run
        → (l : LinkState) → now.link ≡ Some l → IsLinked now.client.talk.stage → GoesOn setup.places.items now l }
{}

/// After any steps of a schedule, the world is the counted one: the lists of what was pushed and is held, the windows,
/// the numbers that are wanted, and, where there is a link, where session and client stand and what is on its way
/// between them, as whole lines, replies and packets give them with the counts of the bytes that were taken.
#[tactic(auto, using(crate::proofs::CountedWorld::the_counted_world))]
pub fn is_the_counted_world()
    ensures counted { (setup : Setup) (steps : List Step) (now : WorldState) → AllHappen (opening setup) steps now
        → IsSchedule setup steps → AreAskable setup.places.items
        → IsCounted setup (counted_after setup (counted_opening setup) steps) now }
{}

/// Of two replies to each of `places` stations, and packets after them, there are whole in a prefix of their bytes,
/// after the replies, as many packets as the prefix has whole 520 bytes after these. So it is where the end is after
/// the packets, which is whole where all bytes are there.
pub fn counts_whole_packets()
    ensures whole { (places delivered : ℕ) (packets : List Item) → ArePackets packets → 8 * places ≤ delivered
        → wholes delivered (replicate (2 * places) Accepted ++ packets)
        ≡ replicate (2 * places) Accepted ++ take ((delivered - 8 * places) / 520) packets }
    ensures ending { (places delivered : ℕ) (packets : List Item) → ArePackets packets → 8 * places ≤ delivered
        → delivered < 8 * places + 520 * length packets + 3
        → wholes delivered (replicate (2 * places) Accepted ++ (packets ++ Finished ∷ []))
        ≡ replicate (2 * places) Accepted ++ take ((delivered - 8 * places) / 520) packets }
    ensures ended { (places delivered : ℕ) (packets : List Item) → ArePackets packets
        → 8 * places + 520 * length packets + 3 ≤ delivered
        → wholes delivered (replicate (2 * places) Accepted ++ (packets ++ Finished ∷ []))
        ≡ replicate (2 * places) Accepted ++ (packets ++ Finished ∷ []) }
{}

/// After any steps of a schedule, while a client awaits packets, what its link was sent are two replies to each
/// station, which have come to it, after them packets of whole records, and after the last of these the end, once or
/// not yet.
#[tactic(auto, using(crate::proofs::CountedWorld::counted_streamed))]
pub fn streams_after_the_replies()
    ensures streams { (setup : Setup) (steps : List Step) (now : WorldState) → AllHappen (opening setup) steps now
        → IsSchedule setup steps → AreAskable setup.places.items
        → AreStreamed (length setup.places.items) (counted_after setup (counted_opening setup) steps).talk
        (counted_after setup (counted_opening setup) steps).link }
{}

/// While a client takes from a link, it holds of each station what it held when it connected, and after it the records
/// of the packets that came whole.
pub fn holds_whole_packets()
    ensures whole { (setup : Setup) (before after : List Step) (now : WorldState)
        → AllHappen (opening setup) (before ++ Step.Connect ∷ after) now
        → IsSchedule setup (before ++ Step.Connect ∷ after) → AreAskable setup.places.items → All KeepsLink after
        → (l : CountedLink)
        → (counted_after setup (counted_opening setup) (before ++ Step.Connect ∷ after)).link ≡ Some l
        → IsLinked (counted_after setup (counted_opening setup) (before ++ Step.Connect ∷ after)).talk.stage
        → HoldsMore (counted_after setup (counted_opening setup) before).held (wholes l.delivered l.sent) now.held }
    // While it awaits packets, it holds one record more for each 520 bytes that came after the replies.
    ensures counted { (setup : Setup) (before after : List Step) (now : WorldState)
        → AllHappen (opening setup) (before ++ Step.Connect ∷ after) now
        → IsSchedule setup (before ++ Step.Connect ∷ after) → AreAskable setup.places.items → All KeepsLink after
        → (l : CountedLink)
        → (counted_after setup (counted_opening setup) (before ++ Step.Connect ∷ after)).link ≡ Some l
        → (counted_after setup (counted_opening setup) (before ++ Step.Connect ∷ after)).talk.stage ≡ Stage.Packets
        → HoldsWhole (length setup.places.items) (counted_after setup (counted_opening setup) before).held now.held l }
{}
