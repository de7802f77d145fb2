//! Laws of what links are sent.
ghost use Rattle.std.specs.Prelude.{◌≡◌, ◌≢◌, ◌+◌, ◌∷◌, ◌++◌, ℕ, List, Option, Some, length, slice_get};
ghost use Rattle.slink_wire.specs.Place.{Fields};
ghost use Rattle.slink_feed.specs.Window.{Shows, Window};
ghost use Rattle.slink_feed.specs.declared.session.Phase.{Phase};
ghost use Rattle.slink_feed.specs.Serving.{SessionState};
ghost use Rattle.slink_feed.specs.Session.{State, sent};
ghost use Rattle.slink_feed.specs.Intake.{places_of};
ghost use Rattle.slink_live.specs.Awake.{AreSame, IsLost};
ghost use Rattle.slink_live.specs.Fairness.{HasDue, HasNext, IsAmong, TakesTurns, TakesTurnsOn};
ghost use Rattle.slink_live.specs.Happening.{Happening, input_of, those_of};
ghost use Rattle.slink_live.specs.Input.{IsFed, IsInput, fed};
ghost use Rattle.slink_live.specs.History.{Asks, IsServed, IsTurn, History};
ghost use Rattle.slink_live.specs.Slices.{ProducesSlices, records_at};

/// Of a link only what happened in its slot matters, and the input.
pub fn no_other_link_matters()
    ensures { (start : List Window) (k : ℕ) (log : List Happening) (past : Option History)
        → IsServed start k log past → IsServed start k (those_of k log) past }
{}

/// A slot has a history at each moment: what happened up to there comes to one, by which the link that stood there
/// accepted a prefix of what its session had sent.
pub fn each_moment_has_a_history()
    ensures { (start : List Window) (k : ℕ) (before after : List Happening) (past : Option History)
        → IsServed start k (before ++ after) past
        → (earlier : Option History) × IsServed start k before earlier }
{}

/// An input has one list of records, in whatever pieces it came, and so its rings come to one thing. More of it appends
/// records to those that there are, and leaves them.
pub fn input_in_order()
    ensures one { (places : List Fields) (bytes : List ℕ) (records others : List (List ℕ)) (rest left : List ℕ)
        → IsInput places bytes records rest → IsInput places bytes others left
        → (records ≡ others) × (rest ≡ left) }
    ensures grows { (places : List Fields) (bytes more : List ℕ) (records others : List (List ℕ)) (rest left : List ℕ)
        → IsInput places bytes records rest → IsInput places (bytes ++ more) others left
        → (added : List (List ℕ)) × (others ≡ records ++ added) }
    ensures rings { (start : List Window) (bytes : List ℕ) (feed other : List Window)
        → IsFed start bytes feed → IsFed start bytes other → feed ≡ other }
    // Each ring shows the last of its station's records.
    ensures shows { (start : List Window) (records : List (List ℕ)) (k first : ℕ) (w : Window)
        (pushed : List (List ℕ)) → slice_get start k ≡ Some w → Shows w first pushed
        → (v : Window) × (slice_get (fed start records) k ≡ Some v)
        × Shows v first (pushed ++ records_at k (places_of start) records) }
{}

/// What a link's session says, to the link's own lines and over the records of the input so far, is as slink_feed has
/// it of one link alone: replies, and then packets, of which those of each station are a slice of its records from the
/// grant on. Whatever the other links say and take, and in whatever order.
pub fn a_link_is_sent_slices()
    ensures { (start : List Window) (k : ℕ) (log : List Happening) (past : History) (records : List (List ℕ))
        (rest : List ℕ) → IsServed start k log (Some past) → IsInput (places_of start) (input_of log) records rest
        → ProducesSlices start records past.produced }
{}

/// A link's session is called in turns. Between two calls for a station, while nothing comes, each other station that
/// has a record due when the second is made was called. And whatever comes to the rings between them, and whatever the
/// link says, each other station whose next record had come at the first was called: a busy station starves no other.
pub fn in_turns()
    ensures turns { (feed : List Window) (s last : SessionState) (ring turn : ℕ) (way all : List ℕ)
        → Asks feed s ring way last turn all → (ks : List ℕ) × TakesTurns feed s.state ring ks last.state turn }
    ensures between { (feed : List Window) (s t : State) (ring turn k j : ℕ) (mid : List ℕ)
        → TakesTurns feed s ring (k ∷ mid) t turn → IsTurn feed t turn k → j ≢ k → HasDue feed t j
        → IsAmong j mid }
    // Turns while nothing comes are such turns, and so are those that follow one another.
    ensures still { (feed : List Window) (s t : State) (ring turn : ℕ) (ks : List ℕ) → TakesTurns feed s ring ks t turn
        → TakesTurnsOn feed s ring ks feed t turn }
    ensures joined { (old now last : List Window) (s t u : State) (ring turn next : ℕ) (ks more : List ℕ)
        → TakesTurnsOn old s ring ks now t turn → TakesTurnsOn now t turn more last u next
        → TakesTurnsOn old s ring (ks ++ more) last u next }
    ensures called { (feed last : List Window) (s t : State) (k j turn : ℕ) (mid : List ℕ) → HasNext feed s j → j ≢ k
        → TakesTurnsOn feed s (k + 1) mid last t turn → t.phase ≡ Phase.Streaming → IsTurn last t turn k
        → IsAmong j mid }
{}

/// What is due to a link is by the rings of the stations that it was granted: records of other stations change nothing
/// of it, nor of whether the next record of one of its stations left its ring.
pub fn other_places_change_nothing()
    ensures due { (old new : List Window) (s : State) (k : ℕ) → length new ≡ length old → AreSame s.grants old new
        → sent new s k ≡ sent old s k }
    ensures lost { (old new : List Window) (s : State) → AreSame s.grants old new → IsLost new s → IsLost old s }
{}
