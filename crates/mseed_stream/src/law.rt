//! Laws of what was read of a source.
ghost use Rattle.std.specs.Prelude.{◌≡◌, ◌<◌, ℕ, List, Option, length};
ghost use Rattle.mseed_record.specs.View.{View};
ghost use Rattle.mseed_stream.specs.declared.fault.StreamFault.{StreamFault};
ghost use Rattle.mseed_stream.specs.Device.{BytesRead};
ghost use Rattle.mseed_stream.specs.Cutting.{IsStop};
ghost use Rattle.mseed_stream.specs.Walk.{AreViews, AreAllViews};

/// What was read has one list of records, and one end after them. So has each part of it up to an offset,
/// and what is read falls short of one stop.
pub fn one_input()
    ensures input { (h : BytesRead) (views others : List View) (end other : Option StreamFault)
        → AreAllViews h views end → AreAllViews h others other → (views ≡ others) × (end ≡ other) }
    ensures views { (bytes : List ℕ) (offset : ℕ) (views others : List View)
        → AreViews bytes offset views → AreViews bytes offset others → views ≡ others }
    ensures stop { (bytes : List ℕ) (n m : ℕ) → IsStop bytes n → IsStop bytes m → length bytes < n
        → length bytes < m → n ≡ m }
{}
