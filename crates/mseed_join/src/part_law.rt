//! Laws of parts.
ghost use Rattle.std.specs.Prelude.{◌≡◌, ◌∷◌, ◌++◌, List, [], ℕ, None};
ghost use Rattle.mseed_record.specs.View.{View};
ghost use Rattle.mseed_audit.specs.declared.channel.Channel.{Channel};
ghost use Rattle.mseed_audit.specs.Channels.{added_from};
ghost use Rattle.mseed_audit.specs.Reported.{Reported, AreReportedOf};
ghost use Rattle.mseed_join.specs.PartBorders.{borders_with};
ghost use Rattle.mseed_join.specs.Notices.{AreMerged, HaveBytes, Notice, border_notices, moved_notices, notices_of};
ghost use Rattle.mseed_join.specs.Parts.{Held, IsAscending, IsPartOf, IsJoint, kept_of, one_channel};
ghost use Rattle.mseed_join.specs.Parts.{channels_alone, counts_alone};

use mseed_audit::one_finding;

/// Records have one part at most.
pub fn one_part()
    ensures { (a b : Held) (views : List View) → IsPartOf a views → IsPartOf b views → a ≡ b }
{
    one_finding();
}

/// The joint part of the parts of two archives is the part of the archives one after another.
pub fn parts_add_up()
    ensures { (a b h : Held) (xs ys : List View) → IsPartOf a xs → IsPartOf b ys → IsJoint a b h
        → IsPartOf h (xs ++ ys) }
{
    one_finding();
}

/// The findings of two archives, those of the second with their numbers and offsets gone up, and the findings at the
/// borders of their parts, merged by offset, are the findings of the archives one after another.
pub fn findings_add_up()
    ensures merged { (a b : Held) (xs ys : List View) (first second whole : List Reported) → IsPartOf a xs
        → IsPartOf b ys → HaveBytes (xs ++ ys) → AreReportedOf (added_from 0 xs) first
        → AreReportedOf (added_from 0 ys) second
        → AreReportedOf (added_from 0 (xs ++ ys)) whole
        → AreMerged (notices_of first ++ moved_notices a.records a.bytes (notices_of second))
        (border_notices (borders_with a b.channels)) (notices_of whole) }

    // Two lists are merged in one way at most.
    ensures one { (ns ms a b : List Notice) → AreMerged ns ms a → AreMerged ns ms b → a ≡ b }
{
    one_finding();
}

/// Two parts have one joint part at most, the part of nothing changes none, and whichever two of three are joined
/// first, the joint part is the same.
pub fn joining_laws()
    ensures one { (a b h g : Held) → IsJoint a b h → IsJoint a b g → h ≡ g }
    ensures unit_before { (n a : Held) → IsPartOf n [] → IsAscending a.channels → IsJoint n a a }
    ensures unit_after { (n a : Held) → IsPartOf n [] → IsAscending a.channels → IsJoint a n a }
    ensures associative { (a b c ab bc left right : Held) → IsJoint a b ab → IsJoint ab c left → IsJoint b c bc
        → IsJoint a bc right → left ≡ right }
{}

/// Channels of a further part that are joined one after another, and then its counts, are the part joined.
pub fn joined_in_turn()
    ensures none { (a : Held) → IsAscending a.channels → IsJoint a (channels_alone []) a }
    ensures channel { (a now next : Held) (channels : List (List ℕ × Channel)) (key : List ℕ) (c : Channel)
        → IsJoint a (channels_alone channels) now → kept_of key channels ≡ None → IsJoint now (one_channel key c) next
        → IsJoint a (channels_alone (channels ++ (key, c) ∷ [])) next }
    ensures counts { (a b now h : Held) → IsJoint a (channels_alone b.channels) now
        → IsJoint now (counts_alone b.records b.bytes) h → IsJoint a b h }
{}
