//! Laws: what parts say of the archives one after another.
ghost use Rattle.std.specs.Prelude.{◌≡◌, ◌<◌, ◌^◌, ◌++◌, Bool, List, ℕ, Option, Some, false, length, take, true};
ghost use Rattle.std.specs.Io.KnownBytes.{IsAtEnd};
ghost use Rattle.mseed_stream.specs.Cutting.{GivesMore};
ghost use Rattle.mseed_stream.specs.Device.{BytesRead, nothing_read};
ghost use Rattle.mseed_audit.specs.Each.{AuditedEach};
ghost use Rattle.mseed_audit.specs.Summary.{Audited};
ghost use Rattle.mseed_text.specs.Fault.{end_line};
ghost use Rattle.mseed_audit.specs.Text.{reported_lines};
ghost use Rattle.mseed_audit.specs.Reported.{Reported};
ghost use Rattle.mseed_join.specs.Notices.{Notice, border_notices, notices_of};
ghost use Rattle.mseed_join.specs.AuditPart.{AuditedPart};
ghost use Rattle.mseed_join.specs.Borders.{AreBordersOf, Border, border_lines, notice_lines};
ghost use Rattle.mseed_join.specs.Headline.{AreParted, EndsByBytes, IsReadOf, IsWithinLimits, SaysAudit, without_end};
ghost use Rattle.mseed_join.specs.HeadlineEach.{AreReportedApart, SaysEach};
ghost use Rattle.mseed_join.specs.Joined.{IsBadLine, IsJointOf};
ghost use Rattle.mseed_join.specs.Written.{HasText, Spells, Written, part_text, texts};

use crate::part_law::{findings_add_up, one_part, parts_add_up};
use mseed_audit::{channels_have_verdicts, one_list_of_verdicts, one_report};

/// The joint part of archives, of which each but the last ends without a fault, says what the audit of the archives
/// one after another says.
pub fn joined_audit()
    ensures says { (archive : List ℕ) (ws : List Written) (joint : Written) (h : BytesRead) (a : Audited h)
        → AreParted archive ws → IsJointOf false ws joint → IsReadOf archive h → EndsByBytes a.end
        → SaysAudit joint a }

    // It is their part, as `audit_part` writes it.
    ensures part { (archive : List ℕ) (ws : List Written) (joint : Written) (h : BytesRead) (a : AuditedPart h)
        → AreParted archive ws → IsJointOf false ws joint → IsReadOf archive h → EndsByBytes a.written.end
        → joint ≡ a.written }

    // What a source gave that is known to have left an archive, and nothing once it is at its end, was read of it.
    ensures read { (archive : List ℕ) (h : BytesRead) (left : Option (List ℕ))
        → GivesMore nothing_read h (Some archive) left → (h.is_at_end ≡ true → IsAtEnd left) → IsReadOf archive h }

    // What was read to its end ends by its bytes alone.
    ensures at_end { (h : BytesRead) (a : Audited h) → h.is_at_end ≡ true → EndsByBytes a.end }
{
    parts_add_up();
    channels_have_verdicts();
    one_list_of_verdicts();
    one_part();
}

/// The headline with a line for each finding: the lines of archives, of which each but the last ends without a fault,
/// with their numbers and offsets gone up, and the lines of the borders of their parts, merged by offset, and then the
/// text of the joint part, are what the audit of the archives one after another writes that reports each record with a
/// finding.
pub fn joined_each()
    ensures says { (archive : List ℕ) (ws : List Written) (reported : List Notice) (found : List Border)
        (joint : Written) (h : BytesRead) (a : AuditedEach h) → AreReportedApart archive ws reported
        → IsJointOf false ws joint
        → AreBordersOf false ws found → IsReadOf archive h → EndsByBytes a.audited.end
        → SaysEach reported found joint a }

    // They are the archives and parts of the headline.
    ensures parted { (archive : List ℕ) (ws : List Written) (reported : List Notice)
        → AreReportedApart archive ws reported → AreParted archive ws }

    // What is reported of records, and of borders, has the lines with which it is written.
    ensures records { (reported : List Reported) → notice_lines (notices_of reported) ≡ reported_lines reported }
    ensures borders { (found : List Border) → notice_lines (border_notices found) ≡ border_lines found }
{
    parts_add_up();
    findings_add_up();
    one_report();
    channels_have_verdicts();
    one_list_of_verdicts();
}

/// A part without its last line, if that is a fault, is the part of the archive's first bytes, as many as it counts.
pub fn cut_part()
    ensures part { (archive : List ℕ) (h g : BytesRead) (a : AuditedPart h) (b : AuditedPart g)
        → IsReadOf archive h → IsReadOf (take a.written.part.bytes archive) g → EndsByBytes b.written.end
        → b.written ≡ without_end a.written }
    ensures text { (w : Written) → part_text w ≡ part_text (without_end w) ++ end_line w.end }
{
    one_part();
}

/// What `audit_part` writes is a text that can be read.
pub fn part_reads_back()
    ensures { (h : BytesRead) (a : AuditedPart h) → IsWithinLimits h.bytes → HasText a.written }
{}

/// Texts of parts are read in one way.
pub fn one_text()
    ensures { (bytes : List ℕ) (ws vs : List Written) → Spells bytes ws → Spells bytes vs → ws ≡ vs }
{}

/// No line of the texts of parts that can be joined is bad, however much of them was read.
pub fn no_bad_line()
    ensures { (past_faults : Bool) (text : List ℕ) (input : BytesRead) (line offset : ℕ) (ws : List Written)
        (joint : Written) → Spells text ws → IsJointOf past_faults ws joint → IsReadOf text input
        → IsBadLine past_faults input.bytes input.is_at_end line offset → ⊥ }
{}

/// Parts of archives can be joined where the archives one after another can be audited: no number passes 2^63 - 1.
pub fn parts_can_be_joined()
    ensures { (archive : List ℕ) (ws : List Written) (h : BytesRead) (a : Audited h) → AreParted archive ws
        → length archive < 2 ^ 63 → IsReadOf archive h → EndsByBytes a.end
        → (joint : Written) × IsJointOf false ws joint }
{
    parts_add_up();
}

/// The headline over texts: where the texts of the parts of archives stand one after another and the archives one
/// after another can be audited, no line of what is read of the texts is bad; and once they were read to their end,
/// what is joined says what that audit says.
pub fn joined_texts()
    ensures spells { (archive : List ℕ) (ws : List Written) → AreParted archive ws → IsWithinLimits archive
        → Spells (texts ws) ws }
    ensures never_bad { (archive : List ℕ) (ws : List Written) (input h : BytesRead) (a : Audited h)
        (line offset : ℕ) → AreParted archive ws → IsWithinLimits archive → IsReadOf archive h → EndsByBytes a.end
        → IsReadOf (texts ws) input → IsBadLine false input.bytes input.is_at_end line offset → ⊥ }
    ensures says { (archive : List ℕ) (ws vs : List Written) (joint : Written) (input h : BytesRead) (a : Audited h)
        → AreParted archive ws → IsWithinLimits archive → IsReadOf archive h → EndsByBytes a.end
        → IsReadOf (texts ws) input → input.is_at_end ≡ true → Spells input.bytes vs → IsJointOf false vs joint
        → SaysAudit joint a }

    // They are the parts of these archives, and so as many.
    ensures parts { (archive : List ℕ) (ws vs : List Written) (input : BytesRead) → AreParted archive ws
        → IsWithinLimits archive → IsReadOf (texts ws) input → input.is_at_end ≡ true → Spells input.bytes vs
        → vs ≡ ws }
{
    part_reads_back();
    one_text();
    joined_audit();
    no_bad_line();
    parts_can_be_joined();
}
