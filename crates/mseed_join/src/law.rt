//! Laws: a line is short, and has one flaw at most; what was read has one part, and parts have one list of borders.
ghost use Rattle.std.specs.Prelude.{◌≡◌, ◌≤◌, Bool, List, ℕ, length};
ghost use Rattle.mseed_stream.specs.Device.{BytesRead};
ghost use Rattle.mseed_join.specs.Lines.{IsLine, Line, text_of_line};
ghost use Rattle.mseed_join.specs.AuditPart.{AuditedPart};
ghost use Rattle.mseed_join.specs.Borders.{AreBordersOf, Border};
ghost use Rattle.mseed_join.specs.declared.flaw.Flaw.{Flaw};
ghost use Rattle.mseed_join.specs.Flaws.{IsFlaw};
ghost use Rattle.mseed_join.specs.Joined.{IsJointOf};
ghost use Rattle.mseed_join.specs.Reached.{OpenPart};
ghost use Rattle.mseed_join.specs.Written.{Written};

use crate::part_law::one_part;
use mseed_stream::one_input;

/// A line has 512 bytes at most, its LF included.
pub fn lines_are_short()
    ensures { (x : Line) → IsLine x → length (text_of_line x) ≤ 512 }
{}

/// What was read has one part, and so one text of it.
pub fn one_part_of_input()
    ensures { (h : BytesRead) (a b : AuditedPart h) → a.written ≡ b.written }
{
    one_input();
    one_part();
}

/// One thing is wrong with a line at most.
pub fn one_flaw()
    ensures { (flaw other : Flaw) (last : OpenPart) (bytes : List ℕ) (at_end : Bool) → IsFlaw flaw last bytes at_end
        → IsFlaw other last bytes at_end → flaw ≡ other }
{}

/// What is found at the borders of parts that can be joined is found once.
pub fn one_list_of_borders()
    ensures one { (past_faults : Bool) (ws : List Written) (found other : List Border)
        → AreBordersOf past_faults ws found → AreBordersOf past_faults ws other → found ≡ other }
    ensures some { (past_faults : Bool) (ws : List Written) (joint : Written) → IsJointOf past_faults ws joint
        → (found : List Border) × AreBordersOf past_faults ws found }
{}
