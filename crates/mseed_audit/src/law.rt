//! Laws: what the definitions determine, they determine once.
ghost use Rattle.std.specs.Prelude.{◌≡◌, ◌↔◌, ◌++◌, List, ℕ, ℤ, length, map, Option, None, IsTrue};
ghost use Rattle.std.specs.List.{count_by, filter, join_with_byte};
ghost use Rattle.std.specs.Map.{lookup};
ghost use Rattle.mseed_record.specs.Header.{key_at};
ghost use Rattle.mseed_record.specs.View.{View};
ghost use Rattle.mseed_time.specs.declared.outcome.LeapStep.{LeapStep};
ghost use Rattle.mseed_audit.specs.declared.channel.Channel.{Channel};
ghost use Rattle.mseed_audit.specs.declared.finding.Why.{Why};
ghost use Rattle.mseed_audit.specs.declared.finding.Finding.{Finding};
ghost use Rattle.mseed_audit.specs.declared.verdict.Verdict.{Verdict};
ghost use Rattle.mseed_audit.specs.Audit.{AreChannels, verdict_of};
ghost use Rattle.mseed_audit.specs.Channels.{Added, Placed, records_of, same_key, views_in};
ghost use Rattle.mseed_audit.specs.Each.{AuditedEach, AuditedEachIn, each_text};
ghost use Rattle.mseed_audit.specs.Scope.{HasNoWindow, Scope, asked, whole};
ghost use Rattle.mseed_audit.specs.Selected.{IsEachSelectedOutcome, IsSelectedOutcome};
ghost use Rattle.mseed_audit.specs.Printed.{MatchesPrinted, printed_codes};
ghost use Rattle.mseed_text.specs.Name.{name_text};
ghost use Rattle.mseed_record.specs.Pattern.{Matches, is_of_channels, is_pattern};
ghost use Rattle.mseed_record.specs.Selection.{Selection, everything, lacks_time};
ghost use Rattle.mseed_audit.specs.Text.{reported_lines};
ghost use Rattle.mseed_audit.specs.Reported.{Reported, AreReportedOf, finding_count, findings_in, reported_with};
ghost use Rattle.mseed_audit.specs.Follows.{IsContinuous};
ghost use Rattle.mseed_audit.specs.Judging.{IsFound};
ghost use Rattle.mseed_audit.specs.Series.{Trace, AreJoined, IsBadStep, IsSeriesOf};
ghost use Rattle.mseed_stream.specs.Device.{BytesRead, BytesWritten, IsPrefixOf};
ghost use Rattle.mseed_audit.specs.declared.summary.SelectedSummary.{SelectedSummary};
ghost use Rattle.mseed_audit.specs.declared.summary.Summary.{Summary};
ghost use Rattle.mseed_audit.specs.Summary.{Audited, AuditedIn, IsSummary, text_in, text_of};
ghost use Rattle.mseed_audit.specs.Verdict.{AreFindings, AreVerdicts, IsVerdict, says_continuous};

use mseed_steim::{one_fault, one_reading};
use mseed_stream::one_input;

/// A channel's verdict says that it is continuous exactly where it is.
#[tactic(auto, using(crate::proofs::Continuity::verdict_exact))]
pub fn continuous_exactly()
    ensures { (verdict : Verdict) (ps : List Placed) → IsVerdict verdict ps
        → (IsTrue (says_continuous verdict) ↔ IsContinuous (views_in ps)) }
{
    one_reading();
    one_fault();
}

/// A record has one finding, which may be none, and records one list of findings.
#[tactic(auto, using(crate::proofs::OneVerdict::found_one, crate::proofs::OneVerdict::findings_same))]
pub fn one_finding()
    ensures of_one { (before : Option View) (v : View) (a b : Option Why) → IsFound before v a
        → IsFound before v b → a ≡ b }
    ensures of_all { (before : Option View) (ps : List Placed) (a b : List Finding)
        → AreFindings before ps a → AreFindings before ps b → a ≡ b }
{
    one_fault();
}

/// A channel has one verdict at most.
#[tactic(auto, using(crate::proofs::OneVerdict::verdict_one))]
pub fn one_verdict()
    ensures { (v w : Verdict) (ps : List Placed) → IsVerdict v ps → IsVerdict w ps → v ≡ w }
{
    one_fault();
}

/// An archive has one list of verdicts at most.
pub fn one_list_of_verdicts()
    ensures { (added : List Added) (vs ws : List (List ℕ × Verdict)) → AreVerdicts added vs
        → AreVerdicts added ws → vs ≡ ws }
{
    one_fault();
}

/// What an audit holds of channels determines the verdicts on them.
pub fn channels_have_verdicts()
    ensures { (added : List Added) (channels : List (List ℕ × Channel)) → AreChannels added channels
        → AreVerdicts added (map (λ e. (e.0, verdict_of e.1)) channels) }
{
    continuous_exactly();
}

/// What was read has one audit: one text and one summary.
pub fn one_audit()
    ensures text { (h : BytesRead) (a b : Audited h) → text_of a ≡ text_of b }
    ensures summary { (h : BytesRead) (a b : Audited h) (s t : Summary) → IsSummary s a → IsSummary t b → s ≡ t }
{
    one_fault();
    one_input();
}

/// What was read has one audit of those of its records that are judged, by their numbers and offsets in the whole: of
/// those that are asked for one text and one answer, with a line for each record with a finding or without.
pub fn one_selected_audit()
    ensures text { (scope : Scope) (h : BytesRead) (a b : AuditedIn scope h) → text_in scope a ≡ text_in scope b }
    ensures outcome { (s : Selection) (h : BytesRead) (found other : SelectedSummary) (old new latter : BytesWritten)
        → IsSelectedOutcome s (Ok found) h old new → IsSelectedOutcome s (Ok other) h old latter
        → (found ≡ other) × (new.bytes ≡ latter.bytes) }
    ensures each { (s : Selection) (h : BytesRead) (found other : SelectedSummary) (old new latter : BytesWritten)
        → IsEachSelectedOutcome s (Ok found) h old new → IsEachSelectedOutcome s (Ok other) h old latter
        → (found ≡ other) × (new.bytes ≡ latter.bytes) }
{
    one_fault();
    one_input();
}

/// Where all records are asked for, all are judged, and none lacks a time: so the audit of the records that are asked
/// for is the audit of all.
#[tactic(auto, using(crate::proofs::Outcomes::asked_all, crate::proofs::Outcomes::none_lacks))]
pub fn all_are_asked_for()
    ensures judged { asked everything ≡ whole }
    ensures timed { (views : List View) → count_by (lacks_time everything) views ≡ 0 }
{}

/// A pattern matches a channel exactly where its four fields fit the channel's codes as an audit prints them, `--` as
/// location the empty one too; and a name is printed as these codes, with `_` between them.
pub fn matches_as_printed()
    ensures codes { (key : List ℕ) → name_text key ≡ join_with_byte 95 (printed_codes key) }
    ensures exactly { (pattern key : List ℕ) → IsTrue (is_pattern pattern)
        → (Matches pattern key ↔ MatchesPrinted pattern (printed_codes key)) }
{}

/// What is reported of an archive's records is determined, and what was read has one text that reports it.
pub fn one_report()
    ensures reported { (added : List Added) (a b : List Reported) → AreReportedOf added a → AreReportedOf added b
        → a ≡ b }
    ensures text { (h : BytesRead) (a b : AuditedEach h) → each_text a ≡ each_text b }
{
    one_fault();
    one_input();
}

/// The findings that are reported of the records of an archive are those of its channels.
pub fn findings_reported()
    // Those with a channel's key are its findings, in their order.
    ensures channel { (added : List Added) (reported : List Reported) (key : List ℕ) → AreReportedOf added reported
        → AreFindings None (records_of key added) (findings_in (reported_with key reported)) }

    // They are as many as its verdict counts.
    ensures count { (added : List Added) (reported : List Reported) (verdicts : List (List ℕ × Verdict)) (key : List ℕ)
        → AreReportedOf added reported → AreVerdicts added verdicts
        → finding_count (lookup (same_key key) verdicts) ≡ length (reported_with key reported) }

    // The lines of the first records stand before the lines of all.
    ensures prefix { (added more : List Added) (reported all : List Reported) → AreReportedOf added reported
        → AreReportedOf (added ++ more) all → IsPrefixOf (reported_lines reported) (reported_lines all) }
{
    one_fault();
}

/// A channel has one series at most.
pub fn one_series()
    ensures samples { (vs : List View) (s t : List ℤ) → AreJoined vs s → AreJoined vs t → s ≡ t }
    ensures series { (s t : Trace) (vs : List View) → IsSeriesOf s vs → IsSeriesOf t vs → s ≡ t }
{
    one_reading();
}

/// Of leap seconds one at most is the first that a series can't have.
pub fn one_bad_step()
    ensures { (size : ℕ) (steps : List (ℕ × LeapStep)) (i j : ℕ) → IsBadStep size steps i
        → IsBadStep size steps j → i ≡ j }
{}

/// Without a window, the audit of the records that are asked for says of each channel that is asked for what the audit
/// of all records says of it, and nothing else: so its line is the same to the letter, and so are the lines of its
/// findings.
pub fn selected_channels()
    ensures verdicts { (s : Selection) (h : BytesRead) (a : AuditedIn (asked s) h) (b : Audited h) → HasNoWindow s
        → a.verdicts ≡ filter (λ e. is_of_channels s.channels e.0) b.verdicts }
    ensures reported { (s : Selection) (h : BytesRead) (a : AuditedEachIn (asked s) h) (b : AuditedEach h)
        → HasNoWindow s → a.reported ≡ filter (λ t. is_of_channels s.channels (key_at t.view.bytes)) b.reported }
{
    one_fault();
    one_input();
}
