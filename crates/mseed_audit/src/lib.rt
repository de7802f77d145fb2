//! The audit of an archive: which channels are continuous, and where the others break.
#![tactic(auto)]

mod assembly;
mod audits;
mod channel;
mod channel_list;
mod channel_series;
mod each;
mod finding;
mod law;
mod passed;
mod report;
mod roster;
mod summary;
mod tail;
mod text;
mod verdict;

pub use assembly::{NotContinuous, is_of_channel, series};
pub use audits::{Audit, ByChannel, Channels, Memory, Verdicts};
pub use channel::{Channel, Findings, Head};
pub use channel_list::ChannelList;
pub use channel_series::{BadStep, Series};
pub use each::{EachFault, audit_each, audit_each_selected, gather_each};
pub use finding::{Finding, Why};
pub use law::{
    all_are_asked_for, channels_have_verdicts, continuous_exactly, findings_reported,
    matches_as_printed, one_audit, one_bad_step, one_finding, one_list_of_verdicts, one_report,
    one_selected_audit, one_series, one_verdict, selected_channels,
};
pub use summary::{AuditFault, Gathered, SelectedSummary, Summary, audit, audit_selected, gather};
pub use tail::Tail;
pub use text::{push_total_line, push_verdict_line, put_why};
pub use verdict::Verdict;
