//! Parts of audits: what an audit keeps of an archive, so that parts add up; their lines, written and read back; and
//! their texts, made of an archive, read and joined.
#![tactic(auto)]

mod auditing;
mod bad_field;
mod border;
mod borders;
mod composed;
mod fault;
mod fields;
mod flaw;
mod hex;
mod joining;
mod joining_each;
mod joint;
mod law;
mod line_law;
mod line_reader;
mod lines;
mod numbers;
mod part;
mod part_law;
mod part_sums;
mod parts;
mod reader;
mod reading;
mod reasons;
mod report;
mod text;
mod writing;

pub use auditing::{audit_part, audit_part_each};
pub use bad_field::{Field, first_bad_field};
pub use composed::{
    cut_part, joined_audit, joined_each, joined_texts, no_bad_line, one_text, part_reads_back,
    parts_can_be_joined,
};
pub use fault::JoinFault;
pub use flaw::{Closing, Flaw};
pub use joining::{Form, Joined, join};
pub use joining_each::join_each;
pub use joint::JointPart;
pub use law::{lines_are_short, one_flaw, one_list_of_borders, one_part_of_input};
pub use line_law::{one_bad_field, one_channel, one_line};
pub use lines::{read_channel_line, read_counts_line, read_fault_line, read_faults_line};
pub use part::{Part, PartFault};
pub use part_law::{findings_add_up, joined_in_turn, joining_laws, one_part, parts_add_up};
pub use part_sums::{TooLarge, sum};
pub use parts::read_parts;
pub use writing::{FIRST_LINE, push_channel_line, push_counts_line, push_faults_line};
