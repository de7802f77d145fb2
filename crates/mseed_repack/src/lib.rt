//! An archive packed anew: the series of its channels, in records of one length and encoding. And the stretches of a
//! channel, by which one with gaps is packed: runs of records, in each of which one clock goes on, with a sample's
//! instant never further than a quarter of its period from where its record has it.
#![tactic(auto)]

mod anew;
mod archive;
mod asked;
mod broken;
mod channel;
mod channel_fault;
mod clock;
mod cutting;
mod fault;
mod input;
mod judging;
mod law;
mod links;
mod misfit;
mod outline;
mod own;
mod packability;
mod packing;
mod places;
mod plan;
mod planned;
mod reading;
mod refusing;
mod repacking;
mod restretching;
mod room;
mod series;
mod sound;
mod stretch;
mod stretch_law;
mod stretching;
mod unpacking;
mod walk;

pub use asked::report_without_time;
pub use channel::repack_channel;
pub use channel_fault::ChannelFault;
pub use cutting::first_stretch;
pub use fault::RepackFault;
pub use law::{
    all_are_packed, borders_are_kept, named_numbers_are_held, one_channel_packing, one_repacking,
    repacked_reads_back, stretches_read_back,
};
pub use misfit::{misfit_number, put_misfit_more};
pub use refusing::{LeftOut, report_broken, report_misfit};
pub use repacking::{repack, repack_selected};
pub use restretching::{repack_selected_stretches, repack_stretches};
pub use sound::is_sound;
pub use stretch::Stretch;
pub use stretch_law::{instants_stay_near, one_list_of_stretches, stretches_are_continuous};
