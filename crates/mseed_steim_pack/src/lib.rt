//! Differences packed into the words of Steim frames, each as full as a word can be (SEED Reference Manual 2.4,
//! appendix B).
#![tactic(auto)]

mod ahead;
mod four;
mod law;
mod layout;
mod pack;
mod pending;
mod row;

pub use ahead::Lookahead;
pub use law::{lookahead_stays, one_fewest, one_packing, packed_spells};
pub use pack::{
    Packed, TooLarge, TooLargeAt, least_words, pack_samples_ahead, pack_word, pack_words,
    pack_words_ahead, write_word,
};
