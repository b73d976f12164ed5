//! Field access policies over whole words, words as bits, and numbers as text.
//!
//! A field of a register has an access policy, which says what a bus write and a bus read do to its bits. The policies,
//! and what a write and a read leave under each, are those of IEEE 1800.2. This project's own are: that a write-only
//! field reads as 0, the desired value after a `set`, and the update words and the neutral words. So are the law of
//! what an update can reach, the masks of a register by what accesses do to its bits, and how numbers are written.
#![tactic(auto)]

mod effects;
pub mod law;
pub mod number;
pub mod policy;
pub mod word;

pub use effects::Effects;
pub use number::{NumberText, hex_text, read_number, spell};
pub use policy::{
    POLICIES, Policy, neutral_word, read_effect, read_value, set_value, spends, update_word,
    write_effect, write_only,
};
pub use word::{mask, put, take};
