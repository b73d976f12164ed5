//! What the programs do alike: their words, their files, the code that they end with, and what they say of a session on
//! standard error.
#![tactic(auto)]

mod advice;
mod description;
mod fault;
mod files;
mod kept_sink;
mod kept_source;
mod lines;
mod message;
mod names;
mod near;
mod rows;
mod script;
mod start;
mod unread;
mod words_of_script;

pub use advice::advise;
pub use fault::tell_fault;
pub use files::{create_file, open_file};
pub use kept_sink::KeptSink;
pub use kept_source::KeptSource;
pub use start::{code_of, words};
