// A standing tree and variables, written back as a job with an empty script.
#![tactic(auto)]

mod nodes;
mod put;
mod variables;
mod write;

pub use write::{write_places, write_words};
