// The monitor: one script over one labelled tree, from a job's bytes to its outcome.
#![tactic(auto)]

mod entry;
mod follow;
mod start;

pub use entry::{Outcome, admit, frame_of, load, run_lines, run_places, run_words};
pub use follow::{follow_places, follow_words, storable, survey};
pub use start::{ended, rooted};
