// The run of a script over what is lent, from where it stands: record after record, until it ends.
#![tactic(auto)]

mod run;
mod step;

pub use run::run_from;
pub use step::Frame;
