// A job's bytes: the checks 1 to 8, 12 and 13 in their order, and the plan of its script; and the checks of a follow-on script.
#![tactic(auto)]

mod blocks;
mod checks;
mod follow_on;
pub mod plan;
mod preorder;
mod spare;

pub use checks::{Edition, Refusal, check, check_by, prepare};
pub use follow_on::prepare_section;
