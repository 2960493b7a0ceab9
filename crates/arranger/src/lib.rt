// The rearranger of stored jobs: it lists their node records the way they hang, each followed at once by its whole subtree, and changes nothing else. It keeps the rules
// of paper 01 with R-1 to R-9, whatever lands later.
#![tactic(auto)]

mod arranging;
mod copies;
mod places;
mod weights;

pub use arranging::arrange;
