// Eight places: which have an unended run, and what is kept in a place's parts of the slices that are lent.
#![tactic(auto)]

pub mod parts;
pub mod queue;
