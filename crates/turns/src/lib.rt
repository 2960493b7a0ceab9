// Runs that take turns: a queue of at most eight, each in a place of its own of the buffers that are lent.
#![tactic(auto)]

pub mod pool;
mod turn;
