// What one record does: each command's action on the running record and the lent slices. Who calls which, and in what order, is the monitor's.
#![tactic(auto)]

pub mod control;
pub mod evaluate;
pub mod guards;
pub mod marks;
pub mod memory;
pub mod moves;
pub mod nodes;
pub mod sets;
pub mod variables;
