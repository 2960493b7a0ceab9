// What a job's bytes hold: its sections, the fields of variables, nodes and script records, and the check of each.
#![tactic(auto)]

pub mod nodes;
pub mod reads;
pub mod records;
pub mod rows;
pub mod scan;
pub mod sections;
pub mod variables;
