// What a caller lends for a tree: node records, one to a place, and whether a tree stands in them or in the words of a table.
#![tactic(auto)]

pub mod node;
pub mod standing;

pub use node::Node;
