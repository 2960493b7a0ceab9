// The leaf functions of the rules: each is one definition of specs/, as code; and the paper's numbers.
#![tactic(auto)]

pub mod levels;
pub mod limits;
pub mod numbers;
