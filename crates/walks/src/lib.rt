// Nothing to run: laws for walks by hand, which say nothing of any crate.
#![tactic(auto)]
