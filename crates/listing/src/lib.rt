// A placement as text: a line for each node, in the order of the row.
#![tactic(auto)]

pub mod laws;
pub mod names;
pub mod writing;
