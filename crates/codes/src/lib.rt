// The codes by which sources, updates, packets and frames are answered.
#![tactic(auto)]

pub mod answer;
pub mod code;
