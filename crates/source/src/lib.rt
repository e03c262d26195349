// Reading the source text of a switch.
#![tactic(auto)]

pub mod answering;
pub mod block;
mod bodies;
mod declaring;
pub mod fault;
pub mod laws;
mod looks;
pub mod lookup;
pub mod name;
mod naming;
pub mod phase;
pub mod reading;
mod routing;
pub mod seen;
mod tabling;
mod using;
