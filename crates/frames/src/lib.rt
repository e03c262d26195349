// The byte stream of a switch: its frames, and what is answered to them while no program is loaded.
#![tactic(auto)]

pub mod answer;
pub mod front;
pub mod kind;
pub mod laws;
mod opening;
pub mod reader;
pub mod served;
pub mod server;
mod step;
