// The switch: whole frames in, frames out.
#![tactic(auto)]

pub mod feeding;
mod loading;
pub mod running;
mod sending;
mod serving;
pub mod state;
pub mod stepping;
pub mod switch;
mod writing;
