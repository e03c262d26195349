// A whole run of a program, for packets that are given by their fields.
#![tactic(auto)]

pub mod event;
mod happening;
pub mod playing;
