// What the programs share: the command line, reading and writing, what may fail, and how a program ends.
#![tactic(auto)]

pub mod command;
pub mod ending;
pub mod failure;
pub mod held;
pub mod holding;
pub mod reading;
pub mod writing;
