// The laws of reading a source, each the contract of a function that returns nothing of note.
#![tactic(auto)]

pub mod laws;
