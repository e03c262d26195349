// Encoding updates.
#![tactic(auto)]

pub mod encoding;
mod entry;
pub mod laws;
pub mod unwritten;
