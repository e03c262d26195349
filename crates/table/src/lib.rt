// Tables: their entries, which of them a packet takes, and two versions of them without copies.
#![tactic(auto)]

pub mod entry;
pub mod lookup;
mod rows;
pub mod store;
pub mod tables;
