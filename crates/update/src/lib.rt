// Updates: new entries for tables, as bytes.
#![tactic(auto)]

mod action;
mod cursor;
pub mod decoding;
mod edits;
mod entry;
pub mod fault;
mod terms;
