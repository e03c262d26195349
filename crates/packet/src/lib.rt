// The parser and the deparser of a switch: a packet's bytes taken apart into fields, present headers and payload, and put together again.
#![tactic(auto)]

mod bits;
mod choosing;
mod cursor;
pub mod deparser;
pub mod format;
pub mod laws;
mod layout;
pub mod parsed;
pub mod parser;
mod presence;
