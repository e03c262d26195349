// The tokens of a source: words, numbers, signs, other bytes and the end, each with its offset.
#![tactic(auto)]

mod lead;
pub mod scanner;
pub mod scanning;
pub mod token;
