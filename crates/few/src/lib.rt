// Vectors of at most so many elements, which lie in the value itself and are copied with it.
#![tactic(auto)]

mod copying;
pub mod few;
mod filling;
#[cfg(test)]
mod tests;
