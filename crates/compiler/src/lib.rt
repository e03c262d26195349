// From a source to a program that is placed on the stages of the pipeline, or to its first fault.
#![tactic(auto)]

mod after;
pub mod compiled;
pub mod compiling;
mod headers;
mod limited;
mod packaging;
pub mod refusal;
