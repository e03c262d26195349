// The pipeline: twelve slots, packets that follow one another through them, and updates under way.
#![tactic(auto)]

mod admitting;
pub mod answer;
mod going;
pub mod loaded;
mod moving;
pub mod packet;
pub mod pipeline;
pub mod slot;
pub mod stage;
mod starting;
mod stepping;
pub mod store;
mod storing;
mod versioning;
pub mod versions;
