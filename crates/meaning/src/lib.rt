// What a program means for a packet: its statements done from top to bottom. No nodes, no stages, no slots.
#![tactic(auto)]

pub mod evaluating;
