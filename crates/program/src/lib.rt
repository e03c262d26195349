// What a switch program is made of: fields, operands, tests, actions, declarations, statements and nodes, and what actions do to a packet's fields.
#![tactic(auto)]

pub mod acting;
pub mod action;
pub mod declarations;
pub mod field;
mod fields;
pub mod headers;
pub mod jumping;
pub mod node;
pub mod statement;
