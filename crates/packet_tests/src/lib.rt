// Frames of public formats through the parser and the deparser.
#![tactic(auto)]

#[cfg(test)]
mod frames;
#[cfg(test)]
mod protocols;
