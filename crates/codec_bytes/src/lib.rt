// Bytes copied to the start of a slice, and the room that a slice has at a position.
#![tactic(auto)]

pub mod put;
pub mod read;
