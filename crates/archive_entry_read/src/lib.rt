// Reading of retained submissions and queue entries at a cursor that the caller lends (crate codec_cursor).
#![tactic(auto)]

pub mod attempt;
pub mod delivery;
pub mod submission;
