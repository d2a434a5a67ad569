// The archive form of a bundle, an expiry and a fee intent, written into lent buffers.
#![tactic(auto)]

pub mod each;
pub mod write;
