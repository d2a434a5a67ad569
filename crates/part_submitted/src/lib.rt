// One submission without its attempt slots: what the calls ask of it, what they make of it, and what a drain hands out for it.
#![tactic(auto)]

pub mod drained;
pub mod entry;
pub mod fingerprint;
pub mod revise;
