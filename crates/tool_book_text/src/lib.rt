// Retained submissions, queue entries and lists of a submission book as text, appended to a lent buffer from place `at` on. Each function
// answers the place behind what it wrote; a part for which there is no room is left out.
// Buffer and place are two arguments, as in `codec_append`, whose law `Fits` speaks of both.
#![tactic(auto)]

pub mod checked;
pub mod entry;
#[cfg(test)]
mod tests;

// The variant fingerprints of a submission, recomputed.
#[derive(Clone, Copy)]
pub struct Fingerprints {
    pub base: [u8; 32],
    pub current: [u8; 32],
}
