// Kinds, coins and bundles of a submission book as text, appended to a lent buffer from place `at` on. Each function answers the place
// behind what it wrote; a part for which there is no room is left out.
// Buffer and place are two arguments, as in `codec_append`, whose law `Fits` speaks of both.
#![tactic(auto)]

pub mod bundle;
pub mod coin;
pub mod words;
