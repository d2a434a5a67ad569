// Answers of calls as bytes, in the form of docs/DRIVER.md. Each function writes one part from place `at` on and answers the place
// behind it; it leaves out a part for which there is no room.
#![tactic(auto)]

pub mod drained;
pub mod part;
pub mod value;
