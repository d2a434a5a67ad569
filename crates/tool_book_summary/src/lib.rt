// The payments of a book: which queue entry is a delivery of which submission, and all payments in totals.
#![tactic(auto)]

pub mod queue;
pub mod tally;
