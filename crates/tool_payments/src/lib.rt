// A payment of a book, for a bookkeeper: the amount that it pays out, its state and its fee; and counts and sums of many.
#![tactic(auto)]

pub mod amount;
pub mod counts;
pub mod payments;
pub mod text;

use book::SubmissionId;

// A sum of amounts: high times 10^18, and low.
#[derive(Clone, Copy)]
pub struct Sum {
    pub high: u64,
    pub low: u64,
}

#[derive(Clone, Copy)]
pub enum PaymentState {
    HasLanded,
    HasInputSpent,
    Acknowledged,
    UnderWay,
    Queued,
    RetainedOnly,
}

#[derive(Clone, Copy)]
pub enum PaymentFee {
    Open,
    NoFee,
    Applied(u64),
}

// A retained submission, or a queue entry that is to become one.
#[derive(Clone, Copy)]
pub struct Payment {
    pub id: Option<SubmissionId>,
    pub amount: Sum,
    // Whether that is all that is paid: the amount stands in either case.
    pub readable: bool,
    pub state: PaymentState,
    pub fee: PaymentFee,
}

// An array by the number of the state: a state is always there, so a map would look up what cannot be missing.
// How many payments are in each state, in the order of the states, and the amounts in all.
#[derive(Clone, Copy)]
pub struct Totals {
    pub counts: [u64; 6],
    pub amount: Sum,
    pub fees: Sum,
}
