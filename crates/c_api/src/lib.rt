// The submission book for programs in other languages. The book lives in bytes that the caller lends: 8 bytes of its archive's length,
// big-endian, then the archive. Every function answers 0, or the number of its refusal; a refused call leaves every lent byte.
// c_api_c exports the functions for C.
#![tactic(auto)]

pub mod attempts;
pub mod chain;
pub mod coins;
pub mod digest;
pub mod drain_call;
pub mod epoch;
pub mod looks;
pub mod queue;
pub mod retained;
pub mod whole;
