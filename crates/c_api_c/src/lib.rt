// The library for C: each function of c_api under its name, with its contract again. A static library exports the functions of its own
// crate alone, and no crate can stand on it, so the functions themselves are in c_api.
#![tactic(auto)]

mod attempts;
mod chain;
mod coins;
mod digest;
mod drain_call;
mod epoch;
mod looks;
mod queue;
mod retained;
mod whole;
