// Reading of bundles, optional parts, fee intents and kinds at a cursor that the caller lends (crate codec_cursor).
#![tactic(auto)]

pub mod bundle;
pub mod each;
pub mod kind;
pub mod part;
