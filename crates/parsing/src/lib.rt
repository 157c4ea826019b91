// A packet that passed, taken apart.
#![tactic(auto)]

pub mod headers;
pub mod packets;
