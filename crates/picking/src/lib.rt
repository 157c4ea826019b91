// Which circuit's frame is next.
#![tactic(auto)]

pub mod rule;
