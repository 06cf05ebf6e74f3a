// What a link means, and two links held to their rules: wire and air.
#![tactic(auto)]

pub mod air;
pub mod link;
pub mod pass;
pub mod types;
pub mod wire;
