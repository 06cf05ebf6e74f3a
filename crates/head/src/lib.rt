// One head of the ring: the machine as definitions, its worked cases and its laws.
#![tactic(auto)]

pub mod facts;
