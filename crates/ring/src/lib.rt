// The ring of probe heads and what holds of it.
#![tactic(auto)]

pub mod docked;
pub mod law;
pub mod put;
pub mod questions;
pub mod request;
pub mod roster;
pub mod run;
pub mod running;
pub mod types;
