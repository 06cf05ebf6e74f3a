// What a head keeps, in fixed tables, and the steps of its calls on them.
#![tactic(auto)]

pub mod fill;
pub mod find;
pub mod fresh;
pub mod holders;
pub mod inbox;
pub mod look;
pub mod marks;
pub mod missing;
pub mod place;
pub mod put;
pub mod queue;
pub mod same;
pub mod settle;
mod shift;
pub mod types;
