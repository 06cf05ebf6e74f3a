// The calls on one head, each as the model has it.
#![tactic(auto)]

pub mod answers;
pub mod check;
pub mod choose;
pub mod deliver;
pub mod done;
pub mod fresh;
pub mod hear;
pub mod machine;
pub mod member;
pub mod member_calls;
pub mod memory;
pub mod place;
pub mod questions;
pub mod settle;
pub mod submit;
pub mod tick;
pub mod token;
pub mod turn;
