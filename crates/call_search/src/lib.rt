// The public searches: of one cone (single), and of a plan, on one side or on both (plans).
#![tactic(auto)]

pub mod plans;
mod rows;
pub mod single;
