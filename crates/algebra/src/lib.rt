// The helpers that 000 to 003 call and do not hold, by document 01, "Helpers that the text lacks". Each takes every double and refuses
// nothing.
#![tactic(auto)]

pub mod newton;
pub mod sym3;
pub mod vector;
