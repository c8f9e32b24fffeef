// A trace thinned: which records are the first of their kind (firsts), the calls in both forms (call), and what the program prints and
// writes of a file (file).
#![tactic(auto)]

pub mod call;
pub mod file;
pub mod firsts;
