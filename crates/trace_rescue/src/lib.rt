// A cut trace rescued (call), and what the program prints and writes of a file (file).
#![tactic(auto)]

pub mod call;
pub mod file;
