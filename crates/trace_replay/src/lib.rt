// A trace replayed: the search of one record run again (rerun), of all of them (call), the lines (text), and what the program prints of a
// file (file).
#![tactic(auto)]

pub mod call;
pub mod file;
pub mod rerun;
pub mod text;
