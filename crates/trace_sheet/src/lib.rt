// The monthly sheet: where a step is counted (counts), what one file adds (one_file), sheets in lent rows and their sum (rows), the lines
// (lines), and the whole text (text).
#![tactic(auto)]

pub mod counts;
pub mod lines;
pub mod one_file;
pub mod rows;
pub mod text;
