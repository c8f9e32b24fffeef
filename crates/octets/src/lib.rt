// Bytes: whole numbers in them (words), rows that are equal (equal_bytes), numbers as decimals (decimal), and lines of text (lines).
#![tactic(auto)]

pub mod decimal;
pub mod equal_bytes;
pub mod lines;
pub mod words;
