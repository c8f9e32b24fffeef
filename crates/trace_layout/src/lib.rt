// The layout of a trace: its numbers, its limits and the record at the front of bytes (pieces), and room for offsets and a file (rooms).
// The laws: the bytes of a record and of a trace, and that reading undoes writing and writing undoes reading.
#![tactic(auto)]

pub mod pieces;
pub mod rooms;
