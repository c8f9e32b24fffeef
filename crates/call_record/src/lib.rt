// The public calls that take a scaling record. An update makes the record anew (update); every other call is chosen by the cone's kind
// (in_place): the scaling matrix of kinds 1 and 2 (blocks) and their other formulas (three), and those of kind 3 (wide_rows, wide_primal,
// wide_kind). The calls that take a record by value lend it to these (entries); the exports are given a record's parts (parts).
#![tactic(auto)]

pub mod blocks;
pub mod entries;
pub mod in_place;
pub mod parts;
pub mod three;
pub mod update;
pub mod wide_kind;
pub mod wide_primal;
pub mod wide_rows;
