// Document 01's S and L, the whole-number logarithm, on exact fractions; module `change` says how far L moves when its fraction does. No
// code: see specs/ and proofs/.
#![tactic(auto)]

pub mod change;
