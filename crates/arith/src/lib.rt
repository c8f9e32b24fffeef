// Laws of whole numbers, of lists and of loops (a function applied again and again) that more than one crate needs: see specs/ and proofs/.
// The only code is `slices`.
#![tactic(auto)]

pub mod slices;
