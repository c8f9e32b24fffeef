// Laws only: what a yes and a no of each cone's test say of the exact point. The exponential cone stands at the root, the power cone in
// `power`, the generalized power cone in `wide_kind`. No code.
#![tactic(auto)]

pub mod power;
pub mod wide_kind;
