// Laws of rounding, each once over the number of mantissa bits or over the format; module `errors` says how near one rounded operation
// comes to the exact value. No code: see specs/ and proofs/.
#![tactic(auto)]

pub mod errors;
