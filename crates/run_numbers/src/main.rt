// Runs doubles taken apart and put together, the wide product and the logarithm at chosen arguments, one module after the other. What it
// prints is compared with the file stdout.
#![tactic(auto)]

mod double_run;
mod logarithm_run;
mod wide_run;

use std::io;

fn main(rt: HostRuntime) -> io::Result<()> {
    double_run::run(&rt)?;
    wide_run::run(&rt)?;
    logarithm_run::run(&rt)
}
