// Runs searches and the cones' formulas at chosen arguments, one module after the other. What it prints is compared with the file stdout.
#![tactic(auto)]

mod cones_run;
mod search_run;

use std::io;

fn main(rt: HostRuntime) -> io::Result<()> {
    search_run::run(&rt)?;
    cones_run::run(&rt)
}
