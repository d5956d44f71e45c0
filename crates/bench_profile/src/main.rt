//! Reads the pprof profile on standard input to its end, and prints how many samples it has and what they weigh together. The
//! benchmarks measure this program.
#![tactic(auto)]

mod draining;

use draining::drain;
use profile_tables::{Naming, Pick, PprofReader};
use std::io::{self, Read};

fn main(rt: HostRuntime) -> io::Result<()> {
    let mut bytes = Vec::new(rt.alloc());
    let _count = rt.reader().read_to_end(&mut bytes)?;
    let mut reader = PprofReader::over(bytes, Pick::Preferred, Naming::Plain);
    let drained = drain(rt.alloc(), &mut reader)?;
    println!(rt; "{} samples, weight {}", drained.samples, drained.weight)
}
