//! Reads the folded text on standard input as each of some sources, and hands their samples to one sink: through rings of a size, or,
//! where the size is 0, on one thread. It prints how many samples came. The benchmarks measure this program.
//!
//!     bench_rings SOURCES RING
#![tactic(auto)]

mod shared_stacks;
mod sources;

use ring_collect::{RingSize, collect};
use shared_stacks::SharedStacks;
use sources::{drain_all, number_of, readers_of};
use stack_core::OpenGate;
use std::env;
use std::io::{self, Read};
use std::sync::Arc;

fn main(rt: HostRuntime) -> io::Result<()> {
    let alloc = rt.alloc();
    let mut words = env::args(&rt)?;
    let _program = words.next();
    let sources = number_of(words.next());
    let ring = number_of(words.next());
    let mut bytes = Vec::new(alloc);
    let _count = rt.reader().read_to_end(&mut bytes)?;
    let readers = readers_of(alloc, &bytes, sources)?;
    let mut sink = SharedStacks::new(alloc);
    match RingSize::of(ring) {
        Some(ring) => {
            let gate = Arc::new(alloc, OpenGate)?;
            if let Err(fault) = collect(&rt, alloc, readers, ring, gate, &mut sink) {
                return println!(rt; "no answer: {fault:?}");
            }
        }
        None => drain_all(alloc, readers, &mut sink)?,
    }
    println!(rt; "{} samples", sink.len())
}
