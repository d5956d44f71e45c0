//! Reads the folded text on standard input into a list of samples, merges them into a tree, draws the tree's flame graph and the
//! list's flame chart, and prints how large all this is. The benchmarks measure this program.
//!
//!     bench_tree [MORE]
//!
//! With MORE it makes the same tree so many times more, so that the time of an add can be told from the rest.
#![tactic(auto)]

mod drawing;
mod growing;
mod numbering;

use drawing::count_boxes;
use growing::{grow, number_of_word};
use numbering::list_text;
use std::env;
use std::io::{self, Read};

fn main(rt: HostRuntime) -> io::Result<()> {
    let alloc = rt.alloc();
    let mut words = env::args(&rt)?;
    let _program = words.next();
    let more = number_of_word(words.next());
    let mut bytes = Vec::new(alloc);
    let _count = rt.reader().read_to_end(&mut bytes)?;
    let (table, list) = list_text(alloc, bytes)?;
    let tree = grow(alloc, &list)?;
    for _ in 0..more {
        let _again = grow(alloc, &list)?;
    }
    let (nodes, weight) = (tree.len(), tree.total(&[]));
    match count_boxes(alloc, &table, &tree, list)? {
        Some((graph, chart)) => {
            println!(rt;
                "{nodes} nodes, weight {weight}, {graph} boxes in the graph, {chart} in the chart"
            )
        }
        None => println!(rt; "{nodes} nodes, weight {weight}, too heavy to draw"),
    }
}
