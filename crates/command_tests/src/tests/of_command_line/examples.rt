//! The example of the README, and the texts of faults.

use super::faults::is_shown;
use super::lines::{are_answered, first_otherwise, none_fails};
use super::wanted::{REFUSED, Shown, Wanted};
use command_line::PlanFault;
use std::alloc::{AllocError, Global};
use std::test::Fail;

const FILES: &[&str] = &["cpu.pprof", "disk.folded"];

const LINE_OF_THE_README: &[(&str, Wanted<'static>)] = &[(
    "graph --width 800 cpu.pprof disk.folded",
    Wanted::Defaults(Shown::Graph(800), FILES),
)];

#[test]
fn example_of_the_readme(rt: HostRuntime) -> Result<(), Fail> {
    are_answered(&rt, LINE_OF_THE_README)
}

const FAULTS: &[(&str, Wanted<'static>)] = &[
    ("graph --width 0", REFUSED),
    ("compare a", REFUSED),
    ("--help", Wanted::Help("")),
    ("fold -h", Wanted::Help("")),
];

fn first_fault_otherwise(alloc: Global) -> Result<Option<&'static str>, AllocError> {
    if is_shown(alloc, &PlanFault::OutOfMemory)? {
        first_otherwise(alloc, FAULTS)
    } else {
        Ok(Some("out of memory"))
    }
}

#[test]
fn texts_of_faults(rt: HostRuntime) -> Result<(), Fail> {
    none_fails(&rt, first_fault_otherwise(rt.alloc()))
}
