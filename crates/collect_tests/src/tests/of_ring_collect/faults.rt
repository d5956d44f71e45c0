//! What is written of a fault.

use crate::tests::holds;
use ring_collect::CollectFault;
use std::alloc::{AllocError, Global};
use std::test::Fail;

const WRITTEN: &[(CollectFault, &str)] = &[
    (CollectFault::OutOfMemory, "out of memory"),
    (CollectFault::NoThread, "no thread"),
    (
        CollectFault::Unfinished { source: 7 },
        "source 7 unfinished",
    ),
];

fn says(alloc: Global, fault: CollectFault, text: &str) -> Result<bool, AllocError> {
    let found = format!(in alloc; "{fault}")?;
    Ok(found.as_str() == text)
}

fn each_says(alloc: Global, written: &[(CollectFault, &str)]) -> Result<bool, AllocError> {
    for (fault, text) in written {
        if !says(alloc, *fault, text)? {
            return Ok(false);
        }
    }
    Ok(true)
}

#[test]
fn faults_say_what_is_wrong(rt: HostRuntime) -> Result<(), Fail> {
    holds(&rt, each_says(rt.alloc(), WRITTEN))
}
