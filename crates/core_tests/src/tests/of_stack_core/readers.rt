use crate::tests::answers::holds;
use crate::tests::copies::are_told_apart;
use crate::tests::samples::sample;
use stack_core::{SourceEnd, Step};
use std::alloc::{AllocError, Global};
use std::test::Fail;

fn step(alloc: Global) -> Result<Step, AllocError> {
    Ok(Step::Sample(sample(alloc, &["a", ""], 2)?))
}

fn is_no_end(alloc: Global) -> Result<bool, AllocError> {
    are_told_apart(step(alloc), Ok(Step::End(SourceEnd::Clean { ignored: 0 })))
}

#[test]
fn steps_equal_their_copies(rt: HostRuntime) -> Result<(), Fail> {
    holds(&rt, is_no_end(rt.alloc()))
}
