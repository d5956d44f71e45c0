use crate::tests::answers::holds;
use crate::tests::copies::are_told_apart;
use stack_core::{Listed, RingRecord, Text};
use std::alloc::{AllocError, Global};
use std::test::Fail;

fn name(alloc: Global) -> Result<RingRecord, AllocError> {
    Ok(RingRecord::Name(Text::from_str(alloc, "a")?))
}

fn row(alloc: Global) -> Result<RingRecord, AllocError> {
    let frames = Listed::of(vec![in alloc; 0, 1]?);
    Ok(RingRecord::Row { frames, weight: 2 })
}

fn rows_are_no_names(alloc: Global) -> Result<bool, AllocError> {
    are_told_apart(name(alloc), row(alloc))
}

#[test]
fn copies_equal_their_sources(rt: HostRuntime) -> Result<(), Fail> {
    holds(&rt, rows_are_no_names(rt.alloc()))
}
