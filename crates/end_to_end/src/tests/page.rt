//! The example of the page of `flame_tool`.
use crate::tests::answers::{only_input, run};
use crate::tests::holds;
use flame_tool::{CountedWriter, MemoryFiles};
use std::alloc::{AllocError, Global};
use std::sync::Wait;
use std::test::Fail;
use std::thread::Threads;

/// The lines of README.md from the outputs on.
fn answers_as_on_the_page<T: Threads + Wait + Copy + Send + 'static>(
    rt: &T,
    alloc: Global,
    files: &mut MemoryFiles,
) -> Result<bool, AllocError> {
    let mut out = CountedWriter::new(Vec::new(alloc));
    let mut err = CountedWriter::new(Vec::new(alloc));
    let status = run(rt, alloc, Vec::new(alloc), files, &mut out, &mut err);
    let text = out.into_inner();
    Ok(status == 0 && text.as_slice() == b"a 1\na;b 2\n".as_slice())
}

#[test]
fn example_of_the_page_of_flame_tool(rt: HostRuntime) -> Result<(), Fail> {
    let mut files = only_input(rt.alloc(), b"a;b 2\na 1\n")?;
    holds(&rt, answers_as_on_the_page(&rt, rt.alloc(), &mut files))
}
