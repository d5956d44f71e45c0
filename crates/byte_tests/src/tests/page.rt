//! The example of the crate's page.
use super::asked::{file_is, input_is};
use crate::tests::holds;
use byte_io::{LoadFault, MemoryFiles, NamedFile};
use std::alloc::{AllocError, Global};
use std::test::Fail;

fn add(alloc: Global, files: &mut MemoryFiles) -> Result<(), AllocError> {
    let path = String::from_str(alloc, "x")?;
    let bytes = b"b 2\n".to_vec(alloc)?;
    files.add(NamedFile { path, bytes })
}

fn are_had(alloc: Global, files: &mut MemoryFiles) -> Result<bool, LoadFault> {
    add(alloc, files)?;
    Ok(file_is(alloc, files, "x", b"b 2\n")? && input_is(alloc, files, b"a 1\n")?)
}

#[test]
fn example_of_the_page(rt: HostRuntime) -> Result<(), Fail> {
    let input = b"a 1\n".to_vec(rt.alloc())?;
    let mut files = MemoryFiles::new(rt.alloc(), input, 4);
    holds(&rt, are_had(rt.alloc(), &mut files))
}
