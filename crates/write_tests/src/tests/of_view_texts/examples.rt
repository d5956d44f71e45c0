//! Bytes that are cut back.

use std::alloc::AllocError;
use std::process::Abort;
use std::test::Fail;
use view_texts::truncate_on_error;

fn is_cut_back(out: &mut Vec<u8>) -> bool {
    truncate_on_error(out, 2, Ok(())).is_ok()
        && out.as_slice() == b"lines".as_slice()
        && truncate_on_error(out, 2, Err(AllocError)).is_err()
        && out.as_slice() == b"li".as_slice()
}

#[test]
fn bytes_are_cut_back_on_an_error_alone(rt: HostRuntime) -> Result<(), Fail> {
    let mut out = Vec::from_slice(rt.alloc(), b"lines")?;
    assert!(rt; is_cut_back(&mut out));
    Ok(())
}
