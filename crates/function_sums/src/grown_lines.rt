//! The line that names the functions whose share grew.

ghost use Rattle.std.specs.Prelude.{◌≡◌, ◌++◌, IfOk, OnOk, codes, map};
ghost use Rattle.std.specs.List.{join_by};
ghost use Rattle.function_sums.specs.GrownLine.{grown_line, said_of};

use itoa::Buffer;
use std::alloc::{AllocError, Global};

/// The line that says of functions that their share of own weight grew by more than so many hundredths of the
/// whole. It is empty where there is none.
pub fn grown_line(alloc: Global, points: u64, names: &[&str]) -> Result<Vec<u8>, AllocError>
    ensures { IfOk result (λ line.
        line.items ≡ grown_line points (map (λ name. name.now) names.now)) }
{
    if names.is_empty() {
        Ok(Vec::new(alloc))
    } else {
        line_of(alloc, points, names)
    }
}

// The line that names these.
fn line_of(alloc: Global, points: u64, names: &[&str]) -> Result<Vec<u8>, AllocError>
    ensures { IfOk result (λ line.
        line.items ≡ said_of points (join_by (λ name. name.now) (codes ", ") names.now)) }
{
    let joined = names.join(alloc, ", ")?;
    let mut line = Vec::new(alloc);
    append_names(&mut line, points, joined.as_str())?;
    Ok(line)
}

fn append_names(out: &mut Vec<u8>, points: u64, names: &str) -> Result<(), AllocError>
    ensures { OnOk result (out.new.items ≡ out.old.items ++ said_of points names.now) }
{
    let mut digits = Buffer::new();
    out.extend_from_slice(b"flamecollect: grew by more than ")?;
    out.extend_from_slice(digits.format(points).as_bytes())?;
    out.extend_from_slice(b" %: ")?;
    out.extend_from_slice(names.as_bytes())?;
    out.extend_from_slice(b"\n")?;
    Ok(())
}
