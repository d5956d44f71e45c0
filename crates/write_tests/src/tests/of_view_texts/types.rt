//! The text of sample types.

use crate::tests::texts::is_text;
use byte_io::append_pieces;
use profile_messages::{SampleType, SampleTypes};
use stack_core::{Listed, Text};
use std::alloc::{AllocError, Global};
use std::test::Fail;
use view_texts::TypesText;

/// Names and units.
const TYPES: &[(&str, &str)] = &[("samples", "count"), ("cpu", "nanoseconds")];

fn sample_type(alloc: Global, name: &str, unit: &str) -> Result<SampleType, AllocError> {
    let name = Text::from_str(alloc, name)?;
    let unit = Text::from_str(alloc, unit)?;
    Ok(SampleType { name, unit })
}

fn add_types(alloc: Global, types: &mut Vec<SampleType>) -> Result<(), AllocError> {
    for (name, unit) in TYPES {
        types.push(sample_type(alloc, name, unit)?)?;
    }
    Ok(())
}

fn two_types(alloc: Global) -> Result<SampleTypes, AllocError> {
    let mut types = Vec::new(alloc);
    add_types(alloc, &mut types)?;
    Ok(SampleTypes {
        types: Listed::of(types),
        default: Some(1),
    })
}

fn append(alloc: Global, out: &mut Vec<u8>) -> Result<(), AllocError> {
    out.extend_from_slice(b"> ")?;
    let types = two_types(alloc)?;
    append_pieces(alloc, &TypesText::of(&types), out)
}

#[test]
fn text_of_two_types(rt: HostRuntime) -> Result<(), Fail> {
    let mut out = Vec::new(rt.alloc());
    let made = append(rt.alloc(), &mut out);
    is_text(
        &rt,
        made,
        &out,
        b"> samples\tcount\ncpu\tnanoseconds\tdefault\n",
    )
}
