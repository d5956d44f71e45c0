//! The sample types of worked sources.

mod parts;
mod stored;
mod sums;

use super::holds;
use profile_messages::SampleType;
use run_options::{Filter, Format, Naming, Options, Pick, RingSize};
use source_lists::{Input, RunFault, Source, chosen_types};
use stack_core::Text;
use std::alloc::{AllocError, Global};
use std::test::Fail;
use stored::input_by;

/// The types `n`, whose unit is `ms`, and `t`, whose unit is `s`. There is one sample.
const TWO_TYPES: &[u8] = b"\x0a\x04\x08\x01\x10\x02\x0a\x04\x08\x03\x10\x04\x12\x02\x10\x05\
\x32\x00\x32\x01n\x32\x02ms\x32\x01t\x32\x01s";

/// The same with `n` as the default type.
const WITH_DEFAULT: &[u8] = b"\x0a\x04\x08\x01\x10\x02\x0a\x04\x08\x03\x10\x04\x12\x02\x10\x05\
\x32\x00\x32\x01n\x32\x02ms\x32\x01t\x32\x01s\x70\x01";

/// A type and a sample of a stack without frames, which weighs 5.
const ONE_SAMPLE: &[u8] = b"\x0a\x04\x08\x01\x10\x02\x12\x02\x10\x05\x32\x00\x32\x01n\x32\x02ms";

/// A type and no sample.
const NO_SAMPLE: &[u8] = b"\x0a\x00";

/// The first string is not empty.
const WITH_FAULT: &[u8] = b"\x32\x01a";

fn input_of(alloc: Global, format: Format, bytes: &[u8]) -> Result<Input, AllocError> {
    let bytes = bytes.to_vec(alloc)?;
    Input::of(Source { format, bytes })
}

const WORKED: &[(Format, &[u8])] = &[
    (Format::Folded, b"a;b 2\n"),
    (Format::Pprof, TWO_TYPES),
    (Format::Pprof, WITH_DEFAULT),
    (Format::Pprof, NO_SAMPLE),
    (Format::Pprof, WITH_FAULT),
];

fn worked_inputs(alloc: Global, are_stored: bool) -> Result<Vec<Input>, AllocError> {
    let mut inputs = Vec::new(alloc);
    for (format, bytes) in WORKED {
        inputs.push(input_by(alloc, are_stored, *format, bytes)?)?;
    }
    Ok(inputs)
}

fn options_with(alloc: Global, pick: Pick) -> Options {
    Options {
        ring: RingSize::of(1).unwrap(),
        pick,
        naming: Naming::Plain,
        filter: Filter::everything(alloc),
        every: None,
    }
}

fn is_type(found: &SampleType, name: &str, unit: &str) -> bool {
    found.name.get() == name && found.unit.get() == unit
}

/// The types have these names and units.
fn are_types(types: &[SampleType], expected: &[(&str, &str)]) -> bool {
    if types.len() != expected.len() {
        return false;
    }
    for k in 0..types.len() {
        let (name, unit) = expected[k];
        if !is_type(&types[k], name, unit) {
            return false;
        }
    }
    true
}

/// The options choose types of these names and units of the sources.
fn types_are_chosen(
    alloc: Global,
    options: &Options,
    inputs: &[Input],
    expected: &[(&str, &str)],
) -> Result<bool, RunFault> {
    let types = chosen_types(alloc, inputs, options)?;
    Ok(are_types(&types, expected))
}

/// By this pick, the types of the worked sources have these names and units, loaded and stored.
fn types_are_picked(
    alloc: Global,
    pick: Pick,
    expected: &[(&str, &str)],
) -> Result<bool, RunFault> {
    let options = options_with(alloc, pick);
    Ok(
        types_are_chosen(alloc, &options, &worked_inputs(alloc, false)?, expected)?
            && types_are_chosen(alloc, &options, &worked_inputs(alloc, true)?, expected)?,
    )
}

fn types_are_picked_by_name(
    alloc: Global,
    name: &str,
    expected: &[(&str, &str)],
) -> Result<bool, RunFault> {
    let name = Text::from_str(alloc, name)?;
    types_are_picked(alloc, Pick::Named(name), expected)
}

const PREFERRED: &[(&str, &str)] = &[("", ""), ("t", "s"), ("n", "ms"), ("", ""), ("", "")];

#[test]
fn types_of_worked_sources(rt: HostRuntime) -> Result<(), Fail> {
    holds(
        &rt,
        types_are_picked(rt.alloc(), Pick::Preferred, PREFERRED),
    )
}

const NAMED_N: &[(&str, &str)] = &[("", ""), ("n", "ms"), ("n", "ms"), ("", ""), ("", "")];

#[test]
fn types_picked_by_name(rt: HostRuntime) -> Result<(), Fail> {
    holds(&rt, types_are_picked_by_name(rt.alloc(), "n", NAMED_N))
}

const NONE: &[(&str, &str)] = &[("", ""); 5];

#[test]
fn no_type_of_an_unknown_name(rt: HostRuntime) -> Result<(), Fail> {
    holds(&rt, types_are_picked_by_name(rt.alloc(), "other", NONE))
}
