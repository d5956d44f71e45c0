//! Small profiles, decoded.

use profile_messages::{
    CheckedProfile, Index, Numbers, Profile, SampleType, SampleTypes, TableFault, chosen_type,
    content_at, numbers_of, sample_types, string_at,
};
use run_options::Pick;
use stack_core::{ReadFault, ReadKind, Text};
use std::alloc::{AllocError, Global};
use std::process::Abort;
use std::test::Fail;

/// One sample of `main`, weight 7, which stands before its tables.
const SMALLEST: &[u8] = b"\x0a\x04\x08\x01\x10\x02\x12\x06\x0a\x01\x01\x12\x01\x07\
\x22\x06\x08\x01\x22\x02\x08\x01\x2a\x04\x08\x01\x10\x03\x32\x00\x32\x03cpu\x32\x02ns\x32\x04main";

fn is_type(found: &SampleType, name: &str, unit: &str) -> bool {
    found.name.get() == name && found.unit.get() == unit
}

fn are_of_the_page(found: &SampleTypes) -> bool {
    match found.types.get() {
        [found_type] => found.default == Some(0) && is_type(found_type, "cpu", "ns"),
        _ => false,
    }
}

/// The lines of README.md.
#[test]
fn example_of_the_page(rt: HostRuntime) {
    let found = sample_types(rt.alloc(), SMALLEST).expect(&rt, "the types");
    assert!(rt; are_of_the_page(&found));
}

/// The types `n`, whose unit is `ms`, and one of a name that is no text, whose unit is empty. There is one sample.
const TWO_TYPES: &[u8] = b"\x0a\x04\x08\x01\x10\x02\x0a\x02\x08\x03\x12\x02\x10\x05\
\x32\x00\x32\x01n\x32\x02ms\x32\x02;\xff";

fn are_two(found: &SampleTypes, default: usize) -> bool {
    match found.types.get() {
        [first, second] => {
            found.default == Some(default)
                && is_type(first, "n", "ms")
                && is_type(second, ";\u{fffd}", "")
        }
        _ => false,
    }
}

fn types_of_two(rt: &(impl Abort + AllocGlobal), file: &[u8], default: usize) {
    let found = sample_types(rt.alloc(), file).expect(rt, "the types");
    assert!(rt; are_two(&found, default));
}

/// A file with the first type as the default.
fn with_first_as_default(alloc: Global, file: &[u8]) -> Result<Vec<u8>, AllocError> {
    let mut file = file.to_vec(alloc)?;
    file.extend_from_slice(b"\x70\x01")?;
    Ok(file)
}

/// The two types, and with the first as the default.
fn has_either_default(rt: &(impl Abort + AllocGlobal), file: &[u8]) -> Result<(), AllocError> {
    types_of_two(rt, file, 1);
    let first = with_first_as_default(rt.alloc(), file)?;
    types_of_two(rt, first.as_slice(), 0);
    Ok(())
}

#[test]
fn two_types(rt: HostRuntime) -> Result<(), Fail> {
    has_either_default(&rt, TWO_TYPES)?;
    Ok(())
}

fn is_fault(rt: &impl Abort, refused: Option<TableFault>, kind: ReadKind, at: u64) {
    assert!(rt; refused == Some(TableFault::Read(ReadFault { kind, at })));
}

/// The file is refused for this fault.
fn types_are_refused(rt: &(impl Abort + AllocGlobal), file: &[u8], kind: ReadKind, at: u64) {
    is_fault(rt, sample_types(rt.alloc(), file).err(), kind, at);
}

fn types_are(rt: &(impl Abort + AllocGlobal), file: &[u8], count: usize, default: Option<usize>) {
    let found = sample_types(rt.alloc(), file).expect(rt, "the types");
    assert!(rt; found.types.get().len() == count && found.default == default);
}

/// The two types without their sample.
const WITHOUT_SAMPLE: &[u8] = b"\x0a\x04\x08\x01\x10\x02\x0a\x02\x08\x03\
\x32\x00\x32\x01n\x32\x02ms\x32\x02;\xff";

#[test]
fn types_without_samples(rt: HostRuntime) -> Result<(), Fail> {
    types_are_refused(&rt, b"\x0a\x04\x08\x01\x10\x02", ReadKind::BadString, 0);
    types_are(&rt, b"\x0a\x00", 1, Some(0));
    types_are(&rt, b"", 0, None);
    has_either_default(&rt, WITHOUT_SAMPLE)?;
    Ok(())
}

fn named(alloc: Global, name: &str) -> Result<Pick, AllocError> {
    Ok(Pick::Named(Text::from_str(alloc, name)?))
}

/// Whether this is the type of the value that is chosen.
fn is_chosen_type(chosen: &Result<Option<SampleType>, TableFault>, name: &str, unit: &str) -> bool {
    match chosen {
        Ok(Some(found)) => is_type(found, name, unit),
        _ => false,
    }
}

/// The type of the value that is chosen of the two.
fn is_chosen(rt: &(impl Abort + AllocGlobal), pick: &Pick, name: &str, unit: &str) {
    assert!(rt; is_chosen_type(&chosen_type(rt.alloc(), TWO_TYPES, pick), name, unit));
}

fn is_chosen_by_name(
    rt: &(impl Abort + AllocGlobal),
    name: &str,
    unit: &str,
) -> Result<(), AllocError> {
    let pick = named(rt.alloc(), name)?;
    is_chosen(rt, &pick, name, unit);
    Ok(())
}

fn none_is_chosen(rt: &(impl Abort + AllocGlobal), file: &[u8]) {
    let found = chosen_type(rt.alloc(), file, &Pick::Preferred);
    assert!(rt; matches!(found, Ok(None)));
}

#[test]
fn chosen_types(rt: HostRuntime) -> Result<(), Fail> {
    is_chosen_by_name(&rt, "n", "ms")?;
    is_chosen(&rt, &Pick::Preferred, ";\u{fffd}", "");
    none_is_chosen(&rt, b"\x0a\x00");
    Ok(())
}

/// The fault of a choice of the two.
fn fault_of_choice(alloc: Global, pick: &Pick) -> Option<TableFault> {
    chosen_type(alloc, TWO_TYPES, pick).err()
}

#[test]
fn faults_before_a_chosen_type(rt: HostRuntime) -> Result<(), Fail> {
    let pick = named(rt.alloc(), "other")?;
    let end = TWO_TYPES.len() as u64;
    is_fault(
        &rt,
        fault_of_choice(rt.alloc(), &pick),
        ReadKind::UnknownSampleType,
        end,
    );
    Ok(())
}

fn are_numbers(numbers: &Result<Numbers, ReadKind>) -> bool {
    match numbers {
        Ok(numbers) => {
            numbers.ids.as_slice() == [1].as_slice() && numbers.values.as_slice() == [7].as_slice()
        }
        Err(_) => false,
    }
}

#[test]
fn numbers_of_a_sample(rt: HostRuntime) -> Result<(), Fail> {
    let numbers = numbers_of(rt.alloc(), content_at(SMALLEST, 6))?;
    assert!(rt; are_numbers(&numbers));
    Ok(())
}

fn has_a_line(rt: &impl Abort, profile: &Profile<'_>) {
    let location = profile.locations.first().expect(rt, "a location");
    let line = profile.lines(location.lines).first().expect(rt, "a line");
    assert!(rt; line.function_id == 1);
    assert!(rt; string_at(&profile.strings, 3) == b"main".as_slice());
}

#[test]
fn lines_of_a_location(rt: HostRuntime) {
    let checked = CheckedProfile::of(rt.alloc(), SMALLEST, &Pick::Preferred);
    has_a_line(&rt, &checked.expect(&rt, "a profile").profile);
}

fn has_1_alone(index: &Index) -> bool {
    index.get(1) == Some(0) && index.get(2).is_none() && index.get(u64::MAX).is_none()
}

fn have_1_alone(checked: &Result<CheckedProfile<'_>, TableFault>) -> bool {
    match checked {
        Ok(checked) => has_1_alone(&checked.functions) && has_1_alone(&checked.locations),
        Err(_) => false,
    }
}

#[test]
fn places_of_ids(rt: HostRuntime) {
    let checked = CheckedProfile::of(rt.alloc(), SMALLEST, &Pick::Preferred);
    assert!(rt; have_1_alone(&checked));
}

/// The fault that a file ends with before its samples are read.
fn fault_of(alloc: Global, file: &[u8]) -> Option<TableFault> {
    CheckedProfile::of(alloc, file, &Pick::Preferred).err()
}

fn has_fault(rt: &(impl Abort + AllocGlobal), file: &[u8], kind: ReadKind, at: u64) {
    is_fault(rt, fault_of(rt.alloc(), file), kind, at);
}

fn has_no_fault(rt: &(impl Abort + AllocGlobal), file: &[u8]) {
    assert!(rt; fault_of(rt.alloc(), file).is_none());
}

const OF_AN_UNKNOWN_FUNCTION: &[u8] = b"\x22\x06\x08\x01\x22\x02\x08\x07";

#[test]
fn faults_of_tables(rt: HostRuntime) {
    has_no_fault(&rt, SMALLEST);
    has_fault(&rt, b"\x32\x01\x61", ReadKind::BadStringZero, 0);
    has_fault(&rt, b"\x32\x00\x70\x01", ReadKind::BadString, 2);
    has_fault(&rt, OF_AN_UNKNOWN_FUNCTION, ReadKind::UnknownFunction, 0);
}

#[test]
fn fault_of_a_message(rt: HostRuntime) {
    has_fault(&rt, b"\x32\x00\x0a\x01\x08", ReadKind::Truncated, 2);
}

fn is_text(rt: &impl Abort, found: &str, wanted: &str) {
    assert_eq!(rt; found, wanted);
}

fn is_written(
    rt: &(impl Abort + AllocGlobal),
    fault: TableFault,
    wanted: &str,
) -> Result<(), AllocError> {
    let text = fault.to_string(rt.alloc())?;
    is_text(rt, text.as_str(), wanted);
    Ok(())
}

#[test]
fn faults_are_written(rt: HostRuntime) -> Result<(), Fail> {
    let fault = TableFault::Read(ReadFault {
        kind: ReadKind::BadString,
        at: 12,
    });
    is_written(&rt, fault, "BadString at 12")?;
    is_written(&rt, TableFault::OutOfMemory, "out of memory")?;
    Ok(())
}
