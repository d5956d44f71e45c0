use crate::tests::answers::{all, holds};
use crate::tests::copies::are_told_apart;
use crate::tests::samples::sample;
use sample_tables::{Listed, Names, Text};
use std::alloc::{AllocError, Global};
use std::test::Fail;

fn samples_are_told_apart(alloc: Global) -> Result<bool, AllocError> {
    all(&[
        are_told_apart(sample(alloc, &["a", ""], 2), sample(alloc, &["a", ""], 1)),
        are_told_apart(sample(alloc, &["a", ""], 2), sample(alloc, &["a"], 2)),
    ])
}

#[test]
fn copies_equal_their_sources(rt: HostRuntime) -> Result<(), Fail> {
    holds(&rt, samples_are_told_apart(rt.alloc()))
}

fn text(alloc: Global) -> Result<Text, AllocError> {
    Ok(Text::of(String::from_str(alloc, "ab")?))
}

fn is_plain(text: Result<Text, AllocError>) -> Result<bool, AllocError> {
    let text = text?;
    let is_lent = text.get() == "ab";
    Ok(text.into_plain().as_str() == "ab" && is_lent)
}

fn texts_hold(alloc: Global) -> Result<bool, AllocError> {
    all(&[
        is_plain(text(alloc)),
        are_told_apart(text(alloc), Text::from_str(alloc, "ba")),
    ])
}

#[test]
fn texts_are_what_they_hold(rt: HostRuntime) -> Result<(), Fail> {
    holds(&rt, texts_hold(rt.alloc()))
}

fn names(alloc: Global) -> Result<Names, AllocError> {
    Names::from_strs(alloc, &["root", "leaf"])
}

fn are_from_the_root(names: &Names) -> bool {
    names.get().len() == 2 && names.get()[0].as_str() == "root"
}

fn are_made_of_plain_ones(names: &Names) -> Result<bool, AllocError> {
    Ok(Names::of(names.clone()?.into_plain()) == *names)
}

fn are_plain(names: Result<Names, AllocError>) -> Result<bool, AllocError> {
    let names = names?;
    all(&[
        Ok(are_from_the_root(&names)),
        are_made_of_plain_ones(&names),
    ])
}

fn names_hold(alloc: Global) -> Result<bool, AllocError> {
    all(&[
        are_plain(names(alloc)),
        are_told_apart(names(alloc), Names::from_strs(alloc, &["leaf", "root"])),
    ])
}

#[test]
fn names_are_what_they_hold(rt: HostRuntime) -> Result<(), Fail> {
    holds(&rt, names_hold(rt.alloc()))
}

fn listed(alloc: Global, first: usize, second: usize) -> Result<Listed<usize>, AllocError> {
    Ok(Listed::of(vec![in alloc; first, second]?))
}

fn are_in_order(numbers: Result<Listed<usize>, AllocError>) -> Result<bool, AllocError> {
    let numbers = numbers?;
    let are_lent = numbers.get() == [0, 1].as_slice();
    Ok(numbers.into_plain().as_slice() == [0, 1].as_slice() && are_lent)
}

fn lists_hold(alloc: Global) -> Result<bool, AllocError> {
    all(&[
        are_in_order(listed(alloc, 0, 1)),
        are_told_apart(listed(alloc, 0, 1), listed(alloc, 1, 0)),
    ])
}

#[test]
fn lists_are_what_they_hold(rt: HostRuntime) -> Result<(), Fail> {
    holds(&rt, lists_hold(rt.alloc()))
}
