use crate::tests::answers::{all, holds};
use crate::tests::copies::are_told_apart;
use crate::tests::samples::sample;
use stack_core::{Close, Item, ReadFault, ReadKind};
use std::alloc::{AllocError, Global};
use std::error::Error;
use std::test::Fail;

fn text_of<E: Error>(error: &E, alloc: Global) -> Result<String, AllocError> {
    error.to_string(alloc)
}

fn is_text(found: Result<String, AllocError>, text: &str) -> Result<bool, AllocError> {
    Ok(found?.as_str() == text)
}

fn is_written(alloc: Global, kind: ReadKind) -> Result<bool, AllocError> {
    let fault = ReadFault { kind, at: 12 };
    all(&[
        Ok(kind.name() == "UnknownFunction"),
        is_text(kind.to_string(alloc), "UnknownFunction"),
        is_text(text_of(&fault, alloc), "UnknownFunction at 12"),
    ])
}

#[test]
fn faults_are_written_with_their_place(rt: HostRuntime) -> Result<(), Fail> {
    holds(&rt, is_written(rt.alloc(), ReadKind::UnknownFunction))
}

fn item(alloc: Global) -> Result<Item, AllocError> {
    Ok(Item::Sample(sample(alloc, &["a", ""], 2)?))
}

fn is_no_close(alloc: Global) -> Result<bool, AllocError> {
    are_told_apart(item(alloc), Ok(Item::Close(Close::NoMemory)))
}

#[test]
fn items_equal_their_copies(rt: HostRuntime) -> Result<(), Fail> {
    holds(&rt, is_no_close(rt.alloc()))
}
