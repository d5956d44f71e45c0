//! Where the data stand between the two parts.

use super::texts::holds;
use page_source::{head, tail};
use std::alloc::{AllocError, Global};
use std::test::Fail;

/// The head, these data and the tail.
fn page_of(alloc: Global, data: &str) -> Result<String, AllocError> {
    let head = head().concat(alloc)?;
    let tail = tail().concat(alloc)?;
    format!(in alloc; "{head}{data}{tail}")
}

fn opens_an_element(head: &str) -> bool {
    head.starts_with("<!doctype html>\n")
        && head.ends_with("<script type=\"application/json\" id=\"data\">")
}

fn closes_an_element(tail: &str) -> bool {
    tail.starts_with("</script>\n") && tail.ends_with("</html>\n")
}

fn head_opens(alloc: Global) -> Result<bool, AllocError> {
    Ok(opens_an_element(&head().concat(alloc)?))
}

fn tail_closes(alloc: Global) -> Result<bool, AllocError> {
    Ok(closes_an_element(&tail().concat(alloc)?))
}

#[test]
fn data_stand_in_an_element(rt: HostRuntime) -> Result<(), Fail> {
    holds(&rt, head_opens(rt.alloc()))?;
    holds(&rt, tail_closes(rt.alloc()))
}

/// Whether the page is the head, these data and the tail.
pub(crate) fn is_page(alloc: Global, page: &[u8], data: &str) -> Result<bool, AllocError> {
    Ok(page == page_of(alloc, data)?.as_bytes())
}

fn page_begins(alloc: Global) -> Result<bool, AllocError> {
    Ok(page_of(alloc, "{}")?.starts_with("<!doctype html>"))
}

#[test]
fn example_of_the_readme(rt: HostRuntime) -> Result<(), Fail> {
    holds(&rt, page_begins(rt.alloc()))
}
