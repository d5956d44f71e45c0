use crate::tests::answers::holds;
use sample_tables::{NumberCache, hash_of_name};
use std::alloc::{AllocError, Global};
use std::test::Fail;

/// The number that is found by the hash of a name, whatever it is.
fn found(known: &NumberCache, name: &str) -> Option<usize> {
    known.find(hash_of_name(name), |_| true)
}

fn finds_two_names(alloc: Global) -> Result<bool, AllocError> {
    let mut known = NumberCache::with_room(alloc, 2)?;
    known.remember(hash_of_name("main"), 5);
    known.remember(hash_of_name("parse"), 0);
    Ok(
        found(&known, "main") == Some(5)
            && found(&known, "parse") == Some(0)
            && found(&known, "read").is_none(),
    )
}

#[test]
fn finds_what_it_remembered(rt: HostRuntime) -> Result<(), Fail> {
    holds(&rt, finds_two_names(rt.alloc()))
}
