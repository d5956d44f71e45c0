//! Tests of views that cross all crates: bytes of sources in, lists, trees, snapshots and texts out.
#![tactic(auto)]

#[cfg(test)]
mod tests;
