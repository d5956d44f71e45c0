//! Tests that cross all crates: bytes of sources in, texts, statuses and messages out.
#![tactic(auto)]

#[cfg(test)]
mod tests;
