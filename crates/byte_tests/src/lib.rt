//! Tests of readers, writers and files.
#![tactic(auto)]

#[cfg(test)]
mod tests;
