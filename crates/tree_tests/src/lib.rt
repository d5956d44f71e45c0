//! Tests of the call tree, its names, and the spellings that were met before.
#![tactic(auto)]

#[cfg(test)]
mod tests;
