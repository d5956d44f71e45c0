//! Tests of the reader of profiles.
#![tactic(auto)]

#[cfg(test)]
mod tests;
