//! Tests of the messages of a profile, and of sources, their sample types and their parts.
#![tactic(auto)]

#[cfg(test)]
mod tests;
