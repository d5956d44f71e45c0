//! Tests of texts.
#![tactic(auto)]

#[cfg(test)]
mod tests;
