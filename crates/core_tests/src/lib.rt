//! Tests of samples, their tables, and ledgers.
#![tactic(auto)]

#[cfg(test)]
mod tests;
