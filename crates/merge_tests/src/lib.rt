//! Tests of rows of ranks, and of merged stacks.
#![tactic(auto)]

#[cfg(test)]
mod tests;
