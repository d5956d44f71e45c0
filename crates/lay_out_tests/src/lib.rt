//! Tests of boxes, and of the weights of functions.
#![tactic(auto)]

#[cfg(test)]
mod tests;
