//! Tests of pages.
#![tactic(auto)]

#[cfg(test)]
mod tests;
