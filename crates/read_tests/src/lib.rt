//! Tests of the readers of fields and of folded lines.
#![tactic(auto)]

#[cfg(test)]
mod tests;
