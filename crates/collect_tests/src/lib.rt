//! Tests of schedules, and of the collecting of sources.
#![tactic(auto)]

#[cfg(test)]
mod tests;
