//! Tests of the command line, and of the settings that it makes.
#![tactic(auto)]

#[cfg(test)]
mod tests;
