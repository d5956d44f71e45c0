//! Worked pages.
mod examples;
