//! Worked examples.

mod of_flame_layout;
mod of_function_calls;
mod of_function_changes;
mod of_function_sums;
mod sources;
mod told;
