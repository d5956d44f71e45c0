mod answers;
mod copies;
mod of_sample_tables;
mod of_stack_core;
mod samples;
