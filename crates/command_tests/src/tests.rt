mod answers;
mod of_command_line;
mod of_run_options;
