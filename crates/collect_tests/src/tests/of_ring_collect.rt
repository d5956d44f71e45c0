mod faults;
mod runs;
